//! How runs end that play no lines: the one line that is printed.
ghost use Rattle.std.specs.Prelude.{◌≡◌, ◌++◌, codes, IfOk};
ghost use Rattle.std.specs.Fmt.{decimal};
ghost use Rattle.format_expr.specs.Faults.{word_of};

use format_expr::ExprFault;
use played_runs::{End, Status8, end_with};
use std::alloc::{AllocError, Global};

/// The end where a text has a fault.
pub fn bad_text(alloc: Global, fault: ExprFault) -> Result<End, AllocError>
    ensures status { IfOk result (λ end. end.status ≡ Status8.ScriptRefused) }
    ensures text { IfOk result (λ end. end.text.items ≡ codes "bad "
        ++ (decimal fault.place ++ (codes " " ++ (word_of fault.why ++ codes "\n")))) }
{
    let place = fault.place;
    let why = fault.why;
    let printed = format!(in alloc; "bad {place} {why}\n")?;
    end_with(alloc, Status8::ScriptRefused, printed.as_bytes())
}

/// The end where texts of tokens cannot be told apart for the piece of this number.
pub fn inseparable(alloc: Global, piece: u32) -> Result<End, AllocError>
    ensures status { IfOk result (λ end. end.status ≡ Status8.Inseparable) }
    ensures text { IfOk result (λ end. end.text.items
        ≡ codes "inseparable " ++ (decimal piece ++ codes "\n")) }
{
    let printed = format!(in alloc; "inseparable {piece}\n")?;
    end_with(alloc, Status8::Inseparable, printed.as_bytes())
}

/// The end of a check that passed, with a count.
pub fn passed(alloc: Global, count: usize) -> Result<End, AllocError>
    ensures status { IfOk result (λ end. end.status ≡ Status8.Done) }
    ensures text { IfOk result (λ end. end.text.items
        ≡ codes "ok " ++ (decimal count ++ codes "\n")) }
{
    let line = format!(in alloc; "ok {count}\n")?;
    end_with(alloc, Status8::Done, line.as_bytes())
}
