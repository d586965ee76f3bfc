//! How a run ends whose words are none of the program's.
ghost use Rattle.std.specs.Prelude.{◌≡◌, IfOk};
ghost use Rattle.aisrun.specs.Usage.{usage_line};

use played_runs::{End, Status8, end_with};
use std::alloc::{AllocError, Global};

/// What is printed where the words are none of the program's.
const USAGE: &[u8] =
    b"usage: aisrun run, check, expr KIND TEXT, gen COUNT SEED, load COUNT SEED, cold, recover, scan KIND TEXT SIZE, find KIND TEXT SIZE TOKEN WORD or trio\n";

/// The end where the words are none of the program's.
#[tactic(auto, unfolding(crate::specs::Usage::usage_line))]
pub fn usage(alloc: Global) -> Result<End, AllocError>
    ensures status { IfOk result (λ end. end.status ≡ Status8.Usage) }
    ensures text { IfOk result (λ end. end.text.items ≡ usage_line) }
{
    end_with(alloc, Status8::Usage, USAGE)
}
