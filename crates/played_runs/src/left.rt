//! The lines that are left to play.
ghost use Rattle.std.specs.Prelude.{◌≡◌, [], ◌∷◌, MatchOption, reverse};

use ais_values::Seq;
use std::marker::Model;

/// Lines that are played one after another. Each leaves as it is taken, and what was taken holds no memory here. Contracts see those
/// that are left, the next one first.
pub struct LinesLeft<L> {
    // The last line first, so that the next one leaves at the end.
    lines: Vec<L>,
}

// Written out, as a derived one is proved anew in each crate that lets such a value go.
impl<L: Drop> Drop for LinesLeft<L> {
    fn drop(self) {
        let LinesLeft { lines } = self;
        drop(lines);
    }
}

impl<L> Model for LinesLeft<L> {
    ghost use Rattle.std.specs.Prelude.{List, reverse};

    ghost Value = { List L };

    ghost view = { λ left. reverse left.lines.items };
}

// Gives room back where at most half of it is used, so that few of the lines that leave cost anything.
fn give_back<L>(lines: &mut Vec<L>)
    ensures { lines.new.items ≡ lines.old.items }
{
    if lines.capacity() / 2 < lines.len() {
        return;
    }
    lines.shrink_to_fit();
}

// Takes the last of some lines, if there is one.
fn take_last<L>(lines: &mut Vec<L>) -> Option<L>
    ensures { MatchOption result ((reverse lines.old.items ≡ []) × (reverse lines.new.items ≡ []))
        (λ line. reverse lines.old.items ≡ line ∷ reverse lines.new.items) }
{
    let line = lines.pop();
    give_back(lines);
    line
}

impl<L> LinesLeft<L> {
    /// These lines, all of which are left. It takes no memory.
    pub fn new(lines: Seq<L>) -> LinesLeft<L>
        ensures { result ≡ lines }
    {
        let mut turned = lines.into_vec();
        turned.reverse();
        LinesLeft { lines: turned }
    }

    /// Takes the next line; none exactly where none is left, which stays so. It takes no memory.
    pub fn take_next(&mut self) -> Option<L>
        ensures { MatchOption result ((self.old ≡ []) × (self.new ≡ []))
            (λ line. self.old ≡ line ∷ self.new) }
    {
        take_last(&mut self.lines)
    }
}
