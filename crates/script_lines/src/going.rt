//! Lines that are let go: a crate that calls this proves no drop of what they have.
use crate::Line;

/// Lets a line go.
pub fn let_line_go(line: Line) {
    drop(line);
}
