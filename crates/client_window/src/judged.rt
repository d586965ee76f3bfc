//! What the number of a call says of it.

/// What a call is, by its number.
#[derive(PartialEq, Drop)]
pub enum Judged<'a, R> {
    /// The next call.
    New,
    /// A call that was answered by this reply.
    Repeat { reply: &'a R },
    /// A call that was answered by a reply which is no longer kept.
    Old,
    /// A call behind the next one.
    Ahead,
}
