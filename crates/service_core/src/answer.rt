//! Why there is no service of a value.

/// Why a service was not made of a value.
#[derive(Clone, Copy, Debug, PartialEq, Eq)]
pub enum RestoreAnswer {
    /// The value is not fit to be handed on.
    Refused,
    /// Memory ran out.
    Memory,
}
