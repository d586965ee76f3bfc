//! The numbers of clients, and of their calls.

/// The greatest number of a client; the least is 1.
pub const MAX_CLIENT: u16 = 4_096;

/// How many replies to a client's last calls are kept, and so how many numbers its calls without a reply may span.
pub const MAX_REPLIES: usize = 32;
