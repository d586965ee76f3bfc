//! Messages that are let go.
ghost use Rattle.std.specs.Prelude.{◌≡◌};
ghost use Rattle.wire.specs.Mirrored.{entry_brought};

use crate::Message;
use ais_values::Seq;
use calls::Entry;

/// Lets a message go, if there is one.
pub fn let_message_go(message: Option<Message>) {
    drop(message);
}

/// Lets messages go.
pub fn let_messages_go(messages: Seq<Message>) {
    drop(messages);
}

/// The number and the entry that a message brings, if there is one and it mirrors an entry; any other message is let go.
pub fn mirrored(message: Option<Message>) -> Option<(u64, Entry)>
    ensures { result ≡ entry_brought message }
{
    match message {
        Some(message) => message.mirrored(),
        None => None,
    }
}
