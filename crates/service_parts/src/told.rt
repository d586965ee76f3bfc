//! A reply, and the copy of it that is kept.
ghost use Rattle.std.specs.Prelude.{◌≡◌};
ghost use Rattle.calls.specs.declared.reply.Reply.TheVariants.{Refused, Done, Sent, Marked};

use ais_values::Status;
use calls::Reply;
use stream_config::Mark;

/// The reply to a call, twice: once for the client, and once for its window.
#[derive(Drop)]
pub struct Told {
    pub reply: Reply,
    pub kept: Reply,
}

impl Told {
    /// The call changed nothing.
    pub fn refused(status: Status) -> Told
        ensures reply { result.reply ≡ Refused status }
        ensures kept { result.kept ≡ Refused status }
    {
        Told {
            reply: Reply::Refused { status },
            kept: Reply::Refused { status },
        }
    }

    /// The call was answered ok, and is told nothing more.
    pub fn done() -> Told
        ensures reply { result.reply ≡ Done }
        ensures kept { result.kept ≡ Done }
    {
        Told {
            reply: Reply::Done,
            kept: Reply::Done,
        }
    }

    /// A notification was sent, and has this id.
    pub fn sent(id: u64) -> Told
        ensures reply { result.reply ≡ Sent id }
        ensures kept { result.kept ≡ Sent id }
    {
        Told {
            reply: Reply::Sent { id },
            kept: Reply::Sent { id },
        }
    }

    /// A stream was opened, written to, or got its mask, and has this mark; a write whose record its mask did not let
    /// pass is told that it was filtered.
    pub fn marked(filtered: bool, mark: Mark) -> Told
        ensures reply { result.reply ≡ Marked filtered mark }
        ensures kept { result.kept ≡ Marked filtered mark }
    {
        Told {
            reply: Reply::Marked { filtered, mark },
            kept: Reply::Marked { filtered, mark },
        }
    }
}
