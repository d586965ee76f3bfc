//! An entry that joins the journal.
ghost use Rattle.std.specs.Prelude.{◌≡◌, ◌⊎◌, IfOk, OnOk, OnErr};
ghost use Rattle.std.specs.List.{AllByRecursion};
ghost use Rattle.ais_values.specs.Causes.{RoseExactlyOn};
ghost use Rattle.disk_model.specs.declared.answers.DiskAnswer.{DiskAnswer};
ghost use Rattle.wire.specs.MessageSpelling.{MessageInRange};
ghost use Rattle.lone_server.specs.Appends.{confirmed_by, AppendsCalls, AppendsFirst, FirstCanJoin, LosesFirst};

use crate::Lone;
use disk_model::{DiskAnswer, SharedDisk};
use lead_server::{send_all, take_first};
use std::alloc::{AllocError, Global};
use wire::{Message, let_message_go, one_message};

/// Appends the first message on the way to the journal, if there is one, and answers with it: it is in the journal then.
///
/// The four calls of an append are made in order, up to the first that is not done, and no others; or none, where memory runs out before.
/// The disk is asked only for a message that can stand in the journal. `Failed` comes exactly where the journal's disk had a fault, and
/// `Stopped` exactly where it stopped; after either the message is in the journal or it is not, and only a cold start goes on. On every error
/// the message is no longer on the way.
pub fn append_first<J: SharedDisk>(
    alloc: Global,
    servers: &mut Lone,
    beside: &mut J,
) -> Result<Option<Message>, DiskAnswer>
    requires { AllByRecursion MessageInRange servers.old.link }
    ensures ok { IfOk result (λ found. AppendsFirst found servers.old servers.new) }
    ensures err { OnErr result (LosesFirst servers.old servers.new) }
    ensures calls { AppendsCalls servers.old.link servers.old.journal.end result
        (J.seen beside.old) (J.seen beside.new) }
    ensures joins { (J.seen beside.new ≡ J.seen beside.old) ⊎ FirstCanJoin servers.old.link }
    ensures cause { RoseExactlyOn (J.seen beside.old).faults (J.seen beside.new).faults result
        DiskAnswer.Failed }
    ensures stop { RoseExactlyOn (J.seen beside.old).stops (J.seen beside.new).stops result
        DiskAnswer.Stopped }
{
    let message = match take_first(alloc, &mut servers.link) {
        Some(message) => message,
        None => return Ok(None),
    };
    match servers.journal.append(alloc, beside, &message) {
        Ok(()) => Ok(Some(message)),
        Err(answer) => {
            let_message_go(Some(message));
            Err(answer)
        }
    }
}

/// That the entry of this number is in the journal is on the way back. Where memory runs out all stays.
pub fn put_back(alloc: Global, servers: &mut Lone, number: u64) -> Result<(), AllocError>
    ensures ok { OnOk result (servers.new ≡ confirmed_by number servers.old) }
    ensures err { OnErr result (servers.new ≡ servers.old) }
{
    match one_message(alloc, Message::MirrorAck { number }) {
        Ok(messages) => send_all(alloc, &mut servers.back, messages),
        Err(error) => Err(error),
    }
}
