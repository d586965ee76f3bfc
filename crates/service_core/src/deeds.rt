//! The deeds of what happens to streams.
ghost use Rattle.std.specs.Prelude.{◌≡◌, ◌≢◌, [], ◌++◌, IfOk, OnOk, OnErr};
ghost use Rattle.std.specs.List.{AllByRecursion};
ghost use Rattle.stream_layout.specs.Carrying.{IsFitEvent};
ghost use Rattle.log_history.specs.Deeds.{deeds_of_all};

use ais_values::Seq;
use std::alloc::{AllocError, Global};
use stream_config::StreamEvent;
use stream_layout::{Deed, deeds};

/// Puts deeds behind others.
fn put_behind(all: &mut Vec<Deed>, more: Seq<Deed>) -> Result<(), AllocError>
    ensures { OnOk result (all.new.items ≡ all.old.items ++ more) }
{
    let mut items = more.into_vec();
    all.append(&mut items)?;
    Ok(())
}

/// The deeds of all events, in order. Of no event it takes no memory.
pub(crate) fn deeds_of_all(alloc: Global, events: &[StreamEvent]) -> Result<Seq<Deed>, AllocError>
    requires { AllByRecursion IsFitEvent events.now }
    ensures ok { IfOk result (λ deeds. deeds ≡ deeds_of_all events.now) }
    ensures memory { OnErr result (events.now ≢ []) }
{
    let mut all = Vec::new(alloc);
    for event in events {
        let more = deeds(alloc, event)?;
        put_behind(&mut all, more)?;
    }
    Ok(Seq::from_vec(all))
}
