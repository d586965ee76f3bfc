//! The items that subscriptions hold.
ghost use Rattle.std.specs.Prelude.{◌≡◌, ◌++◌, map, slice_get, IfOk, OnOk};
ghost use Rattle.std.specs.Option.{option_map_or};
ghost use Rattle.plain_service.specs.Items.{held_for};
ghost use Rattle.ntf_service.specs.Told.{told};
ghost use Rattle.service_core.specs.Holding.{items_by, items_in, items_at};

use ais_values::{Duplicate, Seq};
use calls::Held;
use ntf_service::{NtfState, Subscription};
use std::alloc::{AllocError, Global};
use sub_queue::Item;

/// Adds items of a client's subscription under a key.
fn add_each(
    alloc: Global,
    held: &mut Seq<Held>,
    client: u16,
    key: u32,
    items: &[Item],
) -> Result<(), AllocError>
    ensures { OnOk result (held.new ≡ held.old ++ map (held_for client key) items.now) }
{
    for item in items {
        let item = item.copy(alloc)?;
        held.push(Held { client, key, item })?;
    }
    Ok(())
}

/// Adds the items that a subscription holds.
fn add_items(alloc: Global, held: &mut Seq<Held>, sub: &Subscription) -> Result<(), AllocError>
    ensures { OnOk result (held.new ≡ held.old ++ items_by (told sub.now)) }
{
    let (front, behind) = sub.queue.items();
    add_each(alloc, held, sub.client, sub.key, front)?;
    add_each(alloc, held, sub.client, sub.key, behind)?;
    Ok(())
}

/// Adds the items that the subscription at a place holds, if there is one.
fn add_items_at(
    alloc: Global,
    held: &mut Seq<Held>,
    ntf: &NtfState,
    place: u32,
) -> Result<(), AllocError>
    ensures { OnOk result (held.new ≡ held.old ++ items_at ntf.now.table.subs place) }
{
    match ntf.sub_at(place) {
        None => Ok(()),
        Some(sub) => {
            add_items(alloc, held, sub)?;
            Ok(())
        }
    }
}

/// The items that all subscriptions hold, in order of client, key and number.
pub(crate) fn items_of(alloc: Global, ntf: &NtfState) -> Result<Seq<Held>, AllocError>
    ensures { IfOk result (λ items. items ≡ items_in ntf.now.table) }
{
    let mut held = Seq::new(alloc);
    for place in 0..ntf.count() {
        add_items_at(alloc, &mut held, ntf, place)?;
    }
    Ok(held)
}
