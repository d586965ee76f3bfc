//! What no clause says: that an effect is copied while there is memory.
use ais_values::{Duplicate, Seq, Text};
use calls::Reply;
use service_core::Effect;
use stream_layout::Deed;

/// Whether an effect makes the file `f` and is answered as done.
fn is_made(effect: &Effect) -> bool {
    let created = match effect.deeds.as_slice() {
        [Deed::Create { name }] => name.as_slice() == b"f".as_slice(),
        _ => false,
    };
    created && effect.reply == Some(Reply::Done)
}

#[test]
fn effects_are_copied(rt: HostRuntime) {
    let alloc = rt.alloc();
    let mut deeds = Seq::new(alloc);
    let name = Text::new(alloc, b"f").expect(&rt, "a text");
    deeds.push(Deed::Create { name }).expect(&rt, "memory");
    let effect = Effect {
        reply: Some(Reply::Done),
        deeds,
    };
    let copy = effect.copy(alloc).expect(&rt, "memory");
    drop(effect);
    let made = is_made(&copy);
    drop(copy);
    assert!(rt; made);
}
