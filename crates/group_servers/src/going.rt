//! Seats that are let go: a crate that calls this proves no drop of what they have.
use crate::Seat;
use mirror::let_node_go;
use wire::let_messages_go;

/// Lets a server go, with what is on the way to it and back.
pub fn let_seat_go(seat: Seat) {
    let Seat {
        server: _,
        node,
        link,
        back,
    } = seat;
    let_node_go(node);
    let_messages_go(link);
    let_messages_go(back);
}
