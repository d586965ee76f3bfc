//! What an entry in hand asks for.
use ais_values::Seq;
use stream_layout::Deed;
use wire::Message;

/// The deeds on the disk, in order, and the reply that is posted once they are done; a receipt has none.
#[derive(Drop)]
pub struct Owed {
    pub deeds: Seq<Deed>,
    pub to_net: Seq<Message>,
}
