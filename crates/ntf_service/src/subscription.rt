//! A subscription as it is kept.
use ais_values::Shared;
use ntf_filters::FilterSet;
use sub_queue::SubQueue;

/// A subscription: its client, its key, which is the number of the client's call that made it, the
/// id that the client gave it, what it asks for, and its queue.
#[derive(Drop)]
pub struct Subscription {
    pub client: u16,
    pub key: u32,
    pub id: u32,
    pub filters: Shared<FilterSet>,
    pub queue: SubQueue,
}
