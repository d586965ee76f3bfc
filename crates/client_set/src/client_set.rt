//! A set of clients.
ghost use Rattle.std.specs.Prelude.{◌≡◌, ℕ, length, nat_lt, ◌==◌, [], IsTrue, MatchResult, OnOk, OnErr};
ghost use Rattle.client_set.specs.Members.{has};
ghost use Rattle.client_set.specs.Rising.{put, without, IsRising};
ghost use Rattle.client_set.specs.Searching.{IsPlaceOf, IsPlaceFor};

use ais_values::Duplicate;
use std::alloc::{AllocError, Global};
use std::marker::Model;

/// A set of clients by their numbers. Contracts see the rising list of them.
pub struct ClientSet {
    clients: Vec<u16>,
}

// Written out, as a derived one is proved anew in each crate that lets such a value go.
impl Drop for ClientSet {
    fn drop(self) {
        let ClientSet { clients } = self;
        drop(clients);
    }
}

impl Model for ClientSet {
    ghost use Rattle.std.specs.Prelude.{List, ℕ, nat_lt};
    ghost use Rattle.client_set.specs.Rising.{IsRising};

    ghost Value = { List ℕ };

    ghost view = { λ set. set.clients.items };

    ghost invariant = { λ set. IsRising nat_lt set.clients.items };
}

/// Whether all clients of a rising list are below this one.
fn are_below(clients: &[u16], client: u16) -> bool
    requires { IsRising nat_lt clients.now }
    ensures { IsTrue result → IsPlaceFor clients.now client (length clients.now) }
{
    match clients.last() {
        None => true,
        Some(last) => *last < client,
    }
}

/// The place of a client in a rising list, or the one where it belongs. It is found at once where clients are 1, 2, 3 and so on,
/// and for one above all; else by halving.
fn place_of(clients: &[u16], client: u16) -> Result<usize, usize>
    requires { IsRising nat_lt clients.now }
    ensures { MatchResult result (IsPlaceOf clients.now client) (IsPlaceFor clients.now client) }
{
    let place = usize::from(client).saturating_sub(1);
    if place < clients.len() && clients[place] == client {
        return Ok(place);
    }
    if are_below(clients, client) {
        return Err(clients.len());
    }
    clients.binary_search(&client)
}

impl ClientSet {
    /// The empty set. It takes no memory.
    pub fn new(alloc: Global) -> ClientSet
        ensures { result ≡ [] }
    {
        ClientSet {
            clients: Vec::new(alloc),
        }
    }

    /// The set of these clients. It takes no memory.
    pub fn from_rising(clients: Vec<u16>) -> ClientSet
        requires { IsRising nat_lt clients.items }
        ensures { result ≡ clients.items }
    {
        ClientSet { clients }
    }

    /// Whether the client is in the set.
    pub fn contains(&self, client: u16) -> bool
        ensures { result ≡ has client self.now }
    {
        place_of(self.clients.as_slice(), client).is_ok()
    }

    /// Puts the client into the set. On an error nothing changes.
    pub fn insert(&mut self, client: u16) -> Result<(), AllocError>
        ensures ok { OnOk result (self.new ≡ put nat_lt client self.old) }
        ensures err { OnErr result (self.new ≡ self.old) }
    {
        if let Err(place) = place_of(self.clients.as_slice(), client) {
            self.clients.insert(place, client)?;
        }
        Ok(())
    }

    /// Takes the client out of the set. It takes no memory.
    pub fn remove(&mut self, client: u16)
        ensures { self.new ≡ without (λ other. other == client) self.old }
    {
        if let Ok(place) = place_of(self.clients.as_slice(), client) {
            self.clients.remove(place);
        }
    }

    /// The clients, rising.
    pub fn as_slice(&self) -> &[u16]
        ensures clients { result.now ≡ self.now }
        ensures rising { IsRising nat_lt self.now }
    {
        self.clients.as_slice()
    }
}

impl Duplicate for ClientSet {
    fn copy(&self, alloc: Global) -> Result<Self, AllocError> {
        let clients = self.clients.to_vec(alloc)?;
        Ok(ClientSet { clients })
    }
}
