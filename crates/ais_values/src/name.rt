//! Names of objects, users and application streams.
ghost use Rattle.std.specs.Prelude.{◌≡◌, ◌↔◌, IfOk, IsErrOf, IsTrue};
ghost use Rattle.ais_values.specs.Names.{IsName};
ghost use Rattle.ais_values.specs.declared.name.NameAnswer.TheVariants.{Refused};

use crate::Duplicate;
use std::alloc::{AllocError, Global};
use std::marker::Model;

/// The most bytes that a name holds.
pub const MAX_NAME: usize = 256;

/// Why no name was made.
#[derive(Clone, Copy, Debug, PartialEq, Eq)]
pub enum NameAnswer {
    /// Memory ran out.
    Memory,
    /// The length is 0 or above 256, or a byte is outside 32 to 126.
    Refused,
}

impl From<AllocError> for NameAnswer {
    ghost use Rattle.std.specs.Prelude.{◌≡◌};
    ghost use Rattle.ais_values.specs.declared.name.NameAnswer.TheVariants.{Memory};

    ghost from_gives = { λ _ e. e ≡ Memory };

    fn from(_: AllocError) -> Self {
        NameAnswer::Memory
    }
}

/// A name: 1 to 256 bytes, each from 32 to 126. Contracts see the list of its bytes.
pub struct Name {
    bytes: Vec<u8>,
}

// Written out, as a derived one is proved anew in each crate that lets such a value go.
impl Drop for Name {
    fn drop(self) {
        let Name { bytes } = self;
        drop(bytes);
    }
}

impl Model for Name {
    ghost use Rattle.std.specs.Prelude.{List, ℕ};
    ghost use Rattle.ais_values.specs.Names.{IsName};

    ghost Value = { List ℕ };

    ghost view = { λ name. name.bytes.items };

    ghost invariant = { λ name. IsName name.bytes.items };
}

/// Whether these bytes are a name: 1 to 256 bytes, each from 32 to 126.
pub fn is_name(bytes: &[u8]) -> bool
    ensures { IsTrue result ↔ IsName bytes.now }
{
    !bytes.is_empty()
        && bytes.len() <= MAX_NAME
        && bytes.iter().all(|byte| *byte >= 32 && *byte <= 126)
}

impl Name {
    /// The name of these bytes.
    ///
    /// `Refused` comes exactly where the length is 0 or above 256, or a byte is outside 32 to 126.
    pub fn new(alloc: Global, bytes: &[u8]) -> Result<Name, NameAnswer>
        ensures ok { IfOk result (λ name. name ≡ bytes.now) }
        ensures refused { IsErrOf result Refused ↔ (¬ IsName bytes.now) }
    {
        if !is_name(bytes) {
            return Err(NameAnswer::Refused);
        }
        let bytes = bytes.to_vec(alloc)?;
        Ok(Name { bytes })
    }

    /// The bytes.
    pub fn as_slice(&self) -> &[u8]
        ensures bytes { result.now ≡ self.now }
        ensures name { IsName self.now }
    {
        self.bytes.as_slice()
    }
}

impl Duplicate for Name {
    fn copy(&self, alloc: Global) -> Result<Self, AllocError> {
        let bytes = self.bytes.to_vec(alloc)?;
        Ok(Name { bytes })
    }
}

impl PartialEq for Name {
    ghost use Rattle.std.specs.Prelude.{nat_eq};
    ghost use Rattle.std.specs.Cmp.{partial_equiv_from_equiv};
    ghost use Rattle.std.specs.Cmp.Lexicographic.{pointwise, nat_list_eq_equiv};

    ghost eq = { λ one other. pointwise nat_eq one other };

    ghost laws = { partial_equiv_from_equiv nat_list_eq_equiv };

    fn eq(&self, other: &Self) -> bool {
        self.bytes.as_slice() == other.bytes.as_slice()
    }
}

impl Eq for Name {
    ghost use Rattle.std.specs.Cmp.Lexicographic.{nat_list_eq_equiv};

    ghost laws = { nat_list_eq_equiv };
}
