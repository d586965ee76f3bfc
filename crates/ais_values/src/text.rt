//! Bounded byte strings.
ghost use Rattle.std.specs.Prelude.{◌≡◌, ◌↔◌, IfOk, IsErrOf};
ghost use Rattle.ais_values.specs.Texts.{IsText};
ghost use Rattle.ais_values.specs.declared.text.TextAnswer.TheVariants.{Refused};

use crate::Duplicate;
use std::alloc::{AllocError, Global};
use std::marker::Model;

/// The most bytes that a text holds.
pub const MAX_TEXT: usize = 16_384;

/// Why no text was made.
#[derive(Clone, Copy, Debug, PartialEq, Eq)]
pub enum TextAnswer {
    /// Memory ran out.
    Memory,
    /// There are more than 16,384 bytes.
    Refused,
}

impl From<AllocError> for TextAnswer {
    ghost use Rattle.std.specs.Prelude.{◌≡◌};
    ghost use Rattle.ais_values.specs.declared.text.TextAnswer.TheVariants.{Memory};

    ghost from_gives = { λ _ e. e ≡ Memory };

    fn from(_: AllocError) -> Self {
        TextAnswer::Memory
    }
}

/// A byte string of 0 to 16,384 bytes. Contracts see the list of its bytes.
pub struct Text {
    bytes: Vec<u8>,
}

// Written out, as a derived one is proved anew in each crate that lets such a value go.
impl Drop for Text {
    fn drop(self) {
        let Text { bytes } = self;
        drop(bytes);
    }
}

impl Model for Text {
    ghost use Rattle.std.specs.Prelude.{List, ℕ};
    ghost use Rattle.ais_values.specs.Texts.{IsText};

    ghost Value = { List ℕ };

    ghost view = { λ text. text.bytes.items };

    ghost invariant = { λ text. IsText text.bytes.items };
}

impl Text {
    /// The text of these bytes.
    ///
    /// `Refused` comes exactly where there are more than 16,384 bytes.
    pub fn new(alloc: Global, bytes: &[u8]) -> Result<Text, TextAnswer>
        ensures ok { IfOk result (λ text. text ≡ bytes.now) }
        ensures refused { IsErrOf result Refused ↔ (¬ IsText bytes.now) }
    {
        if bytes.len() > MAX_TEXT {
            return Err(TextAnswer::Refused);
        }
        let bytes = bytes.to_vec(alloc)?;
        Ok(Text { bytes })
    }

    /// The text of these bytes. It takes no memory.
    pub fn from_vec(bytes: Vec<u8>) -> Text
        requires { IsText bytes.items }
        ensures { result ≡ bytes.items }
    {
        Text { bytes }
    }

    /// The bytes, of which there are at most 16,384.
    pub fn as_slice(&self) -> &[u8]
        ensures bytes { result.now ≡ self.now }
        ensures bound { IsText self.now }
    {
        self.bytes.as_slice()
    }
}

impl Duplicate for Text {
    fn copy(&self, alloc: Global) -> Result<Self, AllocError> {
        let bytes = self.bytes.to_vec(alloc)?;
        Ok(Text { bytes })
    }
}

impl PartialEq for Text {
    ghost use Rattle.std.specs.Prelude.{nat_eq};
    ghost use Rattle.std.specs.Cmp.{partial_equiv_from_equiv};
    ghost use Rattle.std.specs.Cmp.Lexicographic.{pointwise, nat_list_eq_equiv};

    ghost eq = { λ one other. pointwise nat_eq one other };

    ghost laws = { partial_equiv_from_equiv nat_list_eq_equiv };

    fn eq(&self, other: &Self) -> bool {
        self.bytes.as_slice() == other.bytes.as_slice()
    }
}

impl Eq for Text {
    ghost use Rattle.std.specs.Cmp.Lexicographic.{nat_list_eq_equiv};

    ghost laws = { nat_list_eq_equiv };
}
