//! Parts of a value, spelled one behind the other in one call.
ghost use Rattle.std.specs.Prelude.{◌≡◌, ◌++◌, ◌∷◌, [], OnOk};

use crate::wire::Wire;
use std::alloc::AllocError;

/// Parts of a value: references to values that can be spelled, in pairs. A function that spells its parts so has one call, and
/// no way out between two of them.
pub(crate) trait Parts {
    ghost use Rattle.std.specs.Prelude.{ℕ, List};

    /// The spellings of the parts, one behind the other.
    ghost text: { Self → List ℕ };

    /// That each part has a spelling.
    ghost Fits: { Self → Type 0 };

    /// What the parts need that their types do not give.
    ghost InRange: { Self → Type 0 };

    /// Adds the spellings. `Err` as from the `spell` of a part.
    fn spell_parts(&self, out: &mut Vec<u8>) -> Result<(), AllocError>
        requires { InRange self.now }
        ensures fits { OnOk result (Fits self.now) }
        ensures text { OnOk result (out.new.items ≡ out.old.items ++ text self.now) };
}

impl<T: Wire> Parts for &T {
    ghost text = { λ part. T.text part.now };

    ghost Fits = { λ part. T.Fits part.now };

    ghost InRange = { λ part. T.InRange part.now };

    fn spell_parts(&self, out: &mut Vec<u8>) -> Result<(), AllocError> {
        T::spell(self, out)
    }
}

impl<A: Parts, B: Parts> Parts for (A, B) {
    ghost use Rattle.std.specs.Prelude.{◌++◌};

    ghost text = { λ pair. A.text pair.0 ++ B.text pair.1 };

    ghost Fits = { λ pair. A.Fits pair.0 × B.Fits pair.1 };

    ghost InRange = { λ pair. A.InRange pair.0 × B.InRange pair.1 };

    fn spell_parts(&self, out: &mut Vec<u8>) -> Result<(), AllocError> {
        self.0.spell_parts(out)?;
        self.1.spell_parts(out)?;
        Ok(())
    }
}

/// Adds the tag of a variant that has no parts.
pub(crate) fn spell_tag(tag: u8, out: &mut Vec<u8>) -> Result<(), AllocError>
    ensures { OnOk result (out.new.items ≡ out.old.items ++ tag ∷ []) }
{
    out.push(tag)?;
    Ok(())
}

/// Adds the tag of a variant and its parts.
pub(crate) fn spell_tagged<P: Parts>(
    tag: u8,
    parts: &P,
    out: &mut Vec<u8>,
) -> Result<(), AllocError>
    requires { P.InRange parts.now }
    ensures fits { OnOk result (P.Fits parts.now) }
    ensures text { OnOk result (out.new.items ≡ out.old.items ++ tag ∷ P.text parts.now) }
{
    out.push(tag)?;
    parts.spell_parts(out)?;
    Ok(())
}
