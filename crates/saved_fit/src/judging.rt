//! Parts of a value that are each judged by all of it.
ghost use Rattle.std.specs.Prelude.{◌≡◌, ◌↔◌, IsTrue};
ghost use Rattle.std.specs.List.{AllByRecursion};
ghost use Rattle.calls.specs.declared.saved.Saved.{Saved as SavedOf};

use calls::Saved;

/// A part that is fit or not, in a value of which something is known.
pub(crate) trait Judged {
    ghost known: { SavedOf → Type 0 };

    ghost fits: { SavedOf → Self → Type 0 };

    /// Whether the part is fit.
    fn fits(&self, saved: &Saved) -> bool
        requires { known saved.now }
        ensures { IsTrue result ↔ fits saved.now self.now };
}

/// Whether each of some parts is fit.
pub(crate) fn all_fit<T: Judged>(saved: &Saved, parts: &[T]) -> bool
    requires { T.known saved.now }
    ensures { IsTrue result ↔ AllByRecursion (T.fits saved.now) parts.now }
{
    parts.iter().all(|part| part.fits(saved))
}
