//! A value that stands by itself in memory.
ghost use Rattle.std.specs.Prelude.{◌≡◌, IfOk};

use crate::Duplicate;
use std::alloc::{AllocError, Global};
use std::marker::Model;

/// A value that stands by itself in memory, so that what holds it is small where it is moved and kept. Contracts see the
/// value.
#[derive(Drop)]
pub struct Boxed<T> {
    inner: Box<T>,
}

impl<T> Model for Boxed<T> {
    ghost Value = { T };

    ghost view = { λ boxed. boxed.inner.value };
}

impl<T> Boxed<T> {
    /// The value, by itself. Where memory runs out it is let go.
    pub fn new(alloc: Global, value: T) -> Result<Boxed<T>, AllocError>
    where
        T: Drop,
        ensures { IfOk result (λ boxed. boxed ≡ value) }
    {
        let inner = Box::new(alloc, value)?;
        Ok(Boxed { inner })
    }

    /// The value.
    pub fn get(&self) -> &T
        ensures { result.now ≡ self.now }
    {
        &self.inner
    }

    /// The value, out of its box. It takes no memory.
    pub fn into_inner(self) -> T
        ensures { result ≡ self }
    {
        let Boxed { inner } = self;
        Box::into_inner(inner)
    }
}

impl<T: Duplicate + Drop> Duplicate for Boxed<T> {
    fn copy(&self, alloc: Global) -> Result<Self, AllocError> {
        let value = self.inner.copy(alloc)?;
        Boxed::new(alloc, value)
    }
}

impl<T: PartialEq> PartialEq for Boxed<T> {
    ghost eq = { T.eq };

    ghost laws = { T.laws };

    fn eq(&self, other: &Self) -> bool {
        *self.inner == *other.inner
    }
}
