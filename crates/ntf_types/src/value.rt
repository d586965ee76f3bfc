//! Values that notifications carry, and the changes that they tell of.
use ais_values::{Duplicate, Name, Text};
use std::alloc::{AllocError, Global};

/// A value of an attribute, of additional information or of a security alarm.
#[derive(PartialEq)]
pub enum Value {
    Int { value: i64 },
    NameOf { name: Name },
    TextOf { text: Text },
    Binary { bytes: Text },
}

// Written out, as a derived one is proved anew in each crate that lets such a value go.
impl Drop for Value {
    fn drop(self) {
        match self {
            Value::Int { value: _ } => {}
            Value::NameOf { name } => drop(name),
            Value::TextOf { text } => drop(text),
            Value::Binary { bytes } => drop(bytes),
        }
    }
}

/// A value under a number: an attribute of an object, or an element of additional information.
#[derive(PartialEq)]
pub struct Pair {
    pub id: u16,
    pub value: Value,
}

// Written out, as a derived one is proved anew in each crate that lets such a value go.
impl Drop for Pair {
    fn drop(self) {
        let Pair { id: _, value } = self;
        drop(value);
    }
}

/// An attribute's value after a change, and the one before it where that is known.
#[derive(PartialEq)]
pub struct Change {
    pub id: u16,
    pub after: Value,
    pub before: Option<Value>,
}

// Written out, as a derived one is proved anew in each crate that lets such a value go.
impl Drop for Change {
    fn drop(self) {
        let Change {
            id: _,
            after,
            before,
        } = self;
        drop(after);
        drop(before);
    }
}

/// A state after a change, and the one before it where that is known.
#[derive(Clone, Copy, PartialEq, Eq, Debug)]
pub struct StateChange {
    pub id: u16,
    pub after: u16,
    pub before: Option<u16>,
}

impl Duplicate for Value {
    fn copy(&self, alloc: Global) -> Result<Self, AllocError> {
        match self {
            Value::Int { value } => Ok(Value::Int { value: *value }),
            Value::NameOf { name } => Ok(Value::NameOf {
                name: name.copy(alloc)?,
            }),
            Value::TextOf { text } => Ok(Value::TextOf {
                text: text.copy(alloc)?,
            }),
            Value::Binary { bytes } => Ok(Value::Binary {
                bytes: bytes.copy(alloc)?,
            }),
        }
    }
}

impl Duplicate for Pair {
    fn copy(&self, alloc: Global) -> Result<Self, AllocError> {
        Ok(Pair {
            id: self.id,
            value: self.value.copy(alloc)?,
        })
    }
}

impl Duplicate for Change {
    fn copy(&self, alloc: Global) -> Result<Self, AllocError> {
        Ok(Change {
            id: self.id,
            after: self.after.copy(alloc)?,
            before: self.before.copy(alloc)?,
        })
    }
}

impl Duplicate for StateChange {
    fn copy(&self, _alloc: Global) -> Result<Self, AllocError> {
        Ok(*self)
    }
}
