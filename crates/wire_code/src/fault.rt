//! Why bytes are not read as a value.
ghost use Rattle.std.specs.Prelude.{◌≡◌, ◌+◌, ◌^◌, ◌<◌, length};
ghost use Rattle.wire_code.specs.declared.fault.Fault.TheVariants.{Bad};

use std::alloc::AllocError;

/// What is wrong with bytes.
#[derive(Clone, Copy, PartialEq, Eq, Debug)]
pub enum Fault {
    /// They end within the value.
    Short,
    /// A byte fits no value; so many bytes are left from it on.
    Bad { left: usize },
}

impl Fault {
    /// The byte in front of these is wrong.
    pub fn before(rest: &[u8]) -> Fault
        requires { length rest.now < 2 ^ 63 }
        ensures { result ≡ Bad (length rest.now + 1) }
    {
        Fault::Bad {
            left: rest.len() + 1,
        }
    }
}

/// Why no value was read.
#[derive(Clone, Copy, PartialEq, Eq, Debug)]
pub enum Trouble {
    /// Memory ran out.
    Memory,
    /// The bytes are wrong.
    Faulty { fault: Fault },
}

impl From<AllocError> for Trouble {
    ghost use Rattle.std.specs.Prelude.{◌≡◌};
    ghost use Rattle.wire_code.specs.declared.fault.Trouble.TheVariants.{Memory};

    ghost from_gives = { λ _ trouble. trouble ≡ Memory };

    fn from(_: AllocError) -> Self {
        Trouble::Memory
    }
}

impl From<Fault> for Trouble {
    ghost use Rattle.std.specs.Prelude.{◌≡◌};
    ghost use Rattle.wire_code.specs.declared.fault.Trouble.TheVariants.{Faulty};

    ghost from_gives = { λ fault trouble. trouble ≡ Faulty fault };

    fn from(fault: Fault) -> Self {
        Trouble::Faulty { fault }
    }
}
