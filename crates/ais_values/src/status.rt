//! Answers of the services, and the choice of a version.
ghost use Rattle.std.specs.Prelude.{◌≡◌, ◌↔◌, Ok, Err};
ghost use Rattle.ais_values.specs.Statuses.{status_code, status_word, supported_version, CanServe};

use crate::{Duplicate, Version, Which};
use std::alloc::{AllocError, Global};
use std::fmt;

/// The answer of a service to a call (`SaAisErrorT` of the standard, as far as it is answered).
#[derive(Clone, Copy, Debug, PartialEq, Eq)]
pub enum Status {
    Ok,
    Version,
    TryAgain,
    InvalidParam,
    BadHandle,
    NotExist,
    Exist,
    NoSpace,
    NoResources,
    BadFlags,
}

impl Status {
    /// The standard's number of the answer.
    pub fn code(self) -> u8
        ensures { result ≡ status_code self }
    {
        match self {
            Status::Ok => 1,
            Status::Version => 3,
            Status::TryAgain => 6,
            Status::InvalidParam => 7,
            Status::BadHandle => 9,
            Status::NotExist => 12,
            Status::Exist => 14,
            Status::NoSpace => 15,
            Status::NoResources => 18,
            Status::BadFlags => 25,
        }
    }

    /// The answer as it is printed.
    pub fn word(self) -> &'static str
        ensures { result.now ≡ status_word self }
    {
        match self {
            Status::Ok => "ok",
            Status::Version => "VERSION",
            Status::TryAgain => "TRY_AGAIN",
            Status::InvalidParam => "INVALID_PARAM",
            Status::BadHandle => "BAD_HANDLE",
            Status::NotExist => "NOT_EXIST",
            Status::Exist => "EXIST",
            Status::NoSpace => "NO_SPACE",
            Status::NoResources => "NO_RESOURCES",
            Status::BadFlags => "BAD_FLAGS",
        }
    }
}

impl fmt::Display for Status {
    ghost use Rattle.std.specs.Prelude.{Some};
    ghost use Rattle.ais_values.specs.Statuses.{status_word};

    ghost output = { λ status. Some (status_word status) };

    fn fmt<W: fmt::Write>(&self, f: &mut fmt::Formatter<W>) -> fmt::Result {
        let word = self.word();
        write!(f, "{word}")
    }
}

impl Duplicate for Status {
    fn copy(&self, _alloc: Global) -> Result<Self, AllocError> {
        Ok(*self)
    }
}

/// The version of the service that serves a client which asks for this one. The minor is not compared.
///
/// `Status::Version` comes exactly where the release is not `A`, or the major is above the service's.
pub fn negotiate(service: Which, wanted: Version) -> Result<Version, Status>
    ensures served { (result ≡ Ok (supported_version service)) ↔ CanServe service wanted }
    ensures refused { (result ≡ Err Status.Version) ↔ (¬ CanServe service wanted) }
{
    let supported = match service {
        Which::Log => Version {
            release: b'A',
            major: 2,
            minor: 1,
        },
        Which::Ntf => Version {
            release: b'A',
            major: 1,
            minor: 1,
        },
    };
    if wanted.release == supported.release && wanted.major <= supported.major {
        Ok(supported)
    } else {
        Err(Status::Version)
    }
}
