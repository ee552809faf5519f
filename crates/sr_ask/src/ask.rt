use crate::request::Request;
use sr_value::{Compare, Duplicate, NoMemory, Place};
use std::alloc::Global;

/// What a process runs.
#[derive(Clone, Copy, Debug, PartialEq, Eq)]
pub enum Role {
    /// The making of main's globals and of main.
    Boot,
    /// The initial code of an instance.
    Initial,
    /// A proc, for one invocation.
    Proc,
    /// The final code of an instance.
    Final,
}

impl Compare for Role {
    fn same(&self, other: &Self) -> bool {
        *self == *other
    }
}

/// A request, with the place in the program that it comes from and the role of its process.
#[derive(Debug, Drop)]
pub struct Ask {
    /// The first line of the innermost statement or declaration that asks.
    pub place: Place,
    pub role: Role,
    pub request: Request,
}

impl Duplicate for Ask {
    fn copy(&self, alloc: Global) -> Result<Ask, NoMemory> {
        Ok(Ask {
            place: self.place,
            role: self.role,
            request: self.request.copy(alloc)?,
        })
    }
}

impl Compare for Ask {
    fn same(&self, other: &Self) -> bool {
        self.place.same(&other.place)
            && self.role.same(&other.role)
            && self.request.same(&other.request)
    }
}

/// What a process asks next, or that it has begun more statements since its last answer than it may.
#[derive(Debug, Drop)]
pub enum Asks {
    Asked(Ask),
    OverTicks,
}

impl Duplicate for Asks {
    fn copy(&self, alloc: Global) -> Result<Asks, NoMemory> {
        match self {
            Asks::Asked(ask) => Ok(Asks::Asked(ask.copy(alloc)?)),
            Asks::OverTicks => Ok(Asks::OverTicks),
        }
    }
}

impl Compare for Asks {
    fn same(&self, other: &Self) -> bool {
        match self {
            Asks::Asked(ask) => match other {
                Asks::Asked(their_ask) => ask.same(their_ask),
                Asks::OverTicks => false,
            },
            Asks::OverTicks => matches!(other, Asks::OverTicks),
        }
    }
}
