ghost use Rattle.std.specs.Prelude.{◌≡◌};
ghost use Rattle.explicit_routes.specs.Choosing.{error_of};
ghost use Rattle.explicit_routes.specs.declared.fault.RouteFault.TheVariants.{Error, Memory};

use lsr_facts::RsvpError;
use std::alloc::AllocError;
use thiserror::Error;

/// Why no way leads on from here (RFC 3209, 7.3).
#[derive(Clone, Copy, Debug, PartialEq, Eq, Error)]
pub enum RouteError {
    /// 24/1: the explicit route can't be read as one of nodes.
    #[error("bad explicit route: it has no step, or one that is no IPv4 prefix of at most 32 bits")]
    BadExplicitRoute,
    /// 24/2: a strict step is no neighbour.
    #[error("bad strict node: the next step is strict, and no link that is up leads to one of its nodes")]
    BadStrictNode,
    /// 24/3: no way leads to a loose step.
    #[error("bad loose node: the next step is loose, and no link or static route leads to it")]
    BadLooseNode,
    /// 24/4: the explicit route doesn't begin here.
    #[error("bad initial subobject: the first step of the explicit route isn't this router")]
    BadInitialSubobject,
    /// 24/5: no way leads to the endpoint.
    #[error("no route: no link or static route leads to the endpoint")]
    NoRoute,
}

impl RouteError {
    /// The error as RSVP tells it.
    pub fn error(self) -> RsvpError
        ensures { result ≡ error_of self }
    {
        match self {
            RouteError::BadExplicitRoute => RsvpError::BAD_EXPLICIT_ROUTE,
            RouteError::BadStrictNode => RsvpError::BAD_STRICT_NODE,
            RouteError::BadLooseNode => RsvpError::BAD_LOOSE_NODE,
            RouteError::BadInitialSubobject => RsvpError::BAD_INITIAL_SUBOBJECT,
            RouteError::NoRoute => RsvpError::NO_ROUTE,
        }
    }
}

/// Why no next hop was chosen.
#[derive(Clone, Copy, Debug, PartialEq, Eq, Error)]
pub enum RouteFault {
    /// No way leads on.
    #[error("{0}")]
    Error(RouteError),
    /// There is no memory for what is left of the route.
    #[error("out of memory while a next hop was chosen: free some and try again")]
    Memory,
}

impl From<RouteError> for RouteFault {
    ghost from_gives = { λ error fault. fault ≡ Error error };

    fn from(error: RouteError) -> RouteFault {
        RouteFault::Error(error)
    }
}

impl From<AllocError> for RouteFault {
    ghost from_gives = { λ _ fault. fault ≡ Memory };

    fn from(_error: AllocError) -> RouteFault {
        RouteFault::Memory
    }
}
