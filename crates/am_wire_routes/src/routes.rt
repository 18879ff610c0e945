ghost use Rattle.std.specs.Prelude.{◌≡◌, ◌==◌, IfOk};
ghost use Rattle.std.specs.List.{position};
ghost use Rattle.matchit.specs.Order.{placed};
ghost use Rattle.am_wire_routes.specs.Table.{endpoint_at, endpoint_of, path_in, path_of, question_mark};
ghost use Rattle.am_wire_routes.specs.Routers.{Lacks, route_of};

use crate::Endpoint;
use matchit::{InsertError, Router};
use std::alloc::{AllocError, Global};
use std::marker::Model;
use std::str;

/// Why a method and a target ask for no request.
#[derive(Clone, Copy, Debug, PartialEq, Eq)]
pub enum RouteFault {
    /// No request has the path.
    NoRoute,
    /// This request has the path, but another method.
    NoMethod(Endpoint),
}

/// The routes of every request. For contracts any two values are equal.
#[derive(Drop)]
pub struct Routes {
    router: Router<Endpoint>,
}

impl Model for Routes {
    ghost use Rattle.am_wire_routes.specs.Routers.{AnswersTable};

    ghost Value = { Unit {0} };

    ghost view = { λ _. tt };

    ghost invariant = { λ routes. AnswersTable routes.router };
}

impl Routes {
    /// The routes of every request. Fails only if memory runs out.
    pub fn new(alloc: Global) -> Result<Routes, AllocError> {
        let mut router = Router::new(alloc);
        for endpoint in Endpoint::ALL {
            add(&mut router, endpoint)?;
        }
        Ok(Routes { router })
    }

    /// The request that a method and a request target ask for: the target's bytes before its first `?` are the
    /// path, compared as they are. Takes no memory.
    ///
    /// # Errors
    ///
    /// `NoRoute` if no request has the path, and `NoMethod` if the request that has it has another method.
    pub fn route(&self, method: &[u8], target: &[u8]) -> Result<Endpoint, RouteFault>
        ensures { result ≡ endpoint_of method.now target.now }
    {
        let endpoint = self.at(path_in(target)).ok_or(RouteFault::NoRoute)?;
        if method == endpoint.method().as_str().as_bytes() {
            Ok(endpoint)
        } else {
            Err(RouteFault::NoMethod(endpoint))
        }
    }

    // The request that has the path, which need not be UTF-8.
    #[tactic(auto, using(crate::proofs::Paths::none_unless_text))]
    fn at(&self, path: &[u8]) -> Option<Endpoint>
        ensures { result ≡ endpoint_at path.now }
    {
        let Ok(path) = str::from_utf8(path) else {
            return None;
        };
        let found = self.router.at(path).ok()?;
        Some(*found.value)
    }
}

// The part of a target before its query.
fn path_in(target: &[u8]) -> &[u8]
    ensures { result.now ≡ path_in target.now }
{
    match query_at(target) {
        Some(query) => &target[..query],
        None => target,
    }
}

// The position of the first question mark of a target.
fn query_at(target: &[u8]) -> Option<usize>
    ensures { result ≡ position (λ b. b == question_mark) target.now }
{
    target.iter().position(|byte| *byte == b'?')
}

// Adds the route of a request.
fn add(router: &mut Router<Endpoint>, endpoint: Endpoint) -> Result<(), AllocError>
    requires { Lacks endpoint router.old }
    ensures { IfOk result (λ _. router.new ≡ placed (path_of endpoint, route_of endpoint) router.old) }
{
    match router.insert(endpoint.path(), endpoint) {
        Ok(()) => Ok(()),
        Err(error) => Err(out_of_memory(error)),
    }
}

// The only reason for which a new literal route is refused.
fn out_of_memory(error: InsertError) -> AllocError
    requires { error ≡ InsertError.OutOfMemory }
{
    match error {
        InsertError::OutOfMemory => AllocError,
        _ => unreachable!(),
    }
}
