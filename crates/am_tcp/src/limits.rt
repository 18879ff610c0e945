//! How long a connection's peer may take.
ghost use Rattle.std.specs.Prelude.{◌≡◌, ◌*◌, ◌≤◌, None, IfOk};
ghost use Rattle.std.specs.Duration.{as_nanos};

use std::io;
use std::rt::Clock as Time;
use std::time::{Duration, Instant};

/// How many seconds a peer has for a request.
const REQUEST_SECONDS: u64 = 30;

/// How many seconds it has for a response.
const RESPONSE_SECONDS: u64 = 60;

/// How many seconds it has at the end of its connection.
const END_SECONDS: u64 = 2;

/// How many seconds a connection may rest between a response and the next request.
const IDLE_SECONDS: u64 = 75;

/// How long the peer of a connection may take for each thing as a whole. A limit of 0 leaves it no time.
#[derive(Clone, Copy)]
pub struct Limits {
    /// A request is there whole that long after its first byte, and the first one of a connection that long after the
    /// connection was accepted.
    pub request: Duration,
    /// A response, or those that are sent together, is taken whole that long after the first byte was to be sent.
    pub response: Duration,
    /// What the peer still sends at the connection's end is waited for that long in all.
    pub end: Duration,
    /// Between a response and the next request's first byte the connection rests for that long.
    pub idle: Duration,
}

impl Limits {
    /// The limits of a server: 30 seconds for a request, 60 for a response, 2 at the end, and 75 between requests.
    pub fn usual() -> Limits
        ensures request { as_nanos result.request ≡ 30 * 1000000000 }
        ensures response { as_nanos result.response ≡ 60 * 1000000000 }
        ensures end { as_nanos result.end ≡ 2 * 1000000000 }
        ensures idle { as_nanos result.idle ≡ 75 * 1000000000 }
    {
        Limits {
            request: Duration::from_secs(REQUEST_SECONDS),
            response: Duration::from_secs(RESPONSE_SECONDS),
            end: Duration::from_secs(END_SECONDS),
            idle: Duration::from_secs(IDLE_SECONDS),
        }
    }
}

/// The time that is left of a limit, which runs from a moment on.
#[derive(Clone, Copy)]
pub(crate) struct Term {
    limit: Duration,
    since: Option<Instant>,
}

impl Term {
    /// A limit that doesn't run yet.
    pub(crate) fn new(limit: Duration) -> Term
        ensures { (result.limit ≡ limit) × (result.since ≡ None) }
    {
        Term { limit, since: None }
    }

    /// Lets the limit run from now on, if it doesn't run yet.
    pub(crate) fn begin<R: Time>(&mut self, rt: &R) -> io::Result<()>
        ensures { self.new.limit ≡ self.old.limit }
    {
        if self.since.is_none() {
            self.since = Some(Instant::now(rt)?);
        }
        Ok(())
    }

    /// Lets the whole limit be left again.
    pub(crate) fn stop(&mut self)
        ensures { (self.new.limit ≡ self.old.limit) × (self.new.since ≡ None) }
    {
        self.since = None;
    }

    /// Since when the limit runs, if it does.
    pub(crate) fn since(&self) -> Option<Instant>
        ensures { result ≡ self.now.since }
    {
        self.since
    }

    /// How much is left, which is nothing once the limit has passed.
    pub(crate) fn left<R: Time>(&self, rt: &R) -> io::Result<Duration>
        ensures { IfOk result (λ left. as_nanos left ≤ as_nanos self.now.limit) }
    {
        match self.since {
            Some(since) => Ok(self.limit.saturating_sub(since.elapsed(rt)?)),
            None => Ok(self.limit),
        }
    }
}
