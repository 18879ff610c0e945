//! The links of a port that no worker has.
ghost use Rattle.std.specs.Prelude.{◌≡◌};

use crate::limits::Limits;
use crate::link::{TcpReader, TcpWriter};
use am_network::Progress;
use std::alloc::{AllocError, Global};
use std::mem::replace;
use std::time::{Duration, Instant};

/// How many milliseconds lie between two rounds, which look for links whose time is over.
const ROUND_MILLIS: u64 = 500;

/// How many milliseconds a port waits before it accepts again, if the system lacks a place or memory for a connection.
const PAUSE_MILLIS: u64 = 50;

/// How many milliseconds a link has waited for its request, at least, that is ended for the place of another one.
const PATIENCE_MILLIS: u64 = 1_000;

/// A connection, and how far it is.
#[derive(Drop)]
pub(crate) struct Link<R> {
    pub(crate) reader: TcpReader<R>,
    pub(crate) writer: TcpWriter<R>,
    pub(crate) progress: Progress,
    /// Whether it was never handed out.
    pub(crate) is_new: bool,
    /// Whether the peer was told the end.
    pub(crate) is_leaving: bool,
    /// Whether it was reported while none could look at it.
    pub(crate) is_reported: bool,
    /// It waits since that moment, and for so long.
    since: Instant,
    limit: Duration,
}

impl<R> Link<R> {
    /// A link of which no request was answered yet. It waits from now on, for so long.
    pub(crate) fn new(
        reader: TcpReader<R>,
        writer: TcpWriter<R>,
        since: Instant,
        limit: Duration,
    ) -> Link<R>
        ensures { (result.reader ≡ reader) × (result.writer ≡ writer) }
    {
        Link {
            reader,
            writer,
            progress: Progress {
                answered: 0,
                least: 0,
            },
            is_new: false,
            is_leaving: false,
            is_reported: false,
            since,
            limit,
        }
    }

    /// The link's place in the table: the number of its descriptor.
    pub(crate) fn key(&self) -> usize {
        usize::try_from(self.reader.descriptor()).unwrap_or(usize::MAX)
    }

    /// Lets it wait for the rest of the request that is coming, if one is.
    pub(crate) fn hurry(&mut self, limits: &Limits) {
        if let Some(since) = self.reader.since() {
            self.since = since;
            self.limit = limits.request;
        }
    }

    /// Whether its time is over.
    pub(crate) fn is_over(&self, now: Instant) -> bool {
        now.saturating_duration_since(self.since) >= self.limit
    }

    // How long it waits, if it may be ended for the place of another one. One that waits for no request comes before
    // all that do.
    fn rank(&self, now: Instant) -> Option<(bool, Duration)> {
        let waited = now.saturating_duration_since(self.since);
        let is_idle = self.reader.since().is_none();
        let is_patient = is_idle || waited >= Duration::from_millis(PATIENCE_MILLIS);
        if is_patient && !self.is_leaving && !self.is_reported {
            Some((is_idle, waited))
        } else {
            None
        }
    }
}

/// What is at a place of the table.
#[derive(Drop)]
enum Place<R> {
    Free,
    /// A worker has the link. It may have been reported meanwhile.
    Out(bool),
    Kept(Link<R>),
}

impl<R> Place<R> {
    // The link that waits there.
    fn kept(&self) -> Option<&Link<R>> {
        match self {
            Place::Kept(link) => Some(link),
            Place::Free | Place::Out(_) => None,
        }
    }

    fn is_due(&self, now: Instant) -> bool {
        self.kept()
            .is_some_and(|link| link.is_reported || link.is_over(now))
    }

    fn is_new(&self) -> bool {
        self.kept().is_some_and(|link| link.is_new)
    }

    fn is_leaving(&self) -> bool {
        self.kept().is_some_and(|link| link.is_leaving)
    }

    fn rank(&self, now: Instant) -> Option<(bool, Duration)> {
        self.kept()?.rank(now)
    }
}

/// What a worker that needs a link does next.
#[derive(Drop)]
pub(crate) enum Turn<R> {
    /// It looks at this link.
    Look(Link<R>),
    /// It accepts connections again.
    Accept,
    /// It waits for so many milliseconds.
    Wait(u64),
}

/// The links of a port, each at the place of its descriptor's number.
#[derive(Drop)]
pub(crate) struct Table<R> {
    places: Vec<Place<R>>,
    // Where the round goes on, and when it began.
    at: usize,
    began: Option<Instant>,
    // Since when the port lacks a place for a connection.
    lacks: Option<Instant>,
    // How many links were handed out and have not ended.
    in_course: u64,
}

impl<R> Table<R> {
    /// No links.
    pub(crate) fn new(alloc: Global) -> Table<R> {
        Table {
            places: Vec::new(alloc),
            at: 0,
            began: None,
            lacks: None,
            in_course: 0,
        }
    }
}

impl<R: Drop> Table<R> {
    /// Whether the peer of a link is waited for that was told the end.
    pub(crate) fn has_leaving(&self) -> bool {
        self.places.iter().any(|place| place.is_leaving())
    }

    /// Whether a link that was handed out has not ended.
    pub(crate) fn has_any_in_course(&self) -> bool {
        self.in_course > 0
    }

    /// Counts a link that is handed out for the first time.
    pub(crate) fn count_new(&mut self) {
        self.in_course = self.in_course.saturating_add(1);
    }

    /// Counts a link that was handed out and ends.
    pub(crate) fn count_end(&mut self) {
        self.in_course = self.in_course.saturating_sub(1);
    }

    /// Lets the port accept again in a moment.
    pub(crate) fn lack(&mut self, now: Instant) {
        self.lacks = Some(now);
    }

    // Whether the port is to accept again.
    fn accepts_again(&mut self, now: Instant) -> bool {
        let Some(since) = self.lacks else {
            return false;
        };
        if now.saturating_duration_since(since) < Duration::from_millis(PAUSE_MILLIS) {
            return false;
        }
        self.lacks = None;
        true
    }

    // Whether a round goes on, or begins.
    fn has_round(&mut self, now: Instant) -> bool {
        if self.at < self.places.len() {
            return true;
        }
        if let Some(began) = self.began {
            if now.saturating_duration_since(began) < Duration::from_millis(ROUND_MILLIS) {
                return false;
            }
        }
        self.began = Some(now);
        self.at = 0;
        true
    }

    // The place of the next link of the round that is due.
    fn due_place(&self, now: Instant) -> Option<usize> {
        for at in self.at..self.places.len() {
            if self.places[at].is_due(now) {
                return Some(at);
            }
        }
        None
    }

    // The place of the first link that is due and not new.
    fn due_again(&self, now: Instant) -> Option<usize> {
        for at in 0..self.places.len() {
            if self.places[at].is_due(now) && !self.places[at].is_new() {
                return Some(at);
            }
        }
        None
    }

    // The place of the link that waits longest.
    fn longest_place(&self, now: Instant) -> Option<usize> {
        let mut longest = None;
        let mut found = None;
        for at in 0..self.places.len() {
            let rank = self.places[at].rank(now);
            if rank > longest {
                longest = rank;
                found = Some(at);
            }
        }
        found
    }

    // Takes the next link of the round out that is due. Outside of the rounds, which are for all links, it takes the first
    // one that isn't new.
    fn take_due(&mut self, now: Instant, takes_new: bool) -> Option<Link<R>> {
        if !takes_new {
            let due = self.due_again(now)?;
            return self.take(due);
        }
        if !self.has_round(now) {
            return None;
        }
        let due = self.due_place(now);
        self.at = due.map_or(self.places.len(), |at| at.saturating_add(1));
        self.take(due?)
    }

    /// What a worker does next that needs a link, which may be a new one or not.
    pub(crate) fn turn(&mut self, now: Instant, takes_new: bool) -> Turn<R> {
        if let Some(link) = self.take_due(now, takes_new) {
            return Turn::Look(link);
        }
        if self.accepts_again(now) {
            return Turn::Accept;
        }
        Turn::Wait(if self.lacks.is_some() {
            PAUSE_MILLIS
        } else {
            ROUND_MILLIS
        })
    }

    /// Takes the link out that waits longest, for the place of another one.
    pub(crate) fn take_longest(&mut self, now: Instant) -> Option<Link<R>> {
        let at = self.longest_place(now)?;
        self.take(at)
    }

    /// Makes the place of a new link, which a worker has.
    pub(crate) fn admit(&mut self, key: usize) -> Result<(), AllocError> {
        for _ in self.places.len()..key.saturating_add(1) {
            self.places.push(Place::Free)?;
        }
        if let Some(place) = self.places.get_mut(key) {
            *place = Place::Out(false);
        }
        Ok(())
    }

    /// Takes a link out that was reported. If a worker has it, that is noted.
    pub(crate) fn take(&mut self, key: usize) -> Option<Link<R>> {
        let place = self.places.get_mut(key)?;
        match replace(place, Place::Out(true)) {
            Place::Kept(link) => {
                *place = Place::Out(false);
                Some(link)
            }
            Place::Out(_) => None,
            Place::Free => {
                *place = Place::Free;
                None
            }
        }
    }

    /// Keeps a link that a worker had, and answers whether it was reported meanwhile.
    pub(crate) fn keep(&mut self, link: Link<R>) -> bool {
        match self.places.get_mut(link.key()) {
            Some(place) => match replace(place, Place::Kept(link)) {
                Place::Out(is_reported) => is_reported,
                _ => false,
            },
            None => false,
        }
    }

    /// Frees the place of a link, which ends if it is kept there.
    pub(crate) fn free(&mut self, key: usize) {
        if let Some(place) = self.places.get_mut(key) {
            *place = Place::Free;
        }
    }
}
