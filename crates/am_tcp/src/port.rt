//! A port, with its connections.
ghost use Rattle.std.specs.Prelude.{◌≡◌, false, IfOk, IfSome};
ghost use Rattle.am_tcp.specs.Places.{IsLocal};

use crate::faults::{is_of_peer, is_shortage};
use crate::limits::Limits;
use crate::link::{TcpReader, TcpWriter, open};
use crate::table::{Link, Table, Turn};
use am_network::Progress;
use mio::unix::SourceFd;
use mio::{Interest, Poll, Token};
use os::EpollEvent;
use std::alloc::Global;
use std::io::{self, ErrorKind};
use std::marker::Copy;
use std::net::{TcpListener, TcpStream};
use std::os::fd::{AsRawFd, RawFd};
use std::rt::Clock as Time;
use std::sync::{Mutex, Wait};
use std::time::Instant;

/// How many connections a worker accepts one after the other.
const MOST_ACCEPTED: u32 = 64;

/// What the system reports if bytes came, and nothing else, which is its EPOLLIN.
const BYTES_CAME: u32 = 1;

/// A port, at which connections arrive, with those that no worker has. All its workers wait side by side for what the
/// system reports, so that each report wakes one of them: that a request came over a connection, or the listener has a
/// new one.
#[derive(Drop)]
pub(crate) struct Port<R> {
    alloc: Global,
    limits: Limits,
    listener: TcpListener,
    poll: Poll,
    table: Mutex<Table<R>>,
}

// The number by which the system reports a descriptor.
fn key_of(descriptor: RawFd) -> usize {
    usize::try_from(descriptor).unwrap_or(usize::MAX)
}

// Has the system report a descriptor when something comes over it.
fn watch(poll: &Poll, descriptor: RawFd) -> io::Result<()> {
    let token = Token(key_of(descriptor));
    poll.registry()
        .register(&mut SourceFd(&descriptor), token, Interest::READABLE)
}

// Has it report the descriptor again, if something is there.
fn watch_again(poll: &Poll, descriptor: RawFd) -> io::Result<()> {
    let token = Token(key_of(descriptor));
    poll.registry()
        .reregister(&mut SourceFd(&descriptor), token, Interest::READABLE)
}

// Of which descriptor the system reports next, if it does so in time, and whether it reports more than that bytes came:
// the peer's end, or a fault. Unlike `Poll::poll`, many may wait so at once.
fn next_report(poll: &Poll, millis: u64) -> Option<(usize, bool)> {
    let mut events = [EpollEvent { events: 0, data: 0 }];
    let millis = i32::try_from(millis).unwrap_or(i32::MAX);
    if os::epoll_wait(poll.as_raw_fd(), &mut events, millis) == 0 {
        return None;
    }
    let key = usize::try_from(events[0].data).ok()?;
    Some((key, events[0].events != BYTES_CAME))
}

impl<R: Time + Wait + Copy + Drop> Port<R> {
    /// A port, whose listener doesn't wait.
    pub(crate) fn new(
        alloc: Global,
        limits: Limits,
        listener: TcpListener,
        poll: Poll,
    ) -> io::Result<Port<R>> {
        watch(&poll, listener.as_raw_fd())?;
        Ok(Port {
            alloc,
            limits,
            listener,
            poll,
            table: Mutex::new(Table::new(alloc)),
        })
    }

    // A link of a connection that was accepted, which has its place.
    fn admit(&self, rt: R, stream: TcpStream) -> io::Result<Link<R>>
        ensures { IfOk result (λ link. (link.reader.faults ≡ 0) × (link.writer.faults ≡ 0)) }
    {
        let (reader, writer) = open(rt, self.alloc, &self.limits, stream)?;
        let mut link = Link::new(reader, writer, Instant::now(&rt)?, self.limits.request);
        link.is_new = true;
        self.table.lock(&rt).admit(link.key())?;
        Ok(link)
    }

    // Ends the link that waits longest, and answers whether there was one.
    fn make_place(&self, rt: R) -> io::Result<bool> {
        let now = Instant::now(&rt)?;
        let mut table = self.table.lock(&rt);
        match table.take_longest(now) {
            Some(link) => {
                table.free(link.key());
                if !link.is_new {
                    table.count_end();
                }
                drop(link);
                Ok(true)
            }
            None => {
                table.lack(now);
                Ok(false)
            }
        }
    }

    // Accepts the next connection, if one is there. One that breaks before is left out: it is no fault of the port. A
    // full table of open files is none either: then the link ends that waits longest, or connections wait with the
    // system for a moment.
    fn accept(&self, rt: R) -> io::Result<Option<Link<R>>>
        ensures { IfOk result (λ next. IfSome next (λ link. (link.reader.faults ≡ 0) × (link.writer.faults ≡ 0))) }
    {
        for _ in 0..u64::MAX {
            match self.listener.accept() {
                Ok((stream, _)) => {
                    if let Ok(link) = self.admit(rt, stream) {
                        return Ok(Some(link));
                    }
                }
                Err(error) if error.kind() == ErrorKind::WouldBlock => return Ok(None),
                Err(error) if is_of_peer(&error) => {}
                Err(error) if is_shortage(&error) => {
                    if !self.make_place(rt)? {
                        return Ok(None);
                    }
                }
                Err(error) => return Err(error),
            }
        }
        Ok(None)
    }

    // Accepts the connections that are there, and keeps them until they are reported.
    fn accept_all(&self, rt: R) -> io::Result<()> {
        for _ in 0..MOST_ACCEPTED {
            let Some(link) = self.accept(rt)? else {
                return Ok(());
            };
            let descriptor = link.reader.descriptor();
            self.keep(rt, link);
            if watch(&self.poll, descriptor).is_err() {
                self.free(rt, descriptor);
            }
        }
        watch_again(&self.poll, self.listener.as_raw_fd())
    }

    // Frees the place of a link, which is to end.
    fn free(&self, rt: R, descriptor: RawFd) {
        self.table.lock(&rt).free(key_of(descriptor));
    }

    // Keeps a link. What was reported while a worker had it is reported again.
    fn keep(&self, rt: R, link: Link<R>) {
        let descriptor = link.reader.descriptor();
        let mut table = self.table.lock(&rt);
        if table.keep(link) {
            let _ = watch_again(&self.poll, descriptor);
        }
    }

    // Looks at a link, and hands it out if its request is there or its time is over.
    fn look_at(&self, rt: R, mut link: Link<R>) -> io::Result<Option<Link<R>>> {
        link.is_reported = false;
        if link.is_leaving {
            self.look_at_leaving(rt, link)?;
            return Ok(None);
        }
        if link.reader.is_whole() {
            return Ok(Some(link));
        }
        link.hurry(&self.limits);
        if link.is_over(Instant::now(&rt)?) {
            link.reader.give_up();
            return Ok(Some(link));
        }
        self.keep(rt, link);
        Ok(None)
    }

    // Ends a link whose peer was told the end, unless something may still come.
    fn look_at_leaving(&self, rt: R, link: Link<R>) -> io::Result<()> {
        if link.reader.is_drained() || link.is_over(Instant::now(&rt)?) {
            self.free(rt, link.reader.descriptor());
        } else {
            self.keep(rt, link);
        }
        Ok(())
    }

    // Waits for what comes next, and answers a link that is to be looked at. It looks for one that is due among those alone
    // that aren't new, if new ones aren't taken.
    fn next_seen(&self, rt: R, takes_new: bool) -> io::Result<Option<Link<R>>> {
        let now = Instant::now(&rt)?;
        let turn = self.table.lock(&rt).turn(now, takes_new);
        let millis = match turn {
            Turn::Look(link) => return Ok(Some(link)),
            Turn::Accept => {
                self.accept_all(rt)?;
                return Ok(None);
            }
            Turn::Wait(millis) => millis,
        };
        match next_report(&self.poll, millis) {
            None => Ok(None),
            Some((key, _)) if key == key_of(self.listener.as_raw_fd()) => {
                self.accept_all(rt)?;
                Ok(None)
            }
            Some((key, is_ending)) => {
                let mut next = self.table.lock(&rt).take(key);
                if let Some(link) = &mut next {
                    link.reader.heed(is_ending);
                }
                Ok(next)
            }
        }
    }

    // Leaves a new link to the workers that take one: to one that waits now, or to the next round.
    fn leave_to_others(&self, rt: R, mut link: Link<R>, was_reported: bool) {
        let descriptor = link.reader.descriptor();
        link.is_reported = true;
        self.keep(rt, link);
        if !was_reported {
            let _ = watch_again(&self.poll, descriptor);
        }
    }

    // Waits for what comes next, and hands a link out whose request is there, whose peer ended it or whose time is over.
    fn try_next(&self, rt: R, takes_new: bool) -> io::Result<Option<Link<R>>>
        ensures { IfOk result (λ next. IfSome next (λ link. takes_new ≡ false → link.is_new ≡ false)) }
    {
        let Some(link) = self.next_seen(rt, takes_new)? else {
            return Ok(None);
        };
        let was_reported = link.is_reported;
        match self.look_at(rt, link)? {
            Some(link) if takes_new || !link.is_new => Ok(Some(link)),
            Some(link) => {
                self.leave_to_others(rt, link, was_reported);
                Ok(None)
            }
            None => Ok(None),
        }
    }

    // Whether no link is to come for a worker that takes no new one.
    fn is_done(&self, rt: R) -> bool {
        !self.table.lock(&rt).has_any_in_course()
    }

    /// The next link whose request is there, whose peer ended it or whose time is over. If new ones aren't taken, none
    /// comes once all that were handed out have ended.
    pub(crate) fn next(&self, rt: R, takes_new: bool) -> io::Result<Option<Link<R>>>
        ensures { IfOk result (λ next. IfSome next (λ link. takes_new ≡ false → link.is_new ≡ false)) }
    {
        for _ in rt.forever() {
            if !takes_new && self.is_done(rt) {
                return Ok(None);
            }
            if let Some(link) = self.try_next(rt, takes_new)? {
                if link.is_new {
                    self.table.lock(&rt).count_new();
                }
                return Ok(Some(link));
            }
        }
        unreachable!()
    }

    // Waits for what comes next, for those alone whose peer was told the end. The others are looked at later.
    fn settle(&self, rt: R) -> io::Result<()> {
        match self.next_seen(rt, true)? {
            Some(link) if link.is_leaving => self.look_at_leaving(rt, link),
            Some(mut link) => {
                link.is_reported = true;
                self.keep(rt, link);
                Ok(())
            }
            None => Ok(()),
        }
    }

    /// The next connection that arrives, whatever came over it.
    pub(crate) fn next_new(&self, rt: R) -> io::Result<Link<R>>
        ensures { IfOk result (λ link. (link.reader.faults ≡ 0) × (link.writer.faults ≡ 0)) }
    {
        for _ in rt.forever() {
            match self.accept(rt)? {
                Some(link) => {
                    if watch(&self.poll, link.reader.descriptor()).is_ok() {
                        self.table.lock(&rt).count_new();
                        return Ok(link);
                    }
                    self.free(rt, link.reader.descriptor());
                }
                None => self.settle(rt)?,
            }
        }
        unreachable!()
    }

    /// Keeps a link, which is so far, until its next request is there. Answers whether it does so.
    pub(crate) fn park(
        &self,
        rt: R,
        mut reader: TcpReader<R>,
        writer: TcpWriter<R>,
        progress: Progress,
    ) -> bool {
        let Ok(now) = Instant::now(&rt) else {
            self.table.lock(&rt).count_end();
            self.free(rt, reader.descriptor());
            return false;
        };
        reader.shrink();
        let mut link = Link::new(reader, writer, now, self.limits.idle);
        link.progress = progress;
        link.hurry(&self.limits);
        self.keep(rt, link);
        true
    }

    /// Ends a link. Its peer is told the end first, and has some time to end its own side.
    pub(crate) fn finish(&self, rt: R, mut reader: TcpReader<R>, writer: TcpWriter<R>) {
        self.table.lock(&rt).count_end();
        let is_leaving = reader.leave();
        match Instant::now(&rt) {
            Ok(now) if is_leaving => {
                let mut link = Link::new(reader, writer, now, self.limits.end);
                link.is_leaving = true;
                self.keep(rt, link);
            }
            _ => self.free(rt, reader.descriptor()),
        }
    }

    /// Lets the peers that were told the end have the rest of their time.
    pub(crate) fn finish_all(&self, rt: R) -> io::Result<()> {
        let began = Instant::now(&rt)?;
        for _ in 0..u64::MAX {
            let is_over = began.elapsed(&rt)? >= self.limits.end;
            if is_over || !self.table.lock(&rt).has_leaving() {
                break;
            }
            self.settle(rt)?;
        }
        Ok(())
    }
}
