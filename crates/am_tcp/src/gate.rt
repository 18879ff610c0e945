//! A gate at a port.
ghost use Rattle.std.specs.Prelude.{◌≡◌, ◌≤◌, None};
ghost use Rattle.am_outside.specs.Memory.{one_more};

use crate::link::{TcpReader, TcpWriter};
use crate::port::Port;
use crate::table::Link;
use am_network::{Acceptor, Progress};
use am_outside::Failed;
use std::marker::Copy;
use std::rt::Clock as Time;
use std::sync::{Arc, Wait};

/// A gate at a port, at which connections arrive. All gates of one `listen` share the port, its connections and three
/// descriptors. A link arrives again at one of them that waits, whichever had it before, with the progress that it was
/// parked with. It is never closed.
///
/// A parked link is handed out again once its next request is there whole. One is handed out too if a server answers
/// without more of it, if the peer has ended it, and when its time is over: then a read tells the end, or fails within
/// a request. If descriptors run short, the parked link that waits longest is ended for the next one.
#[derive(Drop)]
pub struct TcpGate<R> {
    rt: R,
    port: Arc<Port<R>>,
    faults: u64,
}

impl<R: Time + Wait + Copy + Drop> TcpGate<R> {
    // A gate at the port.
    pub(crate) fn new(rt: R, port: Arc<Port<R>>) -> TcpGate<R>
        ensures { result.faults ≡ 0 }
    {
        TcpGate {
            rt,
            port,
            faults: 0,
        }
    }

    // How many calls for a link failed, and how many links weren't parked that were to be.
    pub(crate) fn faults(&self) -> u64
        ensures { result ≡ self.now.faults }
    {
        self.faults
    }

    // Counts a call that failed, or a link that isn't parked.
    fn failed(&mut self) -> Failed
        ensures counted { self.new.faults ≡ one_more self.old.faults }
        ensures never_falls { self.old.faults ≤ self.new.faults }
    {
        self.faults = self.faults.saturating_add(1);
        Failed
    }

    // Waits for the peers that were told the end.
    pub(crate) fn finish_all(&self) {
        // Where no time can be told, they have none.
        let _ = self.port.finish_all(self.rt);
    }
}

impl<R: Time + Wait + Copy + Drop + Send> Acceptor for TcpGate<R> {
    ghost use Rattle.std.specs.Prelude.{None};

    type Reader = TcpReader<R>;

    type Writer = TcpWriter<R>;

    ghost links = { λ g. None };

    ghost faults = { λ g. g.faults };

    fn accept(&mut self) -> Result<Option<(TcpReader<R>, TcpWriter<R>)>, Failed> {
        match self.port.next_new(self.rt) {
            Ok(Link { reader, writer, .. }) => Ok(Some((reader, writer))),
            Err(_) => Err(self.failed()),
        }
    }

    fn finish(&mut self, reader: TcpReader<R>, writer: TcpWriter<R>) {
        self.port.finish(self.rt, reader, writer);
    }

    fn next_link(
        &mut self,
        takes_new: bool,
    ) -> Result<Option<(TcpReader<R>, TcpWriter<R>, Option<Progress>)>, Failed> {
        match self.port.next(self.rt, takes_new) {
            Ok(None) => Ok(None),
            Ok(Some(link)) => {
                let before = if link.is_new {
                    None
                } else {
                    Some(link.progress)
                };
                Ok(Some((link.reader, link.writer, before)))
            }
            Err(_) => Err(self.failed()),
        }
    }

    fn park(&mut self, reader: TcpReader<R>, writer: TcpWriter<R>, progress: Progress) -> bool {
        let is_parked = self.port.park(self.rt, reader, writer, progress);
        if !is_parked {
            let _ = self.failed();
        }
        is_parked
    }
}
