//! What the program takes from the system: readers, writers and the clock.
use am_host::{Counted, SystemClock};
use am_outside::{Clock, Failed, Sink, Source};
use std::io::{self, ErrorKind, Read};
use std::rt::Clock as Time;
use std::thread;
use std::time::Duration;

/// A reader that a signal interrupts, that then gives a byte, and then fails.
#[derive(Drop)]
struct Flaky {
    reads: u8,
}

impl Read for Flaky {
    fn read(&mut self, buf: &mut [u8]) -> io::Result<usize> {
        self.reads = self.reads.saturating_add(1);
        match buf {
            [first, ..] if self.reads == 2 => {
                *first = b'x';
                Ok(1)
            }
            _ if self.reads == 1 => Err(io::Error::from(ErrorKind::Interrupted)),
            _ => Err(io::Error::from(ErrorKind::BrokenPipe)),
        }
    }
}

#[test]
fn reads_again(rt: HostRuntime) {
    let mut source = Counted::new(Flaky { reads: 0 });
    let mut into = [0u8; 4];
    assert_eq!(rt; source.read(&mut into), Ok(1));
    assert_eq!(rt; into[0], b'x');
    assert_eq!(rt; source.read(&mut into), Err(Failed));
}

#[test]
fn writes_some(rt: HostRuntime) {
    let mut sink = Counted::new(Vec::new(rt.alloc()));
    assert_eq!(rt; sink.write(b"abc"), Ok(3));
    assert_eq!(rt; sink.write(b""), Ok(0));
    let mut full = Counted::new(io::empty());
    assert_eq!(rt; full.write(b"abc"), Ok(3));
}

#[test]
fn reads_the_clock(rt: HostRuntime) {
    let mut clock = SystemClock::new(rt);
    assert!(rt; 1_700_000_000_000 < clock.another().now());
    assert!(rt; clock.now() <= clock.now());
}

/// The milliseconds since 1970, by the runtime.
fn milliseconds(rt: &HostRuntime) -> u64 {
    match rt.since_1970() {
        Ok(time) => {
            let seconds = time.as_secs().saturating_mul(1000);
            seconds.saturating_add(u64::from(time.subsec_millis()))
        }
        Err(_) => 0,
    }
}

/// A clock that tells whole seconds would be behind the runtime's in some round, even on a slow machine.
#[test]
fn tells_milliseconds(rt: HostRuntime) {
    let mut clock = SystemClock::new(rt);
    for _ in 0..4 {
        let before = milliseconds(&rt);
        let now = clock.now();
        assert!(rt; before <= now && now <= milliseconds(&rt));
        thread::sleep(&rt, Duration::from_millis(7));
    }
}
