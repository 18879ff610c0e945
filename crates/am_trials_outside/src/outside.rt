//! Sources, sinks, files and clocks in memory.

use am_outside::{
    Clock, Failed, FileBytes, FileFail, Files, MemoryFiles, MemorySink, MemorySource, Sink, Source,
    StepClock,
};
use am_types::{List, NoMemory, Text};
use std::alloc::Global;
use std::test::Fail;

fn bytes(alloc: Global, of: &[u8]) -> Result<List<u8>, NoMemory> {
    Ok(List::new(of.to_vec(alloc)?))
}

#[test]
fn reads_in_pieces(rt: HostRuntime) -> Result<(), Fail> {
    let alloc = rt.alloc();
    let failing = List::new(vec![in alloc; 2]?);
    let mut source = MemorySource::new(bytes(alloc, b"abcd")?, 3, failing);
    let mut into = [0u8; 8];
    assert_eq!(rt; source.read(&mut into), Ok(3));
    assert!(rt; into.starts_with(b"abc"));
    assert_eq!(rt; source.read(&mut into), Err(Failed));
    assert_eq!(rt; source.read(&mut into), Ok(1));
    assert!(rt; into.starts_with(b"d"));
    assert_eq!(rt; source.read(&mut into), Ok(0));
    Ok(())
}

#[test]
fn writes_into_its_room(rt: HostRuntime) -> Result<(), Fail> {
    let alloc = rt.alloc();
    let failing = List::new(vec![in alloc; 3]?);
    let mut sink = MemorySink::new(alloc, 3, 2, failing)?;
    assert_eq!(rt; sink.write(b"abcd"), Ok(2));
    assert_eq!(rt; sink.write(b"cd"), Ok(1));
    assert_eq!(rt; sink.write(b""), Err(Failed));
    assert_eq!(rt; sink.write(b"d"), Err(Failed));
    assert_eq!(rt; sink.write(b""), Ok(0));
    assert_eq!(rt; sink.taken(), b"abc".as_slice());
    Ok(())
}

#[test]
fn reads_files_by_name(rt: HostRuntime) -> Result<(), Fail> {
    let alloc = rt.alloc();
    let file = FileBytes {
        name: Text::of(alloc, "a")?,
        bytes: bytes(alloc, b"xy")?,
    };
    let failing = List::new(vec![in alloc; 1, 3]?);
    let mut files = MemoryFiles::new(alloc, List::new(vec![in alloc; file]?), failing);
    assert_eq!(rt;
        files.read_file(&Text::of(alloc, "b")?),
        Err(FileFail::Absent)
    );
    let read = files.read_file(&Text::of(alloc, "a")?);
    assert!(rt; read.is_ok_and(|bytes| bytes.as_slice() == b"xy".as_slice()));
    assert_eq!(rt;
        files.read_file(&Text::of(alloc, "a")?),
        Err(FileFail::Failed)
    );
    Ok(())
}

#[test]
fn steps_up_to_the_last_moment(rt: HostRuntime) {
    let mut clock = StepClock::new(5, 1);
    assert_eq!(rt; clock.now(), 5);
    assert_eq!(rt; clock.another().now(), 6);
    assert_eq!(rt; clock.now(), 6);
    let mut clock = StepClock::new(u64::MAX - 1, 2);
    assert_eq!(rt; clock.now(), u64::MAX - 1);
    assert_eq!(rt; clock.now(), u64::MAX - 1);
}
