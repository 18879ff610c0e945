//! Which faults of the system pass.
use std::io::{Error, ErrorKind};

// What Linux answers of a connection that broke before it was accepted, the faults of its own network and protocol:
// EPROTO, ENOPROTOOPT, EOPNOTSUPP, ENONET, ENETDOWN, ENETUNREACH, EHOSTDOWN and EHOSTUNREACH.
static OF_PEER: [i32; 8] = [71, 92, 95, 64, 100, 101, 112, 113];

// What it answers where a table of open files is full, ENFILE and EMFILE, and where it lacks memory for a connection,
// ENOBUFS and ENOMEM.
static SHORTAGES: [i32; 4] = [23, 24, 105, 12];

// Whether the system answered one of these numbers.
fn is_one_of(error: &Error, numbers: &[i32]) -> bool {
    match error.raw_os_error() {
        Some(number) => numbers.contains(&number),
        None => false,
    }
}

/// Whether the fault is that of one connection which broke before it was accepted, or of a signal, so that the next
/// connection can be accepted at once.
pub fn is_of_peer(error: &Error) -> bool {
    match error.kind() {
        ErrorKind::Interrupted | ErrorKind::ConnectionAborted => true,
        _ => is_one_of(error, OF_PEER.as_slice()),
    }
}

/// Whether the system lacks a place or memory for one more connection. It may have them again in a moment.
pub fn is_shortage(error: &Error) -> bool {
    is_one_of(error, SHORTAGES.as_slice())
}
