//! The network of a real machine: TCP on 127.0.0.1, behind the traits that a server's workers take. These lines are
//! trusted: they count each fault, and tell nothing of what is read or written. A peer that takes too long for a
//! request or a response is a fault of its own connection, which ends then, and nothing else does.
//!
//! Connections that rest, or whose next request isn't there whole, wait here, and hold no worker.
#![tactic(auto)]

mod faults;
mod gate;
mod incoming;
mod limits;
mod link;
mod network;
mod outgoing;
mod port;
mod table;

pub use gate::TcpGate;
pub use limits::Limits;
pub use link::{Responses, TcpReader, TcpWriter};
pub use network::TcpNetwork;
