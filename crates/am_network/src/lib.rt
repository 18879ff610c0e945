//! The traits of a network (gates at which links arrive, and where the gates come from), and both in memory.
#![tactic(auto)]

mod memory_gate;
mod memory_link;
mod memory_network;
mod network;
mod progress;
mod resting_reader;

pub use memory_gate::{GatePlan, MemoryGate};
pub use memory_link::{LinkPlan, MemoryLink, MemoryReader, MemoryWriter};
pub use memory_network::MemoryNetwork;
pub use network::{Acceptor, ListenFail, Network};
pub use progress::Progress;
pub use resting_reader::RestingReader;
