//! A network in memory of gates that park links.
ghost use Rattle.std.specs.Prelude.{◌≡◌, IfOk, length};
ghost use Rattle.am_trials_network.specs.Gates.{AreNew, IsNew};

use crate::resting_gate::RestingGate;
use am_network::{ListenFail, Network};
use am_types::List;
use std::alloc::{AllocError, Global};
use std::collections::VecDeque;

/// A network in memory that never fails. It answers the gates that it was given, in their order, and then closed ones. It
/// doesn't tell what it was asked for.
#[derive(Drop)]
pub struct RestingNetwork {
    alloc: Global,
    coming: VecDeque<RestingGate>,
    released: Vec<RestingGate>,
    listens: u64,
    gate_faults: u64,
    ghost new: { AreNew coming.items },
}

// The next gate, or a closed one if there is none.
fn next_gate(alloc: Global, coming: &mut VecDeque<RestingGate>) -> Result<RestingGate, AllocError>
    requires { AreNew coming.old.items }
    ensures gate { IfOk result IsNew }
    ensures others { AreNew coming.new.items }
{
    match coming.pop_front() {
        Some(gate) => Ok(gate),
        None => RestingGate::new(
            alloc,
            List::new(Vec::new(alloc)),
            List::new(Vec::new(alloc)),
        ),
    }
}

// So many gates, the next ones.
fn next_gates(
    alloc: Global,
    coming: &mut VecDeque<RestingGate>,
    gates: u32,
) -> Result<Vec<RestingGate>, AllocError>
    requires { AreNew coming.old.items }
    ensures count { IfOk result (λ made. length made.items ≡ gates) }
    ensures made { IfOk result (λ made. AreNew made.items) }
    ensures others { AreNew coming.new.items }
{
    let mut made = Vec::with_capacity(alloc, gates as usize)?;
    for _number in 0..gates {
        made.push(next_gate(alloc, coming)?)?;
    }
    Ok(made)
}

impl RestingNetwork {
    /// A network of these gates, which are new. Takes no memory.
    pub fn new(alloc: Global, gates: Vec<RestingGate>) -> RestingNetwork
        requires { AreNew gates.items }
    {
        RestingNetwork {
            alloc,
            coming: VecDeque::from_vec(gates),
            released: Vec::new(alloc),
            listens: 0,
            gate_faults: 0,
        }
    }

    /// The gates that were released, in their order, except those for which memory ran out. Takes no memory.
    pub fn released(&self) -> &[RestingGate]
        ensures { result.now ≡ self.now.released.items }
    {
        self.released.as_slice()
    }
}

impl Network for RestingNetwork {
    type Gate = RestingGate;

    ghost listens = { λ n. n.listens };

    ghost faults = { λ n. 0 };

    ghost gate_faults = { λ n. n.gate_faults };

    fn listen(&mut self, _port: u16, gates: u32) -> Result<Vec<RestingGate>, ListenFail> {
        self.listens = self.listens.saturating_add(1);
        Ok(next_gates(self.alloc, &mut self.coming, gates)?)
    }

    fn release(&mut self, gate: RestingGate) {
        self.gate_faults = self.gate_faults.saturating_add(gate.faults());
        drop(self.released.push(gate));
    }
}
