//! The network of the machine.
ghost use Rattle.std.specs.Prelude.{◌≡◌, ◌≤◌, [], All, IfOk, IsTrue, length, vec_capacity};
ghost use Rattle.am_tcp.specs.Places.{IsLocal};

use crate::gate::TcpGate;
use crate::limits::Limits;
use crate::port::Port;
use am_network::{ListenFail, Network};
use mio::Poll;
use mio::net::TcpListener as Listener;
use std::alloc::{AllocError, Global};
use std::io;
use std::io::ErrorKind;
use std::marker::Copy;
use std::net::{IpAddr, Ipv4Addr, Net, SocketAddr, TcpListener};
use std::rt::Clock as Time;
use std::sync::{Arc, Wait};

/// The ports of this machine, at 127.0.0.1 alone.
#[derive(Drop)]
pub struct TcpNetwork<R> {
    rt: R,
    alloc: Global,
    limits: Limits,
    local_addr: Option<SocketAddr>,
    listens: u64,
    faults: u64,
    gate_faults: u64,
}

impl<R> TcpNetwork<R> {
    /// The ports that the runtime reaches, with the usual limits for the peers of their connections.
    pub fn new(rt: R, alloc: Global) -> TcpNetwork<R> {
        TcpNetwork::with_limits(rt, alloc, Limits::usual())
    }

    /// The ports that the runtime reaches, with these limits.
    pub fn with_limits(rt: R, alloc: Global, limits: Limits) -> TcpNetwork<R> {
        TcpNetwork {
            rt,
            alloc,
            limits,
            local_addr: None,
            listens: 0,
            faults: 0,
            gate_faults: 0,
        }
    }

    /// Where it listens, or listened last, as the system says: the port is the one that was asked for, or the free one
    /// that the system chose where that was 0. `None` before it listened.
    pub fn local_addr(&self) -> Option<SocketAddr> {
        self.local_addr
    }
}

// Whether it is the address 127.0.0.1 with that port, or with any port if that is 0.
fn is_local(address: &SocketAddr, port: u16) -> bool
    ensures { IsTrue result → IsLocal port address.now }
{
    match address.ip() {
        IpAddr::V4(ip) => ip == Ipv4Addr::LOCALHOST && (port == 0 || address.port() == port),
        IpAddr::V6(_) => false,
    }
}

// Binds a port, at which as many connections may wait as the system allows, and asks the system at which address it
// listens, which has to be this one.
fn bind<R: Net>(rt: &R, port: u16) -> io::Result<(TcpListener, SocketAddr)>
    ensures { IfOk result (λ bound. IsLocal port bound.1) }
{
    let listener = Listener::bind(rt, SocketAddr::from((Ipv4Addr::LOCALHOST, port)))?;
    let address = listener.local_addr()?;
    if !is_local(&address, port) {
        return Err(io::Error::from(ErrorKind::AddrNotAvailable));
    }
    Ok((TcpListener::from(listener), address))
}

// A port that is listened at, with its address.
fn open_port<R: Net + Time + Wait + Copy + Drop>(
    network: &TcpNetwork<R>,
    port: u16,
) -> io::Result<(Port<R>, SocketAddr)> {
    let (listener, address) = bind(&network.rt, port)?;
    let poll = Poll::new(&network.rt)?;
    let port = Port::new(network.alloc, network.limits, listener, poll)?;
    Ok((port, address))
}

// Fills a vector with gates at one port, that many in all.
fn open_gates<R: Time + Wait + Copy + Drop>(
    network: &TcpNetwork<R>,
    port: &Arc<Port<R>>,
    gates: u32,
    mut made: Vec<TcpGate<R>>,
) -> Result<Vec<TcpGate<R>>, AllocError>
    requires empty { made.items ≡ [] }
    requires room { gates ≤ vec_capacity made }
    ensures count { IfOk result (λ made. length made.items ≡ gates) }
    ensures new { IfOk result (λ made. All (λ gate. gate.faults ≡ 0) made.items) }
{
    for _number in 0..gates {
        made.push_reserved(TcpGate::new(network.rt, Arc::try_clone(port)?));
    }
    Ok(made)
}

impl<R: Net + Time + Wait + Copy + Drop + Send> Network for TcpNetwork<R> {
    type Gate = TcpGate<R>;

    ghost listens = { λ n. n.listens };

    ghost faults = { λ n. n.faults };

    ghost gate_faults = { λ n. n.gate_faults };

    fn listen(&mut self, port: u16, gates: u32) -> Result<Vec<TcpGate<R>>, ListenFail> {
        self.listens = self.listens.saturating_add(1);
        let room = Vec::with_capacity(self.alloc, gates as usize)?;
        match open_port(self, port) {
            Ok((port, address)) => {
                let port = Arc::new(self.alloc, port)?;
                let made = open_gates(self, &port, gates, room)?;
                self.local_addr = Some(address);
                Ok(made)
            }
            Err(_) => {
                self.faults = self.faults.saturating_add(1);
                Err(ListenFail::Failed)
            }
        }
    }

    fn release(&mut self, gate: TcpGate<R>) {
        gate.finish_all();
        self.gate_faults = self.gate_faults.saturating_add(gate.faults());
    }
}
