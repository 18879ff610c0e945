//! A server's network and its clients, over TCP on 127.0.0.1.
use am_network::{Acceptor, ListenFail, Network, Progress};
use am_outside::{Failed, Sink, Source};
use am_tcp::{Limits, TcpGate, TcpNetwork, TcpReader, TcpWriter};
use std::alloc::Global;
use std::io::{self, ErrorKind, Read, Write};
use std::marker::Copy;
use std::net::{IpAddr, Ipv4Addr, Net, Shutdown, SocketAddr, TcpStream};
use std::os::fd::AsRawFd;
use std::rt::Clock;
use std::sync::Wait;
use std::test::Fail;
use std::thread;
use std::time::{Duration, Instant};

/// The two ends of a connection, as a server has them.
#[derive(Drop)]
struct Link<R> {
    reader: TcpReader<R>,
    writer: TcpWriter<R>,
}

/// A new client of a network.
fn client_of(rt: &HostRuntime, address: Option<SocketAddr>) -> Result<TcpStream, Fail> {
    let address = address.ok_or("an address")?;
    Ok(TcpStream::connect(rt, address)?)
}

/// The next connection that arrives.
fn accepted<R: Clock + Wait + Copy + Drop + Send>(gate: &mut TcpGate<R>) -> Result<Link<R>, Fail> {
    let (reader, writer) = gate.accept()?.ok_or("a link")?;
    Ok(Link { reader, writer })
}

/// What a test has of a server and a peer: the network, which listens, its one gate, and a client.
type Met<R> = (TcpNetwork<R>, TcpGate<R>, TcpStream);

/// The network listens at one gate, and a client sent these bytes to it.
fn met<R: Net + Clock + Wait + Copy + Drop + Send>(
    rt: &HostRuntime,
    mut network: TcpNetwork<R>,
    sent: &[u8],
) -> Result<Met<R>, Fail> {
    let gate = network.listen(0, 1)?.pop().ok_or("a gate")?;
    let mut client = client_of(rt, network.local_addr())?;
    client.write_all(sent)?;
    Ok((network, gate, client))
}

/// The text that comes next, of so many bytes, or as much as comes before the end.
fn received<R: Clock + Wait>(
    alloc: Global,
    reader: &mut TcpReader<R>,
    length: usize,
) -> Result<String, Fail> {
    let mut bytes = Vec::new(alloc);
    for _ in 0..length {
        let mut piece = [0u8; 1];
        if reader.read(&mut piece)? == 0 {
            break;
        }
        bytes.push(piece[0])?;
    }
    Ok(String::from_utf8(bytes)?)
}

/// Writes all bytes, one after the other.
fn send<R: Clock + Wait>(writer: &mut TcpWriter<R>, bytes: &[u8]) -> Result<(), Failed> {
    for byte in bytes {
        writer.write(&[*byte])?;
    }
    Ok(())
}

/// All that still comes to a client.
fn rest(alloc: Global, client: &mut TcpStream) -> io::Result<String> {
    let mut all = String::new(alloc);
    client.read_to_string(&mut all)?;
    Ok(all)
}

#[test]
fn a_client_is_served(rt: HostRuntime) -> Result<(), Fail> {
    let alloc = rt.alloc();
    let mut network = TcpNetwork::new(rt, alloc);
    assert_eq!(rt; network.local_addr(), None);
    let mut gate = network.listen(0, 1)?.pop().ok_or("a gate")?;
    let mut client = client_of(&rt, network.local_addr())?;
    let mut link = accepted(&mut gate)?;
    client.write_all(b"hello")?;
    assert_eq!(rt; received(alloc, &mut link.reader, 5)?.as_str(), "hello");
    send(&mut link.writer, b"world")?;
    client.shutdown(Shutdown::Write)?;
    assert_eq!(rt; received(alloc, &mut link.reader, 5)?.as_str(), "");
    gate.finish(link.reader, link.writer);
    assert_eq!(rt; rest(alloc, &mut client)?.as_str(), "world");
    network.release(gate);
    Ok(())
}

/// Whether a write fails after some time.
fn fails_at_last<R: Clock + Wait>(writer: &mut TcpWriter<R>) -> bool {
    (0u32..1000).any(|_| writer.write(b"x").is_err())
}

#[test]
fn a_peer_closes(rt: HostRuntime) -> Result<(), Fail> {
    let alloc = rt.alloc();
    let (_network, mut gate, client) = met(&rt, TcpNetwork::new(rt, alloc), b"bye")?;
    drop(client);
    let mut link = accepted(&mut gate)?;
    assert_eq!(rt; received(alloc, &mut link.reader, 9)?.as_str(), "bye");
    assert_eq!(rt; link.reader.read(&mut [0u8; 9]), Ok(0));
    assert!(rt; fails_at_last(&mut link.writer));
    gate.finish(link.reader, link.writer);
    Ok(())
}

#[test]
fn a_peer_closes_before_it_read_all(rt: HostRuntime) -> Result<(), Fail> {
    let (_network, mut gate, mut client) = met(&rt, TcpNetwork::new(rt, rt.alloc()), b"")?;
    let mut link = accepted(&mut gate)?;
    assert_eq!(rt; link.writer.write(b"ab"), Ok(2));
    client.read_exact(&mut [0u8; 1])?;
    drop(client);
    assert_eq!(rt; link.reader.read(&mut [0u8; 9]), Err(Failed));
    Ok(())
}

#[test]
fn a_port_is_in_use(rt: HostRuntime) -> Result<(), Fail> {
    let mut network = TcpNetwork::new(rt, rt.alloc());
    let gates = network.listen(0, 2)?;
    assert_eq!(rt; gates.len(), 2);
    let address = network.local_addr().ok_or("an address")?;
    let port = address.port();
    let mut other = TcpNetwork::new(rt, rt.alloc());
    assert!(rt; matches!(other.listen(port, 1), Err(ListenFail::Failed)));
    assert_eq!(rt; other.local_addr(), None);
    drop(gates);
    assert_eq!(rt; other.listen(port, 1)?.len(), 1);
    assert_eq!(rt; other.local_addr(), Some(address));
    Ok(())
}

/// So many clients of a network, each of which sent its number.
fn clients_of(
    rt: &HostRuntime,
    address: Option<SocketAddr>,
    count: u8,
) -> Result<Vec<TcpStream>, Fail> {
    let mut clients = Vec::new(rt.alloc());
    for number in 0..count {
        let mut client = client_of(rt, address)?;
        client.write_all(&[number])?;
        clients.push(client)?;
    }
    Ok(clients)
}

/// Accepts a connection, and sends back what comes first, raised by 100.
fn answered<R: Clock + Wait + Copy + Drop + Send>(gate: &mut TcpGate<R>) -> Result<Link<R>, Fail> {
    let mut link = accepted(gate)?;
    let mut piece = [0u8; 1];
    link.reader.read(&mut piece)?;
    send(&mut link.writer, &[piece[0].wrapping_add(100)])?;
    Ok(link)
}

/// Answers so many connections at each gate, and keeps them.
fn all_answered<R: Clock + Wait + Copy + Drop + Send>(
    alloc: Global,
    gates: &mut [TcpGate<R>],
    count: u32,
) -> Result<Vec<Link<R>>, Fail> {
    let mut links = Vec::new(alloc);
    for gate in gates.iter_mut() {
        for _ in 0..count {
            links.push(answered(gate)?)?;
        }
    }
    Ok(links)
}

/// What the client receives first.
fn answer_to(client: &mut TcpStream) -> io::Result<u8> {
    let mut piece = [0u8; 1];
    client.read_exact(&mut piece)?;
    Ok(piece[0])
}

#[test]
fn clients_are_served_at_once(rt: HostRuntime) -> Result<(), Fail> {
    let mut network = TcpNetwork::new(rt, rt.alloc());
    let mut gates = network.listen(0, 4)?;
    let mut clients = clients_of(&rt, network.local_addr(), 64)?;
    let links = all_answered(rt.alloc(), gates.as_mut_slice(), 16)?;
    assert_eq!(rt; links.len(), 64);
    let mut wanted: u8 = 100;
    for client in clients.iter_mut() {
        assert_eq!(rt; answer_to(client)?, wanted);
        wanted = wanted.wrapping_add(1);
    }
    assert_eq!(rt; wanted, 164);
    Ok(())
}

#[test]
fn no_other_address_is_served(rt: HostRuntime) -> Result<(), Fail> {
    let mut network = TcpNetwork::new(rt, rt.alloc());
    let gates = network.listen(0, 1)?;
    let address = network.local_addr().ok_or("an address")?;
    assert_eq!(rt; address.ip(), IpAddr::V4(Ipv4Addr::LOCALHOST));
    let other = SocketAddr::from((Ipv4Addr::new(127, 0, 0, 2), address.port()));
    match TcpStream::connect(&rt, other) {
        Ok(_) => return Err(Fail::from("another address of this machine was served")),
        Err(error) => assert_eq!(rt; error.kind(), ErrorKind::ConnectionRefused),
    }
    drop(client_of(&rt, Some(address))?);
    drop(gates);
    Ok(())
}

#[test]
fn a_descriptor_is_enough(rt: HostRuntime) -> Result<(), Fail> {
    let mut network = TcpNetwork::new(rt, rt.alloc());
    let mut gates = network.listen(0, 64)?;
    let mut gate = gates.pop().ok_or("a gate")?;
    let client = client_of(&rt, network.local_addr())?;
    let link = accepted(&mut gate)?;
    let next = client_of(&rt, network.local_addr())?;
    // Each descriptor has the least number that is free: the listener's, those of the client and of its link, the next.
    assert_eq!(rt; Some(next.as_raw_fd()), client.as_raw_fd().checked_add(2));
    drop(client);
    gate.finish(link.reader, link.writer);
    // All gates of a port share two: the listener's, and the one over which the system reports.
    let mut other = TcpNetwork::new(rt, rt.alloc());
    let others = other.listen(0, 64)?;
    assert_eq!(rt; others.len(), 64);
    let last = client_of(&rt, network.local_addr())?;
    assert_eq!(rt; Some(last.as_raw_fd()), next.as_raw_fd().checked_add(1));
    Ok(())
}

/// A network whose peers have so many milliseconds for each thing.
fn network_of(rt: HostRuntime, millis: u64) -> TcpNetwork<HostRuntime> {
    let each = Duration::from_millis(millis);
    let limits = Limits {
        request: each,
        response: each,
        end: each,
        idle: each,
    };
    TcpNetwork::with_limits(rt, rt.alloc(), limits)
}

/// Waits for so many milliseconds.
fn wait(rt: &HostRuntime, millis: u64) {
    thread::sleep(rt, Duration::from_millis(millis));
}

#[test]
fn a_request_has_its_time(rt: HostRuntime) -> Result<(), Fail> {
    let (_network, mut gate, _client) = met(&rt, network_of(rt, 1000), b"abc")?;
    let mut link = accepted(&mut gate)?;
    let mut piece = [0u8; 1];
    assert_eq!(rt; link.reader.read(&mut piece), Ok(1));
    // Behind a response the next request has a time of its own.
    assert_eq!(rt; link.writer.write(b"x"), Ok(1));
    wait(&rt, 1100);
    assert_eq!(rt; link.reader.read(&mut piece), Ok(1));
    assert_eq!(rt; link.reader.faults, 0);
    // A byte that is there doesn't prolong it.
    wait(&rt, 1100);
    assert_eq!(rt; link.reader.read(&mut piece), Err(Failed));
    assert_eq!(rt; link.reader.faults, 1);
    Ok(())
}

#[test]
fn a_silent_peer_ends_its_link_alone(rt: HostRuntime) -> Result<(), Fail> {
    let mut network = network_of(rt, 500);
    let mut gate = network.listen(0, 1)?.pop().ok_or("a gate")?;
    let mut silent = client_of(&rt, network.local_addr())?;
    let mut next = client_of(&rt, network.local_addr())?;
    next.write_all(b"a")?;
    let began = Instant::now(&rt)?;
    let mut link = accepted(&mut gate)?;
    assert_eq!(rt; link.reader.read(&mut [0u8; 1]), Err(Failed));
    // The peer doesn't end its side either, for which no one waits here.
    gate.finish(link.reader, link.writer);
    assert!(rt; Duration::from_millis(400) < began.elapsed(&rt)?);
    assert_eq!(rt; silent.read(&mut [0u8; 1])?, 0);
    let mut link = accepted(&mut gate)?;
    assert_eq!(rt; link.reader.read(&mut [0u8; 1]), Ok(1));
    // It has its time when the gate goes.
    network.release(gate);
    assert!(rt; Duration::from_millis(900) < began.elapsed(&rt)?);
    Ok(())
}

/// How far a link is that was handed out for the first time.
const FIRST: Progress = Progress {
    answered: 0,
    least: 0,
};

/// How far one is of which a request was answered.
const SECOND: Progress = Progress {
    answered: 1,
    least: 1,
};

/// The next link of a gate, with its first request and how far it is.
fn asked<R: Clock + Wait + Copy + Drop + Send>(
    alloc: Global,
    gate: &mut TcpGate<R>,
    length: usize,
) -> Result<(Link<R>, String, Progress), Fail> {
    let (mut reader, writer, before) = gate.next_link(true)?.ok_or("a link")?;
    let text = received(alloc, &mut reader, length)?;
    Ok((Link { reader, writer }, text, before.unwrap_or(FIRST)))
}

#[test]
fn a_link_rests(rt: HostRuntime) -> Result<(), Fail> {
    let alloc = rt.alloc();
    let (network, mut gate, mut client) = met(&rt, TcpNetwork::new(rt, alloc), b"")?;
    let mut slow = client_of(&rt, network.local_addr())?;
    slow.write_all(b"GET /s")?;
    client.write_all(b"GET / HTTP/1.1\r\n\r\n")?;
    let (mut link, text, progress) = asked(alloc, &mut gate, 18)?;
    assert_eq!(rt; text.as_str(), "GET / HTTP/1.1\r\n\r\n");
    assert_eq!(rt; progress.answered, 0);
    assert!(rt; !link.reader.is_ready());
    let progress = Progress {
        answered: 7,
        least: 9,
    };
    assert!(rt; gate.park(link.reader, link.writer, progress));
    // A request that isn't there whole is held back, and none of its bytes is lost.
    client.write_all(b"GET /a HTTP/1.1\r\n\r\nGET /b")?;
    let (mut link, text, progress) = asked(alloc, &mut gate, 19)?;
    assert_eq!(rt; text.as_str(), "GET /a HTTP/1.1\r\n\r\n");
    assert_eq!(rt; progress.answered, 7);
    assert_eq!(rt; progress.least, 9);
    assert!(rt; !link.reader.is_ready());
    client.write_all(b" HTTP/1.1\r\n\r\n")?;
    assert!(rt; link.reader.is_ready());
    assert_eq!(rt;
        received(alloc, &mut link.reader, 19)?.as_str(),
        "GET /b HTTP/1.1\r\n\r\n"
    );
    gate.finish(link.reader, link.writer);
    Ok(())
}

#[test]
fn a_link_rests_for_its_time(rt: HostRuntime) -> Result<(), Fail> {
    let alloc = rt.alloc();
    let (_network, mut gate, _client) = met(&rt, network_of(rt, 1000), b"GET / HTTP/1.1\r\n\r\n")?;
    let (mut link, _text, _progress) = asked(alloc, &mut gate, 18)?;
    send(&mut link.writer, b"x")?;
    assert!(rt; !link.reader.is_ready());
    assert!(rt; gate.park(link.reader, link.writer, SECOND));
    // Its time is over: no request is to come.
    let (link, text, progress) = asked(alloc, &mut gate, 18)?;
    assert_eq!(rt; text.as_str(), "");
    assert_eq!(rt; progress.answered, 1);
    assert_eq!(rt; link.reader.faults, 0);
    gate.finish(link.reader, link.writer);
    Ok(())
}

#[test]
fn a_peer_ends_behind_its_request(rt: HostRuntime) -> Result<(), Fail> {
    let alloc = rt.alloc();
    let (network, mut gate, mut client) = met(
        &rt,
        TcpNetwork::new(rt, alloc),
        b"GET / HTTP/1.1\r\n\r\n",
    )?;
    client.shutdown(Shutdown::Write)?;
    wait(&rt, 100);
    // Its end, which came with the request, isn't waited for.
    let (mut link, _text, _progress) = asked(alloc, &mut gate, 18)?;
    assert!(rt; link.reader.is_ready());
    assert_eq!(rt; link.reader.read(&mut [0u8; 1]), Ok(0));
    gate.finish(link.reader, link.writer);
    // Nor is one that comes while a worker has the link.
    let mut client = client_of(&rt, network.local_addr())?;
    client.write_all(b"GET / HTTP/1.1\r\n\r\n")?;
    let (mut link, _text, _progress) = asked(alloc, &mut gate, 18)?;
    client.shutdown(Shutdown::Write)?;
    wait(&rt, 100);
    assert!(rt; !link.reader.is_ready());
    assert!(rt; gate.park(link.reader, link.writer, SECOND));
    let (mut link, _text, _progress) = asked(alloc, &mut gate, 0)?;
    assert_eq!(rt; link.reader.read(&mut [0u8; 1]), Ok(0));
    gate.finish(link.reader, link.writer);
    Ok(())
}

/// Whether nothing that a client didn't read yet has come to it.
fn is_silent(client: &mut TcpStream) -> io::Result<bool> {
    client.set_nonblocking(true)?;
    let is_silent = match client.read(&mut [0u8; 1]) {
        Err(error) => error.kind() == ErrorKind::WouldBlock,
        Ok(_) => false,
    };
    client.set_nonblocking(false)?;
    Ok(is_silent)
}

/// The next bytes that a client receives, so many.
fn answers_to(alloc: Global, client: &mut TcpStream, length: usize) -> Result<String, Fail> {
    let mut bytes = vec![in alloc; 0u8; length]?;
    client.read_exact(bytes.as_mut_slice())?;
    Ok(String::from_utf8(bytes)?)
}

#[test]
fn responses_to_requests_of_one_read_go_out_together(rt: HostRuntime) -> Result<(), Fail> {
    let alloc = rt.alloc();
    let sent = b"GET /a HTTP/1.1\r\n\r\nGET /b HTTP/1.1\r\n\r\nGET /c HTTP/1.1\r\n\r\nGET /d";
    let (_network, mut gate, mut client) = met(&rt, TcpNetwork::new(rt, alloc), sent)?;
    let (mut link, _text, _progress) = asked(alloc, &mut gate, 57)?;
    for response in [b"one", b"two"] {
        assert_eq!(rt; link.writer.write(response), Ok(3));
        wait(&rt, 50);
        assert!(rt; is_silent(&mut client)?);
    }
    // The last one doesn't wait for a request that isn't there whole.
    assert_eq!(rt; link.writer.write(b"three"), Ok(5));
    assert_eq!(rt; answers_to(alloc, &mut client, 11)?.as_str(), "onetwothree");
    assert!(rt; !link.reader.is_ready());
    client.write_all(b" HTTP/1.1\r\n\r\nGET /e HTTP/1.1\r\n\r\n")?;
    assert!(rt; link.reader.is_ready());
    assert_eq!(rt; received(alloc, &mut link.reader, 38)?.len(), 38);
    // What is kept is sent before more is waited for, and before the end.
    assert_eq!(rt; link.writer.write(b"four"), Ok(4));
    assert!(rt; is_silent(&mut client)?);
    assert!(rt; !link.reader.is_ready());
    assert_eq!(rt; answers_to(alloc, &mut client, 4)?.as_str(), "four");
    client.write_all(b"GET /f HTTP/1.1\r\n\r\nGET /g HTTP/1.1\r\n\r\n")?;
    assert!(rt; link.reader.is_ready());
    assert_eq!(rt; received(alloc, &mut link.reader, 38)?.len(), 38);
    assert_eq!(rt; link.writer.write(b"last"), Ok(4));
    gate.finish(link.reader, link.writer);
    assert_eq!(rt; rest(alloc, &mut client)?.as_str(), "last");
    Ok(())
}

#[test]
fn many_responses_are_kept_up_to_a_limit(rt: HostRuntime) -> Result<(), Fail> {
    let alloc = rt.alloc();
    let sent = b"GET /a HTTP/1.1\r\n\r\nGET /b HTTP/1.1\r\n\r\nGET /c HTTP/1.1\r\n\r\n";
    let (_network, mut gate, mut client) = met(&rt, TcpNetwork::new(rt, alloc), sent)?;
    let (mut link, _text, _progress) = asked(alloc, &mut gate, 57)?;
    let large = vec![in alloc; b'l'; 40_000]?;
    assert_eq!(rt; link.writer.write(large.as_slice()), Ok(40_000));
    assert!(rt; is_silent(&mut client)?);
    assert_eq!(rt; link.writer.write(large.as_slice()), Ok(40_000));
    let text = answers_to(alloc, &mut client, 80_000)?;
    assert!(rt; text.as_bytes().iter().all(|byte| *byte == b'l'));
    assert_eq!(rt; link.writer.write(b"x"), Ok(1));
    assert_eq!(rt; answers_to(alloc, &mut client, 1)?.as_str(), "x");
    drop(client);
    // Those that can't be sent are a fault.
    assert!(rt; fails_at_last(&mut link.writer));
    assert_eq!(rt; link.writer.faults, 1);
    Ok(())
}

#[test]
fn a_response_has_its_time(rt: HostRuntime) -> Result<(), Fail> {
    let (_network, mut gate, client) = met(&rt, network_of(rt, 1000), b"")?;
    let mut link = accepted(&mut gate)?;
    assert_eq!(rt; link.writer.write(b"a"), Ok(1));
    // The next response has a time of its own.
    wait(&rt, 1100);
    assert_eq!(rt; link.writer.write(b"b"), Ok(1));
    let large = vec![in rt.alloc(); 0u8; 16_000_000]?;
    let taken = link.writer.write(large.as_slice())?;
    assert!(rt; taken < large.len());
    assert_eq!(rt; link.writer.write(&large[taken..]), Err(Failed));
    assert_eq!(rt; link.writer.faults, 1);
    drop(client);
    Ok(())
}
