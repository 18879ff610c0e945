//! Servings over gates that park links: several links of several frames, whose readers aren't ready now and then.
ghost use Rattle.std.specs.Prelude.{◌≡◌, ◌<◌, IfOk};
ghost use Rattle.am_trials_network.specs.Gates.{AreNew, AreUnused, HasUnusedEnds, IsNew};

mod rows;

use self::rows::{ALONE, INTERLEAVED};
use crate::servings::{fault, gate_parts, try_gates, try_head};
use crate::sessions::text_of;
use am_trials_network::{RestingGate, RestingLink, RestingNetwork, RestingPlan};
use am_trials_runs::{Outside, QUIET, Runtime, sink, source, store};
use am_trials_words::try_sections;
use am_types::List;
use std::alloc::Global;
use std::process::Abort;
use std::test::Fail;

/// How a serving is tried: how many bytes a read and a write take at most, less one, and whether readers ever rest.
#[derive(Clone, Copy)]
struct Manner {
    more: usize,
    rests: bool,
}

/// Each byte comes and goes alone, so that each frame is waited for.
const RESTING: Manner = Manner {
    more: 0,
    rests: true,
};

/// The numbers between spaces; `-` is none.
fn numbers(alloc: Global, words: &str) -> Result<List<u32>, Fail> {
    let mut calls = Vec::new(alloc);
    for word in words.split(' ') {
        if let Some(call) = word.parse::<u32>().ok() {
            calls.push(call)?;
        }
    }
    Ok(List::new(calls))
}

/// The parts of a row: the calls of its reader that say no, its fault or what becomes of it, what comes, and what it
/// took.
fn row_parts(row: &str) -> Result<(&str, &str, &str, &str), Fail> {
    let (rests, rest) = row.split_once(" | ").ok_or("a link")?;
    let (end, exchanged) = rest.split_once(" | ").ok_or("an end")?;
    let (input, taken) = exchanged.split_once(" -> ").ok_or("an answer")?;
    Ok((rests, end, input, taken))
}

/// The outside of a link with that fault.
fn outside_of(manner: Manner, end: &str) -> Result<Outside, Fail>
    ensures { IfOk result (λ outside. 0 < outside.most) }
{
    let faulty = fault(end)?;
    Ok(Outside {
        most: manner.more.saturating_add(1),
        ..faulty
    })
}

/// A link over which this comes, and whose reader says no at these calls.
fn link_of(
    alloc: Global,
    input: &[u8],
    room: usize,
    pauses: List<u32>,
    outside: &Outside,
) -> Result<RestingPlan, Fail>
    requires { 0 < outside.now.most }
    ensures { IfOk result HasUnusedEnds }
{
    Ok(RestingPlan {
        reader: source(alloc, input, outside)?,
        writer: sink(alloc, "output", room, outside)?,
        pauses,
    })
}

/// The link of a row.
fn planned_link(alloc: Global, manner: Manner, row: &str) -> Result<RestingPlan, Fail>
    ensures { IfOk result HasUnusedEnds }
{
    let (rests, end, input, _) = row_parts(row)?;
    let outside = outside_of(manner, end)?;
    let input = text_of(alloc, input)?;
    let pauses = numbers(alloc, if manner.rests { rests } else { "-" })?;
    link_of(alloc, input.as_slice(), 4096, pauses, &outside)
}

/// The links of the rows.
fn planned_links(alloc: Global, manner: Manner, rows: &str) -> Result<Vec<RestingPlan>, Fail>
    ensures { IfOk result (λ links. AreUnused links.items) }
{
    let mut links = Vec::new(alloc);
    for row in rows.lines() {
        links.push(planned_link(alloc, manner, row)?)?;
    }
    Ok(links)
}

/// The gate of these rows.
fn planned_gate(alloc: Global, manner: Manner, gate: &str) -> Result<RestingGate, Fail>
    ensures { IfOk result IsNew }
{
    let (failing, rows) = gate_parts(alloc, gate)?;
    let links = List::new(planned_links(alloc, manner, rows)?);
    Ok(RestingGate::new(alloc, links, failing)?)
}

/// The gates of a serving.
fn planned_gates(alloc: Global, manner: Manner, gates: &str) -> Result<Vec<RestingGate>, Fail>
    ensures { IfOk result (λ made. AreNew made.items) }
{
    let mut made = Vec::new(alloc);
    for part in gates.split("\n: ") {
        made.push(planned_gate(alloc, manner, part)?)?;
    }
    Ok(made)
}

/// The link with this number, if the gate ended it.
fn ended_as(gate: &RestingGate, number: u64) -> Option<&RestingLink> {
    for link in gate.ended() {
        if link.reader.reader.mark == number {
            return Some(link);
        }
    }
    None
}

/// The link with this number was ended, and took what the row has; or it was left or is parked, as the row says.
fn try_link(
    rt: &impl Abort,
    alloc: Global,
    gate: &RestingGate,
    number: u64,
    row: &str,
) -> Result<(), Fail> {
    let (_, end, _, taken) = row_parts(row)?;
    match ended_as(gate, number) {
        Some(link) => {
            let wanted = text_of(alloc, taken)?;
            assert_eq!(rt; link.writer.sink.taken(), wanted.as_slice(), "{row}");
            assert_eq!(rt; link.writer.mark, number, "{row}");
        }
        None => assert!(rt; end == "left" || end == "parked", "{row}"),
    }
    Ok(())
}

/// The gate ended all links of its rows but those that are left or parked, each once, has so many parked, and failed at
/// its call.
fn try_gate(rt: &impl Abort, alloc: Global, gate: &RestingGate, part: &str) -> Result<(), Fail> {
    let (failing, rows) = gate_parts(alloc, part)?;
    assert_eq!(rt; gate.faults(), failing.as_slice().len() as u64, "{rows}");
    let mut number: u64 = 0;
    let mut left: usize = 0;
    let mut parked: usize = 0;
    for row in rows.lines() {
        try_link(rt, alloc, gate, number, row)?;
        let (_, end, _, _) = row_parts(row)?;
        match end {
            "left" => left = left.wrapping_add(1),
            "parked" => parked = parked.wrapping_add(1),
            _ => (),
        }
        number = number.wrapping_add(1);
    }
    let gone = gate.ended().len().wrapping_add(left).wrapping_add(parked);
    assert_eq!(rt; gone as u64, number, "{rows}");
    assert_eq!(rt; gate.parked(), parked, "{rows}");
    Ok(())
}

/// Runs the serving of the rows in this manner.
fn try_rows(
    rt: &(impl Runtime + Abort),
    alloc: Global,
    manner: Manner,
    rows: &str,
) -> Result<(), Fail> {
    let (_, serving) = rows.split_once('\n').ok_or("a serving")?;
    let (head, gates) = serving.split_once("\n: ").ok_or("gates")?;
    let mut store = store(alloc, &QUIET)?;
    let mut network = RestingNetwork::new(alloc, planned_gates(alloc, manner, gates)?);
    try_head(rt, alloc, &mut store, &mut network, head)?;
    try_gates(rt, network.released(), gates, |gate, part| {
        try_gate(rt, alloc, gate, part)
    })
}

/// Runs the serving of the rows whose links rest, in pieces of one byte, seven bytes and more, and one link after the
/// other: the answers are the same.
fn try_alone(rt: &(impl Runtime + Abort), alloc: Global, rows: &str) -> Result<(), Fail> {
    for more in [0, 6, 1_000_000] {
        for rests in [true, false] {
            try_rows(rt, alloc, Manner { more, rests }, rows)?;
        }
    }
    Ok(())
}

#[test]
fn answers_as_one_link_at_a_time(rt: HostRuntime) -> Result<(), Fail> {
    try_sections(ALONE, "\n# ", 5, |rows| try_alone(&rt, rt.alloc(), rows))
}

#[test]
fn serves_links_in_turns(rt: HostRuntime) -> Result<(), Fail> {
    try_sections(INTERLEAVED, "\n# ", 7, |rows| {
        try_rows(&rt, rt.alloc(), RESTING, rows)
    })
}

/// How many frames of a connection are answered.
const MOST_FRAMES: usize = 65_536;

const FRAME: &[u8] = b"GET /v1/none HTTP/1.1\r\n\r\n";

const ANSWER: &[u8] =
    b"HTTP/1.1 404 Not Found\r\nContent-Type: application/json\r\nContent-Length: 20\r\n\r\n{\"error\":\"no_route\"}";

/// A frame of 25 bytes comes with each read.
const FRAMES: Outside = Outside {
    most: 25,
    failing: "",
    call: 1,
    at: 0,
    step: 1,
};

/// More frames than a connection may have, by one.
fn too_many(alloc: Global) -> Result<Vec<u8>, Fail> {
    let mut input = Vec::new(alloc);
    for _ in 0..MOST_FRAMES {
        input.extend_from_slice(FRAME)?;
    }
    input.extend_from_slice(FRAME)?;
    Ok(input)
}

/// A network of a gate with one link of too many frames, of which each comes with one read. It rests at these calls.
fn long_network(alloc: Global, rests: &str) -> Result<RestingNetwork, Fail> {
    let input = too_many(alloc)?;
    let room = MOST_FRAMES
        .saturating_mul(ANSWER.len())
        .saturating_add(4096);
    let link = link_of(
        alloc,
        input.as_slice(),
        room,
        numbers(alloc, rests)?,
        &FRAMES,
    )?;
    let links = List::new(vec![in alloc; link]?);
    let gate = RestingGate::new(alloc, links, List::new(Vec::new(alloc)))?;
    Ok(RestingNetwork::new(alloc, vec![in alloc; gate]?))
}

/// A connection is answered as many frames as it may have, however often it rested.
fn try_long(rt: &(impl Runtime + Abort), alloc: Global, rests: &str) -> Result<(), Fail> {
    let mut network = long_network(alloc, rests)?;
    let mut store = store(alloc, &QUIET)?;
    let head = r"empty serve --device d --port 1 --workers 1 | 0 - | history 0 served 1\n";
    try_head(rt, alloc, &mut store, &mut network, head)?;
    let gate = network.released().first().ok_or("a gate")?;
    let link = gate.ended().first().ok_or("a link")?;
    let taken = link.writer.sink.taken();
    assert_eq!(rt;
        taken.len(),
        MOST_FRAMES.saturating_mul(ANSWER.len()),
        "{rests}"
    );
    assert!(rt;
        taken.starts_with(ANSWER) && taken.ends_with(ANSWER),
        "{rests}"
    );
    Ok(())
}

#[test]
fn counts_frames_over_rests(rt: HostRuntime) -> Result<(), Fail> {
    try_long(&rt, rt.alloc(), "-")?;
    try_long(&rt, rt.alloc(), "1 1000 40000 65538")
}
