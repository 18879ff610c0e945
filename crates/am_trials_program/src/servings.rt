//! Servings over a network in memory, and what each of its links took.
ghost use Rattle.std.specs.Prelude.{◌<◌, IfOk};
ghost use Rattle.am_network.specs.Memory.{ArePlans, AreUnused, IsUnused};

mod rows;

use self::rows::{KEEPING, SERVINGS};
use crate::sessions::{device_file, text_of, try_end};
use am_keeper::MemoryStore;
use am_network::{GatePlan, LinkPlan, MemoryGate, MemoryLink, Network};
use am_trials_runs::{
    Asked, Outside, QUIET, Runtime, asked_over, network_of, run_on, sink, source, store,
};
use am_trials_words::{parts, try_sections};
use am_types::List;
use std::alloc::Global;
use std::process::Abort;
use std::test::Fail;

/// Which end of a link fails, and at which of its calls.
pub fn fault(words: &str) -> Result<Outside, Fail>
    ensures { IfOk result (λ outside. 0 < outside.most) }
{
    let (end, call) = words.split_once(' ').unwrap_or((words, "1"));
    let failing = match end {
        "input" => "input",
        "output" => "output",
        _ => "",
    };
    let call = call.parse::<u32>().ok().ok_or("a number")?;
    Ok(Outside {
        failing,
        call,
        ..QUIET
    })
}

/// A link over which this comes.
fn link_of(alloc: Global, input: &str, outside: &Outside) -> Result<LinkPlan, Fail>
    requires { 0 < outside.now.most }
    ensures { IfOk result IsUnused }
{
    let input = text_of(alloc, input)?;
    let reader = source(alloc, input.as_slice(), outside)?;
    let writer = sink(alloc, "output", 4096, outside)?;
    Ok(LinkPlan { reader, writer })
}

/// The link of a row.
fn planned_link(alloc: Global, row: &str) -> Result<LinkPlan, Fail>
    ensures { IfOk result IsUnused }
{
    let (words, exchanged) = row.split_once(" | ").ok_or("a link")?;
    let (input, _) = exchanged.split_once(" -> ").ok_or("an answer")?;
    let outside = fault(words)?;
    link_of(alloc, input, &outside)
}

/// The links of the rows.
fn planned_links(alloc: Global, rows: &str) -> Result<Vec<LinkPlan>, Fail>
    ensures { IfOk result (λ links. AreUnused links.items) }
{
    let mut links = Vec::new(alloc);
    for row in rows.lines() {
        links.push(planned_link(alloc, row)?)?;
    }
    Ok(links)
}

/// The number of the call for a link that fails, if one does, and the rows of the links.
pub fn gate_parts(alloc: Global, gate: &str) -> Result<(List<u32>, &str), Fail> {
    let (failing, rows) = gate.split_once('\n').unwrap_or((gate, ""));
    let mut calls = Vec::new(alloc);
    if let Some(call) = failing.parse::<u32>().ok() {
        calls.push(call)?;
    }
    Ok((List::new(calls), rows))
}

/// The gate of these rows.
fn planned_gate(alloc: Global, gate: &str) -> Result<GatePlan, Fail>
    ensures { IfOk result (λ made. AreUnused made.links) }
{
    let (failing, rows) = gate_parts(alloc, gate)?;
    let links = List::new(planned_links(alloc, rows)?);
    Ok(GatePlan { links, failing })
}

/// The gates of a serving.
fn planned_gates(alloc: Global, gates: &str) -> Result<Vec<GatePlan>, Fail>
    ensures { IfOk result (λ planned. ArePlans planned.items) }
{
    let mut planned = Vec::new(alloc);
    for part in gates.split("\n: ") {
        planned.push(planned_gate(alloc, part)?)?;
    }
    Ok(planned)
}

/// The link has its number at both ends, and took what the row has.
fn try_link(
    rt: &impl Abort,
    alloc: Global,
    link: &MemoryLink,
    number: usize,
    row: &str,
) -> Result<(), Fail> {
    let (_, wanted) = row.split_once(" -> ").ok_or("an answer")?;
    let wanted = text_of(alloc, wanted)?;
    assert_eq!(rt; link.writer.sink.taken(), wanted.as_slice(), "{row}");
    assert_eq!(rt; link.reader.mark, number as u64, "{row}");
    assert_eq!(rt; link.writer.mark, number as u64, "{row}");
    Ok(())
}

/// The gate took its links back in their order, except those that are left, and failed at its call.
fn try_gate(rt: &impl Abort, alloc: Global, gate: &MemoryGate, part: &str) -> Result<(), Fail> {
    let (failing, rows) = gate_parts(alloc, part)?;
    assert_eq!(rt; gate.faults(), failing.as_slice().len() as u64, "{rows}");
    let mut number: usize = 0;
    for row in rows.lines() {
        if !row.starts_with("left") {
            let link = gate.ended().get(number).ok_or("a link")?;
            try_link(rt, alloc, link, number, row)?;
            number = number.wrapping_add(1);
        }
    }
    assert_eq!(rt; gate.ended().len(), number, "{rows}");
    Ok(())
}

/// The network took its gates back in their order, and all of them.
pub fn try_gates<G, F: FnMut(&G, &str) -> Result<(), Fail>>(
    rt: &impl Abort,
    released: &[G],
    gates: &str,
    mut try_gate: F,
) -> Result<(), Fail>
    requires { F.IsAlwaysCallable try_gate }
{
    assert_eq!(rt; released.len(), gates.split("\n: ").count(), "{gates}");
    for (gate, part) in released.iter().zip(gates.split("\n: ")) {
        try_gate(gate, part)?;
    }
    Ok(())
}

/// Runs what the head of a serving says over the store and the network, and looks at how it ends.
pub fn try_head<N: Network>(
    rt: &(impl Runtime + Abort),
    alloc: Global,
    store: &mut MemoryStore,
    network: &mut N,
    head: &str,
) -> Result<(), Fail> {
    let (run, wanted, output) = parts(head);
    let (device, words) = run.split_once(' ').ok_or("words")?;
    let asked = Asked::new(words, device_file(device), b"");
    let left = run_on(rt, alloc, &asked, &QUIET, store, network)?;
    try_end(rt, alloc, &left, wanted, output, head)
}

/// Runs the serving over the store.
fn try_serving(
    rt: &(impl Runtime + Abort),
    alloc: Global,
    store: &mut MemoryStore,
    serving: &str,
) -> Result<(), Fail> {
    let (head, gates) = serving.split_once("\n: ").ok_or("gates")?;
    let planned = List::new(planned_gates(alloc, gates)?);
    let mut network = network_of(alloc, planned, &QUIET)?;
    try_head(rt, alloc, store, &mut network, head)?;
    try_gates(rt, network.released(), gates, |gate, part| {
        try_gate(rt, alloc, gate, part)
    })
}

/// Runs the serving of the rows over a store of its own.
fn try_rows(rt: &(impl Runtime + Abort), alloc: Global, rows: &str) -> Result<(), Fail> {
    let (_, serving) = rows.split_once('\n').ok_or("a serving")?;
    let mut store = store(alloc, &QUIET)?;
    try_serving(rt, alloc, &mut store, serving)
}

#[test]
fn serves_links(rt: HostRuntime) -> Result<(), Fail> {
    try_sections(SERVINGS, "\n# ", 9, |rows| try_rows(&rt, rt.alloc(), rows))
}

#[test]
fn keeps_what_a_link_installs(rt: HostRuntime) -> Result<(), Fail> {
    let alloc = rt.alloc();
    let mut kept = store(alloc, &QUIET)?;
    try_serving(&rt, alloc, &mut kept, KEEPING)?;
    let (words, device) = ("session --device d --store q", device_file("bare"));
    let left = asked_over(
        &rt,
        alloc,
        words,
        device,
        "GET /v1/status | sys | ",
        &mut kept,
    )?;
    assert!(rt;
        left.text()?
            .ends_with(r#"{"history":0,"moment":0,"packages":1}"#)
    );
    Ok(())
}
