//! Merges the spots of two lists into one.
ghost use Rattle.std.specs.Prelude.{◌≡◌, IfOk};
ghost use Rattle.am_index.specs.Lookups.{merged, same_spot, spots_after, spots_before, stands_before, without_first};

use crate::key::Spot;
use am_types::NoMemory;
use std::alloc::Global;

/// The spots of both lists in the order of uid, then position, each once.
pub(crate) fn merged(alloc: Global, spots: &[Spot], others: &[Spot]) -> Result<Vec<Spot>, NoMemory>
    ensures { IfOk result (λ all. all.items ≡ merged spots.now others.now) }
{
    let mut all = Vec::new(alloc);
    let mut rest = others;
    for spot in spots {
        let (first, next) = parted(rest, *spot);
        all.extend_from_slice(first)?;
        all.push(*spot)?;
        rest = next;
    }
    all.extend_from_slice(rest)?;
    Ok(all)
}

/// The spots before this one, and the spots after it.
fn parted(others: &[Spot], spot: Spot) -> (&[Spot], &[Spot])
    ensures before { result.0.now ≡ spots_before spot others.now }
    ensures after { result.1.now ≡ spots_after spot others.now }
{
    for (i, other) in others.iter().enumerate() {
        if !stands_before(*other, spot) {
            let (first, rest) = others.split_at(i);
            return (first, without_first(rest, spot));
        }
    }
    (others, &[])
}

/// The spots without this one, if it is the first.
fn without_first(spots: &[Spot], spot: Spot) -> &[Spot]
    ensures { result.now ≡ without_first spot spots.now }
{
    match spots {
        [first, rest @ ..] if same_spot(*first, spot) => rest,
        _ => spots,
    }
}

/// One spot comes before another: by uid, then by position.
fn stands_before(a: Spot, b: Spot) -> bool
    ensures { result ≡ stands_before a b }
{
    a.uid < b.uid || (a.uid == b.uid && a.position < b.position)
}

/// The two spots are of the same component.
fn same_spot(a: Spot, b: Spot) -> bool
    ensures { result ≡ same_spot a b }
{
    a.uid == b.uid && a.position == b.position
}
