//! The hits with the greatest priority.
ghost use Rattle.std.specs.Prelude.{◌≡◌, length};
ghost use Rattle.std.specs.List.{take_while};
ghost use Rattle.std.specs.Ordering.{int_eq};
ghost use Rattle.am_types.specs.declared.resolve.Hit.{Hit};
ghost use Rattle.am_model.specs.Accounts.{is_choice};
ghost use Rattle.am_model.specs.Targets.{choice, top};

use am_types::{Hit, List, Target};

/// How many hits at the front have the priority of this one.
fn len_of(hits: &[Hit], first: &Hit) -> usize
    ensures { result ≡ length (take_while (λ (hit : Hit). int_eq hit.priority first.now.priority) hits.now) }
{
    for (place, hit) in hits.iter().enumerate() {
        if hit.priority != first.priority {
            return place;
        }
    }
    hits.len()
}

/// How many of the hits, which are ordered by falling priority, share the greatest priority.
fn top_len(hits: &[Hit]) -> usize
    ensures { result ≡ length (top hits.now) }
{
    match hits.first() {
        None => 0,
        Some(first) => len_of(hits, first),
    }
}

/// Whether several of the hits, which are ordered by falling priority, share the greatest priority. Takes no memory.
pub fn is_tied(found: &List<Hit>) -> bool
    ensures { result ≡ is_choice (choice (top found.now)) }
{
    top_len(found.as_slice()) > 1
}

/// Those of the hits, which are ordered by falling priority, that share the greatest priority.
fn top(found: List<Hit>) -> Vec<Hit>
    ensures { result.items ≡ top found }
{
    let mut hits = found.into_items();
    let len = top_len(&hits);
    hits.truncate(len);
    hits
}

/// The choice among the hits that share the greatest priority: none, one, or several from which
/// the user must choose. Takes no memory.
pub(crate) fn choose(found: List<Hit>) -> Target
    ensures { result ≡ choice (top found) }
{
    let mut hits = top(found);
    if hits.len() > 1 {
        return Target::Choose(List::new(hits));
    }
    match hits.pop() {
        None => Target::Nothing,
        Some(hit) => Target::One(hit),
    }
}
