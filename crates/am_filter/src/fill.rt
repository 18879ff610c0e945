//! What one intent fills in from another.
ghost use Rattle.std.specs.Prelude.{◌≡◌, ◌||◌, ◌↔◌, ◌+◌, ◌≤◌, IfOk, Ok, Err, length, nat_lt};
ghost use Rattle.std.specs.List.{insert};
ghost use Rattle.am_model.specs.Intents.{fill_in, filled, filled_categories, filled_mime, filled_uri, has_key, or_other, place_extra, united_extras, united_flags};

use am_types::{FillFault, Flags, Intent, List, Mime, Named, Text, Uri};
use std::alloc::{AllocError, Global};

/// The most extras of an intent.
const MOST_EXTRAS: usize = 64;

/// The intent with what it lacks taken from the other. Action, identifier and package are taken
/// if it has none; URI and type together, if it has neither; categories if it has none;
/// the component never. Flags are united, and an extra is added if its key is absent.
/// `ExtrasFull` comes exactly if there would be more than 64 extras. (AOSP, `Intent.fillIn`;
/// the extras: own.)
#[tactic(auto, unfolding(am_model::specs::Intents::fill_in))]
pub fn fill_in(alloc: Global, kept: &Intent, other: &Intent) -> Result<Intent, FillFault>
    ensures filled { IfOk result (λ intent. fill_in kept.now other.now ≡ Ok intent) }
    ensures full { (result ≡ Err FillFault.ExtrasFull) ↔ (fill_in kept.now other.now ≡ Err FillFault.ExtrasFull) }
{
    if is_full(&kept.extras, &other.extras) {
        return Err(FillFault::ExtrasFull);
    }
    match filled(alloc, kept, other) {
        Ok(intent) => Ok(intent),
        Err(_) => Err(FillFault::NoMemory),
    }
}

fn filled(alloc: Global, kept: &Intent, other: &Intent) -> Result<Intent, AllocError>
    ensures { IfOk result (λ intent. intent ≡ filled kept.now other.now) }
{
    let mut intent = Intent::empty(alloc);
    match fill(alloc, &mut intent, kept, other) {
        Ok(()) => Ok(intent),
        Err(fault) => {
            drop(intent);
            Err(fault)
        }
    }
}

/// Writes all of `kept` into the intent, with what it lacks taken from `other`.
fn fill(alloc: Global, intent: &mut Intent, kept: &Intent, other: &Intent) -> Result<(), AllocError>
    ensures { IfOk result (λ done. intent.new ≡ filled kept.now other.now) }
{
    intent.action = text(&kept.action, &other.action)?;
    intent.uri = uri(kept, other)?;
    intent.mime = mime(kept, other)?;
    intent.identifier = text(&kept.identifier, &other.identifier)?;
    intent.categories = categories(&kept.categories, &other.categories)?;
    intent.package = text(&kept.package, &other.package)?;
    intent.component = kept.component.clone()?;
    intent.flags = united_flags(kept.flags, other.flags);
    intent.extras = united_extras(alloc, &kept.extras, &other.extras)?;
    Ok(())
}

/// The first if it is present, otherwise the second.
fn text(kept: &Option<Text>, other: &Option<Text>) -> Result<Option<Text>, AllocError>
    ensures { IfOk result (λ text. text ≡ or_other kept.now other.now) }
{
    match kept {
        Some(text) => Ok(Some(text.clone()?)),
        None => other.clone(),
    }
}

/// The URI, taken if there is neither URI nor type.
fn uri(kept: &Intent, other: &Intent) -> Result<Option<Uri>, AllocError>
    ensures { IfOk result (λ uri. uri ≡ filled_uri kept.now.uri kept.now.mime other.now.uri) }
{
    match (&kept.uri, &kept.mime) {
        (None, None) => other.uri.clone(),
        (None, Some(_)) => Ok(None),
        (Some(uri), _) => Ok(Some(uri.clone()?)),
    }
}

/// The type, taken if there is neither URI nor type.
fn mime(kept: &Intent, other: &Intent) -> Result<Option<Mime>, AllocError>
    ensures { IfOk result (λ mime. mime ≡ filled_mime kept.now.uri kept.now.mime other.now.mime) }
{
    match (&kept.uri, &kept.mime) {
        (None, None) => other.mime.clone(),
        (None, Some(mime)) => Ok(Some(mime.clone()?)),
        (Some(_), mime) => mime.clone(),
    }
}

/// The categories, taken if there are none.
#[tactic(auto, using(crate::proofs::Unions::same_list))]
fn categories(kept: &List<Text>, other: &List<Text>) -> Result<List<Text>, AllocError>
    ensures { IfOk result (λ categories. categories ≡ filled_categories kept.now other.now) }
{
    if kept.as_slice().is_empty() {
        other.clone()
    } else {
        kept.clone()
    }
}

/// The flags of either.
fn united_flags(a: Flags, b: Flags) -> Flags
    ensures { result ≡ united_flags a b }
{
    Flags {
        new_task: a.new_task | b.new_task,
        multiple_task: a.multiple_task | b.multiple_task,
        clear_task: a.clear_task | b.clear_task,
        clear_top: a.clear_top | b.clear_top,
        single_top: a.single_top | b.single_top,
        reorder_to_front: a.reorder_to_front | b.reorder_to_front,
        registered_only: a.registered_only | b.registered_only,
        foreground: a.foreground | b.foreground,
        no_abort: a.no_abort | b.no_abort,
        include_stopped: a.include_stopped | b.include_stopped,
    }
}

/// The two have more than 64 extras together. Takes no memory.
fn is_full(kept: &List<Named>, other: &List<Named>) -> bool
    ensures { result ≡ nat_lt 64 (length (united_extras kept.now other.now)) }
{
    let (kept, other) = (kept.as_slice(), other.as_slice());
    let added = added_count(kept, other);
    match MOST_EXTRAS.checked_sub(kept.len()) {
        Some(room) => added > room,
        None => true,
    }
}

/// How many extras of the other have a new key.
fn added_count(kept: &[Named], other: &[Named]) -> usize
    ensures { length kept.now + result ≡ length (united_extras kept.now other.now) }
{
    let mut added = 0;
    for (i, extra) in other.iter().enumerate() {
        if !is_known(kept, &other[..i], &extra.key) {
            added += 1;
        }
    }
    added
}

/// Some extra of the two has the key.
fn is_known(kept: &[Named], before: &[Named], key: &Text) -> bool
    ensures { result ≡ has_key kept.now key.now || has_key before.now key.now }
{
    has_key(kept, key) || has_key(before, key)
}

/// The extras, with the other's extras whose keys are absent.
fn united_extras(
    alloc: Global,
    kept: &List<Named>,
    other: &List<Named>,
) -> Result<List<Named>, AllocError>
    ensures { IfOk result (λ extras. extras ≡ united_extras kept.now other.now) }
{
    let mut extras = kept.as_slice().to_vec(alloc)?;
    for extra in other.as_slice() {
        if !has_key(&extras, &extra.key) {
            let place = place_of(&extras, extra);
            extras.insert(place, extra.clone()?)?;
        }
    }
    Ok(List::new(extras))
}

/// An extra has the key.
fn has_key(extras: &[Named], key: &Text) -> bool
    ensures { result ≡ has_key extras.now key.now }
{
    extras.iter().any(|extra| extra.key == *key)
}

/// The place before the first extra whose key comes after that of the new one.
fn place_of(extras: &[Named], extra: &Named) -> usize
    ensures within { result ≤ length extras.now }
    ensures placed { insert extras.now result extra.now ≡ place_extra extra.now extras.now }
{
    for (i, first) in extras.iter().enumerate() {
        if extra.key < first.key {
            return i;
        }
    }
    extras.len()
}
