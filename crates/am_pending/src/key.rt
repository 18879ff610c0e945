//! What tells one pending intent from another.
ghost use Rattle.std.specs.Prelude.{◌≡◌, fold, option_map};
ghost use Rattle.std.specs.Option.{option_copied};
ghost use Rattle.std.specs.Cmp.{partial_equiv_from_equiv};
ghost use Rattle.am_types.specs.declared.uri.Uri.{Uri};
ghost use Rattle.am_model.specs.Candidates.{is_kind};
ghost use Rattle.am_model.specs.Pendings.{is_same_truth};
ghost use Rattle.am_pending.specs.KeyLaws.{fed_by_intent};
ghost use Rattle.am_pending.specs.Keys.{key_with};
ghost use Rattle.am_pending.specs.Orders.{fed_in_order, is_behind, is_nearer, next_text};

use am_filter::filter_equals;
use am_types::{Intent, Kind, List, Named, PendingFlags, Text, Uri, copy_parts};
use std::alloc::AllocError;
use std::hash::{Hash, Hasher};

/// How many categories of an intent its hash depends on. An intent that was read from a request has no more.
const MOST_CATEGORIES: usize = 64;

/// Who made a pending intent and what for: the key of its record. Extras and flags of the intent don't count.
#[derive(Drop)]
pub struct Key {
    pub creator: u32,
    pub kind: Kind,
    pub code: i64,
    pub one_shot: bool,
    pub immutable: bool,
    pub mutable: bool,
    pub intent: Intent,
}

fn is_kind(kind: Kind, other: Kind) -> bool
    ensures { result ≡ is_kind kind other }
{
    kind == other
}

fn is_same(truth: bool, other: bool) -> bool
    ensures { result ≡ is_same_truth truth other }
{
    truth == other
}

/// The whole text of a URI.
fn uri_text(uri: &Option<Uri>) -> Option<&Text>
    ensures { option_copied result ≡ option_map (λ (uri : Uri). uri.text) uri.now }
{
    match uri {
        Some(uri) => Some(&uri.text),
        None => None,
    }
}

/// The text comes after the last one, if there was one.
fn is_behind(last: Option<&Text>, text: &Text) -> bool
    ensures { result ≡ is_behind (option_copied last.entry) text.now }
{
    match last {
        Some(last) => *last < *text,
        None => true,
    }
}

/// The text comes before the one found, if one was found.
fn is_nearer(found: Option<&Text>, text: &Text) -> bool
    ensures { result ≡ is_nearer (option_copied found.entry) text.now }
{
    match found {
        Some(found) => *text < *found,
        None => true,
    }
}

/// The first of the texts, by bytes, or the first after the last one.
fn next_text<'a>(last: Option<&Text>, texts: &'a [Text]) -> Option<&'a Text>
    ensures { option_copied result ≡ next_text (option_copied last.entry) texts.now }
{
    let mut found = None;
    for text in texts {
        if is_nearer(found, text) && is_behind(last, text) {
            found = Some(text);
        }
    }
    found
}

/// Feeds the first texts of a set in their order, each once, and a mark if there are no more.
#[tactic(auto, unfolding(crate::specs::Orders::fed_in_order, crate::specs::Orders::last_after))]
fn hash_in_order<H: Hasher>(texts: &[Text], rounds: usize, state: &mut H)
    ensures { state.new ≡ fold H.write state.old (fed_in_order rounds texts.now) }
{
    let mut last = None;
    for _ in 0..rounds {
        let next = next_text(last, texts);
        next.hash(state);
        last = next.or(last);
    }
}

/// Feeds everything of the intent that tells keys apart.
fn hash_intent<H: Hasher>(intent: &Intent, state: &mut H)
    ensures { state.new ≡ fold H.write state.old (fed_by_intent intent.now) }
{
    intent.action.hash(state);
    uri_text(&intent.uri).hash(state);
    intent.mime.hash(state);
    intent.identifier.hash(state);
    intent.package.hash(state);
    intent.component.hash(state);
    hash_in_order(intent.categories.as_slice(), MOST_CATEGORIES, state);
}

impl Key {
    /// The key of a request with these flags. Takes no memory.
    pub fn asked(creator: u32, kind: Kind, code: i64, intent: Intent, flags: PendingFlags) -> Key
        ensures { result ≡ key_with creator kind code intent flags }
    {
        Key {
            creator,
            kind,
            code,
            one_shot: flags.one_shot,
            immutable: flags.immutable,
            mutable: flags.mutable,
            intent,
        }
    }

    /// The extras of the intent. Takes no memory.
    pub fn into_extras(self) -> List<Named>
        ensures { result ≡ self.intent.extras }
    {
        self.intent.into_extras()
    }
}

impl Clone for Key {
    ghost is_clone = { λ x y. y ≡ x };

    fn clone(&self) -> Result<Key, AllocError> {
        copy_parts!(self, Key: value(intent); creator kind code one_shot immutable mutable)
    }
}

impl PartialEq for Key {
    ghost use Rattle.am_pending.specs.Keys.{is_same_key};
    ghost use Rattle.am_pending.specs.KeyLaws.{key_equiv};

    ghost eq = { λ x y. is_same_key y x };

    ghost laws = { partial_equiv_from_equiv key_equiv };

    fn eq(&self, other: &Self) -> bool {
        other.creator == self.creator
            && is_kind(other.kind, self.kind)
            && other.code == self.code
            && is_same(other.one_shot, self.one_shot)
            && is_same(other.immutable, self.immutable)
            && is_same(other.mutable, self.mutable)
            && filter_equals(&other.intent, &self.intent)
    }
}

impl Eq for Key {
    ghost use Rattle.am_pending.specs.KeyLaws.{key_equiv};

    ghost laws = { key_equiv };
}

impl Hash for Key {
    ghost use Rattle.am_pending.specs.KeyLaws.{fed_by, key_fed};

    ghost hash_input = { fed_by };

    ghost respects_eq = { key_fed };

    fn hash<H: Hasher>(&self, state: &mut H) {
        self.creator.hash(state);
        self.kind.hash(state);
        self.code.hash(state);
        self.one_shot.hash(state);
        self.immutable.hash(state);
        self.mutable.hash(state);
        hash_intent(&self.intent, state);
    }
}
