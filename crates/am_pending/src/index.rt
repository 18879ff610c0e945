//! The tokens of keys, and how many records each creator has.
ghost use Rattle.std.specs.Prelude.{◌≡◌, ℕ, ◌≤◌, ◌<◌, None, Some, OnOk};
ghost use Rattle.indexmap.specs.IndexMap.{spare};
ghost use Rattle.am_pending.specs.Records.{AreUnsetOf, IsSetAt, count_at, forgotten, lowered, raised, token_at};

use crate::hashing::Hashing;
use crate::key::Key;
use indexmap::IndexMap;
use std::alloc::AllocError;

/// The token of each key.
pub type Tokens = IndexMap<Key, u64, Hashing>;

/// Makes room for one more key and for one more creator.
pub fn make_room(tokens: &mut Tokens, counts: &mut IndexMap<u32, u32>) -> Result<(), AllocError>
    ensures tokens { tokens.new.entries ≡ tokens.old.entries }
    ensures counts { counts.new.entries ≡ counts.old.entries }
    ensures room { OnOk result ((1 ≤ spare tokens.new) × (1 ≤ spare counts.new)) }
{
    tokens.reserve(1)?;
    counts.reserve(1)
}

/// Gives the key a token, for which there is room.
pub fn put_token(tokens: &mut Tokens, key: Key, token: u64)
    requires { 1 ≤ spare tokens.old }
    ensures { IsSetAt tokens.old.entries tokens.new.entries key (Some token) }
{
    match tokens.insert(key, token) {
        Ok(_) => {}
        Err(failed) => drop(failed),
    }
}

/// Gives the key, which has a token, another one. Takes no memory.
pub fn set_token(tokens: &mut Tokens, key: &Key, token: u64)
    requires { token_at tokens.old.entries key.now ≡ None → ⊥ }
    ensures { IsSetAt tokens.old.entries tokens.new.entries key.now (Some token) }
{
    if let Some(place) = tokens.get_mut(key) {
        *place = token;
    }
}

/// Removes the key's token. Takes no memory.
fn unset_token(tokens: &mut Tokens, key: &Key)
    ensures { IsSetAt tokens.old.entries tokens.new.entries key.now None }
{
    tokens.swap_remove(key);
}

/// Removes the token of a key whose record is gone, and counts one less for its creator. Takes no memory.
pub fn unlist(tokens: &mut Tokens, counts: &mut IndexMap<u32, u32>, key: &Key)
    ensures tokens { IsSetAt tokens.old.entries tokens.new.entries key.now None }
    ensures counts { (uid : ℕ) → count_at counts.new.entries uid ≡ lowered counts.old.entries key.now.creator uid }
{
    unset_token(tokens, key);
    lower(counts, key.creator);
}

/// Removes the tokens of a creator's keys. Takes no memory.
pub fn forget_tokens(tokens: &mut Tokens, uid: u32)
    ensures { AreUnsetOf tokens.old.entries tokens.new.entries uid }
{
    tokens.retain(|key, _| key.creator != uid);
}

/// How many records the creator has.
pub fn count_of(counts: &IndexMap<u32, u32>, creator: u32) -> u32
    ensures { result ≡ count_at counts.now.entries creator }
{
    counts.get(&creator).copied().unwrap_or(0)
}

/// The creator has one more record; there is room for its number.
pub fn raise(counts: &mut IndexMap<u32, u32>, creator: u32)
    requires room { 1 ≤ spare counts.old }
    requires few { count_at counts.old.entries creator < 1024 }
    ensures { (uid : ℕ) → count_at counts.new.entries uid ≡ raised counts.old.entries creator uid }
{
    let count = count_of(counts, creator);
    let _old = counts.insert(creator, count + 1);
}

/// The creator has one less record. Takes no memory.
fn lower(counts: &mut IndexMap<u32, u32>, creator: u32)
    ensures { (uid : ℕ) → count_at counts.new.entries uid ≡ lowered counts.old.entries creator uid }
{
    let left = count_of(counts, creator).saturating_sub(1);
    if left == 0 {
        forget_count(counts, creator);
    } else if let Some(count) = counts.get_mut(&creator) {
        *count = left;
    }
}

/// Removes a creator's number of records. Takes no memory.
pub fn forget_count(counts: &mut IndexMap<u32, u32>, uid: u32)
    ensures { (other : ℕ) → count_at counts.new.entries other ≡ forgotten counts.old.entries uid other }
{
    counts.swap_remove(&uid);
}
