//! Sets of places in a pattern, as words with a bit for each place, and the places that these lead to.
ghost use Rattle.std.specs.Prelude.{◌≡◌, ◌<◌, ◌*◌, ◌/◌, ◌%◌, ◌^◌, ◌==◌, length, IsTrue, EachIndex, slice_index};
ghost use Rattle.am_uri.specs.PathPlaces.{skipped, advanced};
ghost use Rattle.am_uri.specs.PathWords.{AreWithin};

use crate::bits::WIDTH;

/// Reaches the places after repeated elements too. A carry runs up a word as far as elements are repeated.
pub(crate) fn skip(repeated: &[u64], reached: &mut [u64])
    requires same_length { length repeated.now ≡ length reached.old }
    requires spare { AreWithin 63 repeated.now }
    ensures { reached.new ≡ skipped 63 0 repeated.now reached.old }
{
    let mut carry = 0;
    for i in 0..reached.len() {
        let sum = (reached[i] & repeated[i]) + repeated[i] + carry;
        reached[i] |= sum ^ repeated[i];
        carry = sum >> WIDTH;
    }
}

/// Moves one character on. Among the places that are reached, the place of an element that allows the character stays
/// if the element is repeated, and moves up by one if it isn't.
pub(crate) fn advance(allowed: &[u64], repeated: &[u64], reached: &mut [u64])
    requires allowed_length { length allowed.now ≡ length reached.old }
    requires repeated_length { length repeated.now ≡ length reached.old }
    requires spare { AreWithin 63 allowed.now }
    ensures { reached.new ≡ advanced 63 0 allowed.now repeated.now reached.old }
{
    let mut carry = 0;
    for i in 0..reached.len() {
        let taken = reached[i] & allowed[i];
        let stays = taken & repeated[i];
        let goes = (taken ^ stays) * 2 + carry;
        reached[i] = stays | goes;
        carry = goes >> WIDTH;
    }
}

/// No place is reached.
pub(crate) fn is_empty(reached: &[u64]) -> bool
    ensures { IsTrue result → EachIndex reached.now (λ k. slice_index reached.now k ≡ 0) }
{
    reached.iter().all(|word| *word == 0)
}

/// The place is reached.
pub(crate) fn is_reached(reached: &[u64], place: usize) -> bool
    requires { place < 63 * length reached.now }
    ensures { result ≡ (slice_index reached.now (place / 63) / 2 ^ (place % 63) % 2 == 1) }
{
    (reached[place / WIDTH] >> (place % WIDTH)) % 2 == 1
}
