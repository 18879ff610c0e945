//! Words with a bit for each element of a pattern, set where the element passes a test.
ghost use Rattle.std.specs.Prelude.{◌≡◌, ◌≤◌, map, length};
ghost use Rattle.am_uri.specs.PathElements.{element_of};
ghost use Rattle.am_uri.specs.PathWords.{IsShift, passes, word_where, words_where};

use crate::pattern::Element;

/// The bits of a word that are used. The highest one is spare, so that no sum of two words wraps.
pub(crate) const WIDTH: usize = 63;

/// The most words: a pattern has a place before each element, and one after the last.
pub(crate) const WORDS: usize = 17;

/// A test of an element.
#[derive(Clone, Copy)]
pub(crate) enum Test {
    /// It is repeated.
    Repeated,
    /// It allows the character.
    Allows(char),
    /// It allows every character.
    Wild,
    /// Its character has the bit.
    Bit(u32),
    /// Its character has no bit from this one on.
    Below(u32),
}

impl Test {
    /// The element passes the test.
    fn passes(self, element: &Element) -> bool
        requires { IsShift self }
        ensures { result ≡ passes self (element_of element.now) }
    {
        let code = element.mark.character as u32;
        match self {
            Test::Repeated => element.repeated,
            Test::Allows(c) => element.mark.allows(c),
            Test::Wild => element.mark.is_wild(),
            Test::Bit(b) => (code >> b) % 2 == 1,
            Test::Below(b) => code >> b == 0,
        }
    }
}

/// Writes the words of the elements that pass the test.
pub(crate) fn write_where(elements: &[Element], test: Test, words: &mut [u64])
    requires { IsShift test }
    ensures { words.new ≡ words_where 63 (passes test) (length words.old) (map element_of elements.now) }
{
    let mut left = elements;
    for i in 0..words.len() {
        let (front, behind) = left.split_at(left.len().min(WIDTH));
        words[i] = word_of(front, test);
        left = behind;
    }
}

/// The word of elements that fit into one word.
fn word_of(elements: &[Element], test: Test) -> u64
    requires few { length elements.now ≤ 63 }
    requires shift { IsShift test }
    ensures { result ≡ word_where (passes test) (map element_of elements.now) }
{
    let mut word = 0;
    let mut i = elements.len();
    while i > 0 {
        i -= 1;
        word = word * 2 + u64::from(test.passes(&elements[i]));
    }
    word
}
