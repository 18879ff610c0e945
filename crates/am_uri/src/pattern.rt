//! A pattern's elements, read off its front one by one.
ghost use Rattle.std.specs.Prelude.{◌≡◌, ◌<◌, ◌≤◌, ◌∷◌, [], map, take, length, chars, IsUtf8, MatchOption, IfSome};
ghost use Rattle.std.specs.Str.Iter.{chars_rest};
ghost use Rattle.am_model.specs.Paths.{allows, marks_of, elements_of};
ghost use Rattle.am_uri.specs.PathElements.{is_wild, mark_of, element_of, marks_left, elements_left};

use std::str::Chars;

/// The most elements that a pattern has.
pub(crate) const MOST: usize = 1024;

/// A character of a pattern, and whether it is plain or follows a backslash.
#[derive(Clone, Copy)]
pub(crate) struct Mark {
    pub(crate) character: char,
    pub(crate) plain: bool,
}

impl Mark {
    /// The mark is a plain dot, which allows every character.
    pub(crate) fn is_wild(self) -> bool
        ensures { result ≡ is_wild (mark_of self) }
    {
        self.plain && self.character == '.'
    }

    /// The mark allows the character.
    pub(crate) fn allows(self, c: char) -> bool
        ensures { result ≡ allows (mark_of self) c }
    {
        self.is_wild() || self.character == c
    }
}

/// A mark, and whether it is repeated.
#[derive(Clone, Copy)]
pub(crate) struct Element {
    pub(crate) mark: Mark,
    pub(crate) repeated: bool,
}

impl Element {
    /// The element that fills a table until the table is written.
    pub(crate) fn filler() -> Element {
        Element {
            mark: Mark {
                character: ' ',
                plain: true,
            },
            repeated: false,
        }
    }
}

/// Takes a mark off the front of the characters.
fn next_mark(rest: &mut Chars<'_>) -> Option<Mark>
    requires { IsUtf8 (chars_rest rest.old) }
    ensures text { IsUtf8 (chars_rest rest.new) }
    ensures mark { MatchOption result (marks_left rest.old ≡ [])
        (λ mark. marks_left rest.old ≡ mark_of mark ∷ marks_left rest.new) }
    ensures shorter { IfSome result (λ mark. length (chars_rest rest.new) < length (chars_rest rest.old)) }
{
    let character = rest.next()?;
    if character != '\\' {
        return Some(Mark {
            character,
            plain: true,
        });
    }
    match rest.next() {
        None => Some(Mark {
            character,
            plain: true,
        }),
        Some(character) => Some(Mark {
            character,
            plain: false,
        }),
    }
}

/// Takes an element off the front of the characters.
pub(crate) fn next_element(rest: &mut Chars<'_>) -> Option<Element>
    requires { IsUtf8 (chars_rest rest.old) }
    ensures text { IsUtf8 (chars_rest rest.new) }
    ensures element { MatchOption result (elements_left rest.old ≡ [])
        (λ element. elements_left rest.old ≡ element_of element ∷ elements_left rest.new) }
    ensures shorter { IfSome result (λ element. length (chars_rest rest.new) < length (chars_rest rest.old)) }
{
    let mark = next_mark(rest)?;
    let repeated = rest.as_str().starts_with('*');
    if repeated {
        rest.next();
    }
    Some(Element { mark, repeated })
}

/// Writes the elements of the pattern into the table, and returns how many there are.
pub(crate) fn read_elements(pattern: &str, elements: &mut [Element]) -> usize
    requires fits { length pattern.now ≤ length elements.old }
    ensures within { result ≤ length elements.new }
    ensures read { map element_of (take result elements.new) ≡ elements_of (marks_of (chars pattern.now)) }
{
    let mut rest = pattern.chars();
    let mut count = 0;
    while let Some(element) = next_element(&mut rest) {
        elements[count] = element;
        count += 1;
    }
    count
}
