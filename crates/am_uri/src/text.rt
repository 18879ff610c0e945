//! The forms of texts and names, and sets of texts.
ghost use Rattle.std.specs.Prelude.{◌≡◌, IfOk};
ghost use Rattle.am_model.specs.Sound.{has_slash, starts_with_dot, is_visible, is_name, is_package_name, is_access_key};
ghost use Rattle.am_uri.specs.Texts.{fits, sorted_texts, with_optional};

use am_types::{List, Text};
use std::alloc::{AllocError, Global};
use std::collections::BTreeSet;

/// The form that a text must have.
#[derive(Clone, Copy)]
pub enum Form {
    /// Any text.
    Any,
    /// Any text except the empty one.
    Filled,
    /// The name of a class: not empty, and without `/`.
    Class,
    /// The name of a package: like the name of a class, and without a dot at its start.
    PackageName,
    /// The name of a caller: 1 to 255 bytes from 0x21 to 0x7E.
    AccessKey,
}

impl Form {
    /// Whether the text has this form.
    pub fn fits(self, text: &str) -> bool
        ensures { result ≡ fits self text.now }
    {
        match self {
            Form::Any => true,
            Form::Filled => !text.is_empty(),
            Form::Class => is_name(text),
            Form::PackageName => is_package_name(text),
            Form::AccessKey => is_access_key(text),
        }
    }
}

fn has_slash(text: &str) -> bool
    ensures { result ≡ has_slash text.now }
{
    text.as_bytes().iter().any(|b| *b == b'/')
}

/// Whether each byte is a visible ASCII character: from 0x21 to 0x7E.
pub fn is_visible(text: &str) -> bool
    ensures { result ≡ is_visible text.now }
{
    text.as_bytes().iter().all(|b| *b >= 33 && *b <= 126)
}

fn is_name(text: &str) -> bool
    ensures { result ≡ is_name text.now }
{
    if text.is_empty() {
        return false;
    }
    !has_slash(text)
}

/// Whether the first byte is a dot.
pub fn starts_with_dot(text: &str) -> bool
    ensures { result ≡ starts_with_dot text.now }
{
    match text.as_bytes() {
        [first, ..] => *first == b'.',
        [] => false,
    }
}

fn is_package_name(text: &str) -> bool
    ensures { result ≡ is_package_name text.now }
{
    if starts_with_dot(text) {
        return false;
    }
    is_name(text)
}

fn is_access_key(text: &str) -> bool
    ensures { result ≡ is_access_key text.now }
{
    if text.is_empty() {
        return false;
    }
    if text.len() > 255 {
        return false;
    }
    is_visible(text)
}

/// The texts, with one more, if there is one.
pub fn with_optional(
    texts: BTreeSet<Text>,
    text: Option<Text>,
) -> Result<BTreeSet<Text>, AllocError>
    ensures { IfOk result (λ all. all.keys ≡ with_optional texts.keys text) }
{
    let mut texts = texts;
    if let Some(text) = text {
        texts.insert(text)?;
    }
    Ok(texts)
}

/// The texts sorted by bytes, each once.
pub fn sorted(alloc: Global, texts: Vec<Text>) -> Result<List<Text>, AllocError>
    ensures { IfOk result (λ sorted. sorted ≡ sorted_texts texts.items) }
{
    let mut set = BTreeSet::new(alloc);
    for text in texts {
        set.insert(text)?;
    }
    Ok(List::new(set.into_iter().collect(alloc)?))
}
