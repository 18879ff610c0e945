//! Schemes of URIs.
ghost use Rattle.std.specs.Prelude.{◌≡◌};
ghost use Rattle.std.specs.List.{list_all};
ghost use Rattle.am_model.specs.Uris.{is_scheme, is_scheme_byte};

/// Whether the text is a scheme: an ASCII letter, and then letters, digits, `+`, `-` and `.` (RFC
/// 3986, section 3.1). Takes no memory.
pub fn is_scheme(text: &str) -> bool
    ensures { result ≡ is_scheme text.now }
{
    match text.as_bytes() {
        [first, others @ ..] => first.is_ascii_alphabetic() && has_scheme_bytes(others),
        [] => false,
    }
}

fn has_scheme_bytes(bytes: &[u8]) -> bool
    ensures { result ≡ list_all is_scheme_byte bytes.now }
{
    bytes.iter().all(|b| is_scheme_byte(*b))
}

fn is_scheme_byte(b: u8) -> bool
    ensures { result ≡ is_scheme_byte b }
{
    b.is_ascii_alphanumeric() || b == b'+' || b == b'-' || b == b'.'
}
