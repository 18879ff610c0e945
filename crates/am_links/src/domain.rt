//! Whether a host is a domain.
ghost use Rattle.std.specs.Prelude.{◌≡◌, not, ◌&&◌, nat_le, chars, codes, length};
ghost use Rattle.std.specs.Char.{is_ascii_digit};
ghost use Rattle.std.specs.List.{list_all};
ghost use Rattle.am_model.specs.Filters.{is_empty};
ghost use Rattle.am_model.specs.Links.{are_domain_parts, is_domain, is_domain_byte, is_domain_part, is_letter, is_octet, is_top_part, parts_of};
ghost use Rattle.am_model.specs.Texts.{begins_with};

/// A letter of any script: each byte beyond ASCII counts as one.
fn is_letter(byte: u8) -> bool
    ensures { result ≡ is_letter byte }
{
    byte.is_ascii_alphabetic() || byte >= 128
}

/// A letter of any script, a digit or a hyphen.
fn is_domain_byte(byte: u8) -> bool
    ensures { result ≡ is_domain_byte byte }
{
    is_letter(byte) || byte.is_ascii_digit() || byte == b'-'
}

/// Letters alone.
fn has_letters_alone(part: &str) -> bool
    ensures { result ≡ list_all is_letter part.now }
{
    part.bytes().all(|byte| is_letter(byte))
}

/// What a domain's name may have, alone.
fn has_domain_bytes_alone(part: &str) -> bool
    ensures { result ≡ list_all is_domain_byte part.now }
{
    part.bytes().all(|byte| is_domain_byte(byte))
}

/// Digits alone.
fn has_digits_alone(part: &str) -> bool
    ensures { result ≡ list_all is_ascii_digit part.now }
{
    part.bytes().all(|byte| byte.is_ascii_digit())
}

/// A part of a domain's name.
fn is_domain_part(part: &str) -> bool
    ensures { result ≡ is_domain_part part.now }
{
    !part.is_empty() && has_domain_bytes_alone(part)
}

/// Written in ASCII for letters of another script.
fn is_rewritten(part: &str) -> bool
    ensures { result ≡ begins_with part.now (codes "xn--") }
{
    part.starts_with("xn--")
}

/// Two characters or more.
fn has_two_characters(part: &str) -> bool
    ensures { result ≡ nat_le 2 (length (chars part.now)) }
{
    part.chars().count() >= 2
}

/// The last part of a domain's name: two letters or more, or one that is written in ASCII for letters of another script.
fn is_top_part(part: &str) -> bool
    ensures { result ≡ is_top_part part.now }
{
    has_two_characters(part) && has_letters_alone(part) || is_rewritten(part)
}

/// The parts between the dots are those of a domain's name.
fn are_domain_parts(host: &str) -> bool
    ensures { result ≡ are_domain_parts (parts_of host.now) }
{
    let mut rest = host;
    while let Some((part, others)) = rest.split_once('.') {
        if !is_domain_part(part) {
            return false;
        }
        rest = others;
    }
    is_domain_part(rest) && is_top_part(rest)
}

/// Digits alone, from one to three of them.
fn is_short_number(part: &str) -> bool
    ensures { result ≡ ((not (is_empty part.now) && nat_le (length part.now) 3) && list_all is_ascii_digit part.now) }
{
    !part.is_empty() && part.len() <= 3 && has_digits_alone(part)
}

/// A number from 0 to 255 of at most three digits.
fn is_octet(part: &str) -> bool
    ensures { result ≡ is_octet part.now }
{
    is_short_number(part) && part.parse::<u8>().is_ok()
}

/// Each part between the dots is such a number.
fn are_octets(host: &str) -> bool
    ensures { result ≡ list_all is_octet (parts_of host.now) }
{
    host.split('.').all(is_octet)
}

/// How many parts there are between the dots.
fn count_parts(host: &str) -> usize
    ensures { result ≡ length (parts_of host.now) }
{
    host.split('.').count()
}

/// A domain's name of at least two parts, or an IPv4 address.
pub(crate) fn is_domain(host: &str) -> bool
    ensures { result ≡ is_domain host.now }
{
    let parts = count_parts(host);
    parts >= 2 && are_domain_parts(host) || parts == 4 && are_octets(host)
}
