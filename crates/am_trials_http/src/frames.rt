//! Keys of frames that no package has, so that no answer shows them.
use am_frames::frame::{Framing, frame};

const WITH_A_BLANK: &[u8] = b"GET / HTTP/1.1\r\nam-key:\t a b \r\nAM-Key: c\r\n\r\n";

const NO_UTF_8: &[u8] = b"GET / HTTP/1.1\r\nAM-Key: \xff\r\nAM-Key: c\r\n\r\n";

const NO_ASCII: &[u8] = b"GET / HTTP/1.1\r\nAM-Key: \xc3\xa9\r\n\r\n";

/// The key of the frame that these bytes are.
fn key_of(bytes: &[u8]) -> &[u8] {
    match frame(bytes) {
        Framing::Whole(whole) => whole.key,
        _ => b"no frame".as_slice(),
    }
}

#[test]
fn keys_that_no_package_has(rt: HostRuntime) {
    assert_eq!(rt; key_of(WITH_A_BLANK), b"a b".as_slice());
    assert_eq!(rt; key_of(NO_UTF_8), b"".as_slice());
    assert_eq!(rt; key_of(NO_ASCII), b"\xc3\xa9".as_slice());
}
