//! What the rows of trials spell out: bytes, and the frames of a session with its responses; and a device for them.
#![tactic(auto)]

mod bytes;
mod sessions;

pub use self::bytes::spelled_out;
pub use self::sessions::{Exchanged, push_frame, session_of};

/// A device whose packages declare nothing.
pub const EMPTY: &str = "
system_key = 'sys'
package = [
    { key = 'k1', manifest = { package = 'com.one' } },
    { key = 'k2', manifest = { package = 'com.two' } },
]";
