//! Connections of HTTP/1.x: each frame, what it is answered, and the bytes of the answer.
#![tactic(auto)]

mod answer;
mod buffers;
mod connection;
mod end;
mod reader;
mod response;
mod send;
mod window;

pub use answer::{Refusal, key_text, request_of};
pub use buffers::Buffers;
pub use connection::{MAX_FRAMES, serve_connection, serve_link};
pub use end::{End, Served};
pub use response::{
    NO_MEMORY_ROOM, defect_bytes, no_memory_before, put_no_memory_at, refusal_bytes, response_bytes,
};
pub use send::{refusal_text, write_all};
