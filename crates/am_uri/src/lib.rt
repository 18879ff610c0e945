//! URIs and MIME types, taken apart, rules on paths, and the forms of texts and names.
#![tactic(auto)]

mod bits;
mod matching;
mod mime;
mod path;
mod pattern;
mod phone;
mod pieces;
mod places;
mod rows;
mod scheme;
mod text;
mod units;
mod uri;

pub use am_types::{MimeFault, UriFault};
pub use mime::parse_mime;
pub use path::passes_path;
pub use scheme::is_scheme;
pub use text::{Form, is_visible, sorted, starts_with_dot, with_optional};
pub use uri::parse_uri;
