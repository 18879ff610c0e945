//! Package visibility: which packages an app sees through the queries of its manifest, which components of a query it
//! sees, and the answer to an app's question about a device.
#![tactic(auto)]

mod answers;
mod fault;
mod meeting;
mod question;
mod reply;
mod seeing;
mod shown;

pub use answers::{answer, answer_file};
pub use fault::VisibleFault;
pub use meeting::meets;
pub use seeing::sees;
pub use shown::visible;
