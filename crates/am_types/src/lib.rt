//! The values that the activity manager works with.
#![tactic(auto)]

mod account;
mod broadcast;
mod clones;
pub mod copies;
mod device;
mod failure;
mod filter;
mod glob;
mod history;
mod intent;
mod list;
mod macros;
mod manifest;
mod pending;
mod reply;
mod request;
mod resolve;
mod rule;
mod steps;
mod task;
mod text;
mod uids;
mod uri;
mod visible;

pub use account::{Account, Narrowing, Standing};
pub use broadcast::{
    Aim, Answer, FinishFault, Item, ItemKind, Ordered, Outcome, Receiving, SendFault, Sending, Spot,
};
pub use device::{Device, Grant, Link, Package, RightKind, Rules};
pub use failure::{NoMemory, Unmade};
pub use filter::{Authority, FillFault, Filter, PathRule, Why};
pub use glob::Glob;
pub use history::{Entry, Shown};
pub use intent::{Component, Extra, Flags, Intent, Named};
pub use list::List;
pub use manifest::{Decl, Kind, Manifest, ManifestFault, Mode};
pub use pending::{PendingFault, PendingFlags, Used};
pub use reply::Reply;
pub use request::Request;
pub use resolve::{Candidate, Finding, Hit, Registration, Target};
pub use rule::{Limit, Rule};
pub use steps::Steps;
pub use task::{
    InstanceView, Landed, PlaceFault, Placed, ServiceView, StartCall, TaskFault, TaskView,
};
pub use text::Text;
pub use uids::{ROOT, SYSTEM};
pub use uri::{Mime, MimeFault, Uri, UriFault, UriParts};
pub use visible::{Queries, Signature};
