use crate::{Filter, List, Text, drop_parts};
use std::fmt;

/// The kind of a component.
#[derive(Clone, Copy, Debug, PartialEq, Eq, Hash)]
pub enum Kind {
    Activity,
    Service,
    Receiver,
}

/// How an activity is launched.
#[derive(Clone, Copy, Debug, PartialEq, Eq)]
pub enum Mode {
    Standard,
    SingleTop,
    SingleTask,
    SingleInstance,
    SingleInstancePerTask,
}

/// A component as its manifest declares it.
pub struct Decl {
    pub kind: Kind,
    /// The full class, with its package.
    pub class: Text,
    /// Whether other apps may reach it.
    pub exported: bool,
    pub enabled: bool,
    /// What a caller from another app must hold.
    pub permission: Option<Text>,
    pub mode: Mode,
    /// The name of the task that it belongs in; empty for none.
    pub affinity: Text,
    /// Each lists an action.
    pub filters: List<Filter>,
}

impl Drop for Decl {
    fn drop(self) {
        drop_parts!(self, Decl: kind class exported enabled permission mode affinity filters);
    }
}

/// What a package declares of itself.
#[derive(Drop)]
pub struct Manifest {
    pub package: Text,
    /// Activities, then services, then receivers, each in the order read.
    pub decls: List<Decl>,
}

/// Why a manifest or a device file is refused. Each but `NotToml` and `BadPriority` names a place or a thing.
#[derive(Debug, Drop)]
pub enum ManifestFault {
    /// It isn't a TOML document in UTF-8.
    NotToml,
    /// A required key is missing, at this place.
    Missing(Text),
    /// A value of another kind, or out of its range, at this place.
    WrongKind(Text),
    /// A scheme that isn't valid, at this place.
    BadUri(Text),
    /// A MIME type that isn't valid, at this place.
    BadMime(Text),
    /// A priority beyond 32 bits.
    BadPriority,
    /// This class has filters, and `exported` isn't stated.
    ExportedUnstated(Text),
    /// This class, package or key is given twice.
    Duplicate(Text),
    /// More of this quantity than its limit.
    OverLimit(Text),
    /// An unknown key, at this place.
    LeftOut(Text),
}

/// As a line shows it: its name, then a space and the place or the thing that it names.
impl fmt::Display for ManifestFault {
    ghost use Rattle.std.specs.Prelude.{Some};
    ghost use Rattle.am_types.specs.Printing.{printed};

    ghost output = { λ fault. Some (printed fault) };

    fn fmt<W: fmt::Write>(&self, f: &mut fmt::Formatter<W>) -> fmt::Result {
        match self {
            ManifestFault::NotToml => f.write_str("not_toml"),
            ManifestFault::Missing(place) => write!(f, "missing {}", place.as_str()),
            ManifestFault::WrongKind(place) => write!(f, "wrong_kind {}", place.as_str()),
            ManifestFault::BadUri(place) => write!(f, "bad_uri {}", place.as_str()),
            ManifestFault::BadMime(place) => write!(f, "bad_mime {}", place.as_str()),
            ManifestFault::BadPriority => f.write_str("bad_priority"),
            ManifestFault::ExportedUnstated(class) => {
                write!(f, "exported_unstated {}", class.as_str())
            }
            ManifestFault::Duplicate(name) => write!(f, "duplicate {}", name.as_str()),
            ManifestFault::OverLimit(name) => write!(f, "over_limit {}", name.as_str()),
            ManifestFault::LeftOut(place) => write!(f, "left_out {}", place.as_str()),
        }
    }
}
