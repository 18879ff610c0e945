use crate::{Glob, List, Mime, Text, drop_parts};

/// A host, and the port that goes with it, as a filter lists them.
#[derive(Drop)]
pub struct Authority {
    pub host: Text,
    /// From 0 to 99,999.
    pub port: Option<u32>,
}

/// A rule on the decoded path of a URI.
#[derive(Drop)]
pub enum PathRule {
    /// The path is this text.
    Literal(Text),
    /// The path starts with this text.
    Prefix(Text),
    /// The path ends with this text.
    Suffix(Text),
    /// The path matches this pattern.
    Pattern(Glob),
}

/// An intent filter: what a component, or a registered receiver, is willing to receive.
pub struct Filter {
    /// Sorted by bytes, each once.
    pub actions: List<Text>,
    /// Sorted by bytes, each once.
    pub categories: List<Text>,
    /// Sorted by bytes, each once.
    pub schemes: List<Text>,
    /// In the order read, repeats included.
    pub authorities: List<Authority>,
    /// In the order read, repeats included.
    pub paths: List<PathRule>,
    /// In the order read, repeats included.
    pub types: List<Mime>,
    pub priority: i32,
}

impl Drop for Filter {
    fn drop(self) {
        drop_parts!(self, Filter: actions categories schemes authorities paths types priority);
    }
}

/// Why an intent doesn't pass a filter: the first test that fails, in this order.
#[derive(Clone, Copy, Debug, PartialEq, Eq)]
pub enum Why {
    Action,
    Scheme,
    Host,
    Path,
    /// The MIME type.
    Type_,
    Category,
}

/// Why an intent isn't filled in.
#[derive(Clone, Copy, Debug, PartialEq, Eq)]
pub enum FillFault {
    /// There would be more than 64 extras.
    ExtrasFull,
    NoMemory,
}
