use crate::{ManifestFault, Text};

/// A quantity of the state that has a limit.
#[derive(Clone, Copy, Debug, PartialEq, Eq)]
pub enum Limit {
    Packages,
    Grants,
    Links,
    Registered,
    Broadcasts,
    Receivers,
    Pending,
    Holders,
    Extras,
    Tasks,
    Activities,
    Services,
    Moment,
}

/// Why a request is refused, or a receiver skipped.
#[derive(Drop)]
pub enum Rule {
    /// No uid has this key.
    UnknownKey,
    /// The history has no room for this call.
    HistoryFull,
    /// Only the system and the root may ask this.
    AdminOnly,
    /// No such package is installed.
    NoPackage,
    /// There is no such enabled component of the kind.
    NoComponent,
    /// No activity gets the intent.
    NoActivity,
    /// There is no such activity instance.
    NoInstance,
    /// There is no such delivery.
    NoDelivery,
    /// No such token was ever given.
    NoToken,
    /// No such service, or it isn't running.
    NoService,
    /// There is no such registered receiver.
    NoReceiver,
    /// The component isn't exported, and the caller is another app.
    NotExported,
    /// The caller doesn't hold this permission.
    NeedsPermission(Text),
    /// Only the system and the root may broadcast this action.
    ProtectedAction,
    /// It belongs to another uid.
    NotYours,
    /// The caller holds no such token.
    NotHolder,
    /// Another uid made the token.
    NotCreator,
    /// A service intent must name a component or a package.
    ImplicitService,
    /// A start without a source instance must ask for a new task.
    NeedsNewTask,
    /// Exactly one of mutable and immutable must be given.
    Mutability,
    /// A result or an abort for a delivery that isn't ordered.
    NotOrdered,
    /// The name or the key is in use.
    Installed,
    /// The token was canceled.
    Canceled,
    /// More of this quantity than its limit.
    OverLimit(Limit),
    /// The manifest has this fault.
    BadManifest(ManifestFault),
    /// The row couldn't be kept.
    KeeperFault,
    /// The broadcast is for registered receivers alone, and this one is a manifest's.
    RegisteredOnly,
    /// A manifest's receiver gets no implicit broadcast of this action.
    ManifestImplicit,
    /// The receiver's package is stopped.
    StoppedPackage,
    /// The receiver doesn't hold this permission, which the sender requires.
    ReceiverLacks(Text),
}
