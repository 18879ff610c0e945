ghost use Rattle.std.specs.Prelude.{◌≡◌, IfOk};

use crate::{Answer, Component, Filter, Intent, Kind, Ordered, PendingFlags, Text, copies};
use std::alloc::AllocError;

/// What a caller asks of the manager.
#[derive(Drop)]
pub enum Request {
    /// Which components would get the intent. With `default_only` their filters must list the default category.
    Query {
        kind: Kind,
        intent: Intent,
        default_only: bool,
    },
    /// Who the intent would reach as a start with NEW_TASK and without a source, a start of a service or a normal
    /// broadcast, component by component, and why it doesn't reach the others. The package calls, if `caller` names
    /// one; only the package's components are told, if `shown` names one.
    Explain {
        kind: Kind,
        intent: Intent,
        caller: Option<Text>,
        permission: Option<Text>,
        shown: Option<Text>,
    },
    /// Starts the activity that the intent finds, from an activity instance if one is named.
    Start {
        intent: Intent,
        source: Option<u64>,
    },
    /// Ends an activity instance.
    FinishActivity {
        instance: u64,
    },
    /// Ends the activity instance that the user sees.
    Back,
    /// The caller's tasks, from front to back.
    ListTasks,
    /// Starts the service that the intent finds.
    StartService {
        intent: Intent,
    },
    /// Stops a running service.
    StopService {
        component: Component,
    },
    /// The caller's running services.
    Services,
    /// Broadcasts the intent, to receivers that hold the permission, if one is named.
    Send {
        intent: Intent,
        permission: Option<Text>,
        ordered: Option<Ordered>,
    },
    /// Registers a receiver for broadcasts that pass the filter, of senders that hold the permission.
    Register {
        filter: Filter,
        permission: Option<Text>,
    },
    /// Unregisters a receiver.
    Unregister {
        number: u64,
    },
    /// The caller's deliveries and results.
    Inbox,
    /// Finishes a delivery or takes a result.
    Finish {
        delivery: u64,
        answer: Answer,
    },
    /// Asks for the token of a pending intent.
    PendingGet {
        kind: Kind,
        code: i64,
        intent: Intent,
        flags: PendingFlags,
    },
    /// Sends a pending intent: does what its token stands for, as its creator.
    PendingSend {
        token: u64,
        fill: Option<Intent>,
    },
    /// Cancels a token.
    PendingCancel {
        token: u64,
    },
    /// Gives a token to a package.
    PendingGive {
        token: u64,
        package: Text,
    },
    /// Installs the package that the manifest's text describes, with a key for its calls.
    Install {
        text: Text,
        key: Text,
    },
    /// Removes a package.
    Uninstall {
        package: Text,
    },
    /// Gives a package a permission, or takes it.
    Grant {
        package: Text,
        permission: Text,
        held: bool,
    },
    /// Approves a package for the web links of a host, or withdraws that. The host is in lower ASCII case.
    Link {
        package: Text,
        host: Text,
        approved: bool,
    },
    /// Stops a package and all that it has.
    ForceStop {
        package: Text,
    },
    /// Lets time pass.
    Tick,
    /// Moves the manager's moment this many milliseconds ahead of the call's own.
    Advance {
        by: u64,
    },
    /// The stored calls from this number on.
    History {
        from: u64,
    },
    /// The length of the history, the moment, and the number of packages.
    Status,
}

// A copy of a broadcast to be sent, of whose parts the start of an ordered one is left to be copied.
fn send_copy(
    intent: Intent,
    permission: Option<Text>,
    ordered: &Option<Ordered>,
) -> Result<Request, AllocError>
    ensures { IfOk result (λ copy. copy ≡ Request.Send intent permission ordered.now) }
{
    match copies::option(ordered) {
        Ok(ordered) => Ok(Request::Send {
            intent,
            permission,
            ordered,
        }),
        Err(error) => {
            drop(intent);
            drop(permission);
            Err(error)
        }
    }
}

/// A copy of a value by the fields of its variant, as `copy_parts` makes one of a struct: the body of a `clone` that
/// gives an equal value. The arms of the other variants are written out behind it.
macro_rules! copy_variants {
    ($value:ident, $kind:ident {
        $($variant:ident: $($how:ident($($field:ident)*))* $(; $($same:ident)*)?,)*
    }, { $($other:tt)* }) => {
        match $value {
            $($kind::$variant { $($($field,)*)* $($($same,)*)? } => Ok($kind::$variant {
                $($($field: copies::$how($field)?,)*)*
                $($($same: *$same,)*)?
            }),)*
            $($other)*
        }
    };
}

impl Clone for Request {
    ghost is_clone = { λ x y. y ≡ x };

    fn clone(&self) -> Result<Request, AllocError> {
        copy_variants!(self, Request {
            Query: value(intent); kind default_only,
            Explain: option(caller permission shown) value(intent); kind,
            Start: value(intent); source,
            FinishActivity: ; instance,
            StartService: value(intent),
            StopService: value(component),
            Register: option(permission) value(filter),
            Unregister: ; number,
            Finish: value(answer); delivery,
            PendingGet: value(intent); kind code flags,
            PendingSend: option(fill); token,
            PendingCancel: ; token,
            PendingGive: value(package); token,
            Install: value(text key),
            Uninstall: value(package),
            Grant: value(package permission); held,
            Link: value(package host); approved,
            ForceStop: value(package),
            Advance: ; by,
            History: ; from,
        }, {
            Request::Send {
                intent,
                permission,
                ordered,
            } => {
                let permission = copies::option(permission)?;
                send_copy(intent.clone()?, permission, ordered)
            }
            Request::Back => Ok(Request::Back),
            Request::ListTasks => Ok(Request::ListTasks),
            Request::Services => Ok(Request::Services),
            Request::Inbox => Ok(Request::Inbox),
            Request::Tick => Ok(Request::Tick),
            Request::Status => Ok(Request::Status),
        })
    }
}
