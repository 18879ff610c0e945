//! The request that a body makes at an endpoint.
ghost use Rattle.serde_json.specs.View.{view};
ghost use Rattle.am_types.specs.Reading.{Gives};
ghost use Rattle.am_wire.specs.Requests.{request_in, posted, request_of};

use crate::accounts::explain_in;
use crate::activities::{
    advance_in, number_in, plain_in, query_in, start_in, start_service_in, stop_service_in,
};
use crate::broadcasts::{finish_in, register_in, send_in};
use crate::packages::{grant_in, install_in, link_in, package_in};
use crate::pendings::{pending_get_in, pending_give_in, pending_send_in};
use am_types::Request;
use am_wire_fields::{Unread, json_value};
use am_wire_routes::Endpoint;
use serde_json::Value;
use std::alloc::Global;

/// The request that a JSON value makes at an endpoint.
#[tactic(auto, unfolding(crate::specs::Requests::request_in))]
fn request_in(alloc: Global, endpoint: Endpoint, body: &Value) -> Result<Request, Unread>
    ensures { Gives result (request_in endpoint (view body.now)) }
{
    match endpoint {
        Endpoint::Query => query_in(alloc, body),
        Endpoint::Explain => explain_in(alloc, body),
        Endpoint::Start => start_in(alloc, body),
        Endpoint::FinishActivity => Ok(Request::FinishActivity {
            instance: number_in(alloc, "instance", body)?,
        }),
        Endpoint::Back => plain_in(alloc, Request::Back, body),
        Endpoint::ListTasks => Ok(Request::ListTasks),
        Endpoint::StartService => start_service_in(alloc, body),
        Endpoint::StopService => stop_service_in(alloc, body),
        Endpoint::Services => Ok(Request::Services),
        Endpoint::Send => send_in(alloc, body),
        Endpoint::Register => register_in(alloc, body),
        Endpoint::Unregister => Ok(Request::Unregister {
            number: number_in(alloc, "number", body)?,
        }),
        Endpoint::Inbox => Ok(Request::Inbox),
        Endpoint::Finish => finish_in(alloc, body),
        Endpoint::PendingGet => pending_get_in(alloc, body),
        Endpoint::PendingSend => pending_send_in(alloc, body),
        Endpoint::PendingCancel => Ok(Request::PendingCancel {
            token: number_in(alloc, "token", body)?,
        }),
        Endpoint::PendingGive => pending_give_in(alloc, body),
        Endpoint::Install => install_in(alloc, body),
        Endpoint::Uninstall => Ok(Request::Uninstall {
            package: package_in(alloc, body)?,
        }),
        Endpoint::Grant => grant_in(alloc, body),
        Endpoint::Link => link_in(alloc, body),
        Endpoint::ForceStop => Ok(Request::ForceStop {
            package: package_in(alloc, body)?,
        }),
        Endpoint::Tick => plain_in(alloc, Request::Tick, body),
        Endpoint::Advance => advance_in(alloc, body),
        Endpoint::History => Ok(Request::History {
            from: number_in(alloc, "from", body)?,
        }),
        Endpoint::Status => Ok(Request::Status),
    }
}

/// The request that the bytes of a body make through their JSON value.
#[tactic(auto, unfolding(crate::specs::Requests::posted))]
fn posted(alloc: Global, endpoint: Endpoint, body: &[u8]) -> Result<Request, Unread>
    ensures { Gives result (posted endpoint body.now) }
{
    let value = json_value(alloc, body)?;
    request_in(alloc, endpoint, &value)
}

/// The request that a body makes at an endpoint.
///
/// At `ListTasks`, `Services`, `Inbox` and `Status` the body isn't looked at. At every other endpoint it is the UTF-8
/// text of a JSON object with these fields and no others; those marked `?` are optional:
///
/// | Endpoint | Fields, in the order in which they are read |
/// |---|---|
/// | `Query` | `kind` (`activity`, `service` or `receiver`), `intent`, `defaultOnly`? |
/// | `Explain` | `kind` (the same), `intent`, `as`?; if `kind` is `receiver` also `permission`?; then `of`? |
/// | `Start` | `intent`, `source`? |
/// | `FinishActivity` | `instance` |
/// | `Back`, `Tick` | none |
/// | `StartService` | `intent` |
/// | `StopService` | `component` |
/// | `Send` | `intent`, `permission`?, `ordered`?; if `ordered` is true also `code`?, `data`?, `extras`?, `result`? |
/// | `Register` | `filter`, `permission`? |
/// | `Unregister` | `number` |
/// | `Finish` | `delivery`, `abort`?, `code`?; if `code` is present also `data`?, `extras`? |
/// | `PendingGet` | `kind` (`activity`, `broadcast` or `service`), `code`, `intent`, `flags` |
/// | `PendingSend` | `token`, `fill`? |
/// | `PendingCancel` | `token` |
/// | `PendingGive` | `token`, `package` |
/// | `Install` | `manifest`, `key` |
/// | `Uninstall`, `ForceStop` | `package` |
/// | `Grant` | `package`, `permission`, `held` |
/// | `Link` | `package`, `host`, `approved` |
/// | `Advance` | `by` |
/// | `History` | `from` |
///
/// `source`, `instance`, `number`, `delivery`, `token` and `from` are whole numbers from 0 to
/// 18,446,744,073,709,551,615, `by` is one from 0 to 1,125,899,906,842,624, and `code` is one from
/// -9,223,372,036,854,775,808 to 9,223,372,036,854,775,807, 0 if an ordered broadcast has none. `defaultOnly`,
/// `ordered`, `result`, `abort`, `held` and `approved` are booleans, false if they are absent. `as`, `permission`,
/// `of`, `data`, `package` and `host` are texts of at most 1,024 bytes, `manifest` is one of at most 65,536, and `key`
/// has 1 to 255 visible ASCII characters. `flags` lists at most 64 names of pending flags. A host is put in lower case
/// (ASCII). A field that is `null` counts as absent, and if a key occurs twice in an object, the last value counts.
///
/// # Errors
///
/// `Unmade::Fault` with the first fault, in this order: the body isn't JSON text in UTF-8; it isn't an object (the name
/// in that fault is `body`); it has a key that isn't one of its fields, the least one by bytes; and then the first
/// fault of its fields, in the order above. `Unmade::NoMemory` if memory ran out.
#[tactic(auto, unfolding(crate::specs::Requests::request_of))]
pub fn read_request(alloc: Global, endpoint: Endpoint, body: &[u8]) -> Result<Request, Unread>
    ensures { Gives result (request_of endpoint body.now) }
{
    let request = match endpoint {
        Endpoint::ListTasks => Request::ListTasks,
        Endpoint::Services => Request::Services,
        Endpoint::Inbox => Request::Inbox,
        Endpoint::Status => Request::Status,
        _ => return posted(alloc, endpoint, body),
    };
    Ok(request)
}
