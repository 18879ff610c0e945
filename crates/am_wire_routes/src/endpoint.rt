ghost use Rattle.std.specs.Prelude.{◌≡◌, Ok};
ghost use Rattle.am_wire_routes.specs.Table.{endpoint_for, endpoint_of, method_of, path_of};

use am_types::Request;
use http::Method;

/// A request that the interface answers.
#[derive(Clone, Copy, Debug, PartialEq, Eq)]
pub enum Endpoint {
    /// `POST /v1/query`.
    Query,
    /// `POST /v1/explain`.
    Explain,
    /// `POST /v1/start`.
    Start,
    /// `POST /v1/finish_activity`.
    FinishActivity,
    /// `POST /v1/back`.
    Back,
    /// `GET /v1/tasks`.
    ListTasks,
    /// `POST /v1/start_service`.
    StartService,
    /// `POST /v1/stop_service`.
    StopService,
    /// `GET /v1/services`.
    Services,
    /// `POST /v1/send`.
    Send,
    /// `POST /v1/register`.
    Register,
    /// `POST /v1/unregister`.
    Unregister,
    /// `GET /v1/inbox`.
    Inbox,
    /// `POST /v1/finish`.
    Finish,
    /// `POST /v1/pending/get`.
    PendingGet,
    /// `POST /v1/pending/send`.
    PendingSend,
    /// `POST /v1/pending/cancel`.
    PendingCancel,
    /// `POST /v1/pending/give`.
    PendingGive,
    /// `POST /v1/install`.
    Install,
    /// `POST /v1/uninstall`.
    Uninstall,
    /// `POST /v1/grant`.
    Grant,
    /// `POST /v1/link`.
    Link,
    /// `POST /v1/force_stop`.
    ForceStop,
    /// `POST /v1/tick`.
    Tick,
    /// `POST /v1/advance`.
    Advance,
    /// `POST /v1/history`.
    History,
    /// `GET /v1/status`.
    Status,
}

impl Endpoint {
    /// Every request, in the order of the variants.
    pub const ALL: [Endpoint; 27] = [
        Endpoint::Query,
        Endpoint::Explain,
        Endpoint::Start,
        Endpoint::FinishActivity,
        Endpoint::Back,
        Endpoint::ListTasks,
        Endpoint::StartService,
        Endpoint::StopService,
        Endpoint::Services,
        Endpoint::Send,
        Endpoint::Register,
        Endpoint::Unregister,
        Endpoint::Inbox,
        Endpoint::Finish,
        Endpoint::PendingGet,
        Endpoint::PendingSend,
        Endpoint::PendingCancel,
        Endpoint::PendingGive,
        Endpoint::Install,
        Endpoint::Uninstall,
        Endpoint::Grant,
        Endpoint::Link,
        Endpoint::ForceStop,
        Endpoint::Tick,
        Endpoint::Advance,
        Endpoint::History,
        Endpoint::Status,
    ];

    /// The path that asks for the request. Takes no memory.
    #[tactic(auto, using(crate::proofs::Paths::own_route))]
    pub fn path(self) -> &'static str
        ensures path { result.now ≡ path_of self }
        ensures listed { endpoint_of (method_of self) result.now ≡ Ok self }
    {
        let (_, path) = self.line();
        path
    }

    /// The one method that asks for the request. Takes no memory.
    pub fn method(self) -> Method
        ensures { result ≡ method_of self }
    {
        let (method, _) = self.line();
        method
    }

    // The method and the path that ask for the request.
    fn line(self) -> (Method, &'static str)
        ensures method { result.0 ≡ method_of self }
        ensures path { result.1.now ≡ path_of self }
    {
        match self {
            Endpoint::Query => (Method::POST, "/v1/query"),
            Endpoint::Explain => (Method::POST, "/v1/explain"),
            Endpoint::Start => (Method::POST, "/v1/start"),
            Endpoint::FinishActivity => (Method::POST, "/v1/finish_activity"),
            Endpoint::Back => (Method::POST, "/v1/back"),
            Endpoint::ListTasks => (Method::GET, "/v1/tasks"),
            Endpoint::StartService => (Method::POST, "/v1/start_service"),
            Endpoint::StopService => (Method::POST, "/v1/stop_service"),
            Endpoint::Services => (Method::GET, "/v1/services"),
            Endpoint::Send => (Method::POST, "/v1/send"),
            Endpoint::Register => (Method::POST, "/v1/register"),
            Endpoint::Unregister => (Method::POST, "/v1/unregister"),
            Endpoint::Inbox => (Method::GET, "/v1/inbox"),
            Endpoint::Finish => (Method::POST, "/v1/finish"),
            Endpoint::PendingGet => (Method::POST, "/v1/pending/get"),
            Endpoint::PendingSend => (Method::POST, "/v1/pending/send"),
            Endpoint::PendingCancel => (Method::POST, "/v1/pending/cancel"),
            Endpoint::PendingGive => (Method::POST, "/v1/pending/give"),
            Endpoint::Install => (Method::POST, "/v1/install"),
            Endpoint::Uninstall => (Method::POST, "/v1/uninstall"),
            Endpoint::Grant => (Method::POST, "/v1/grant"),
            Endpoint::Link => (Method::POST, "/v1/link"),
            Endpoint::ForceStop => (Method::POST, "/v1/force_stop"),
            Endpoint::Tick => (Method::POST, "/v1/tick"),
            Endpoint::Advance => (Method::POST, "/v1/advance"),
            Endpoint::History => (Method::POST, "/v1/history"),
            Endpoint::Status => (Method::GET, "/v1/status"),
        }
    }
}

/// The endpoint for this request. Takes no memory.
pub fn endpoint_of(request: &Request) -> Endpoint
    ensures { result ≡ endpoint_for request.now }
{
    match request {
        Request::Query { .. } => Endpoint::Query,
        Request::Explain { .. } => Endpoint::Explain,
        Request::Start { .. } => Endpoint::Start,
        Request::FinishActivity { .. } => Endpoint::FinishActivity,
        Request::Back => Endpoint::Back,
        Request::ListTasks => Endpoint::ListTasks,
        Request::StartService { .. } => Endpoint::StartService,
        Request::StopService { .. } => Endpoint::StopService,
        Request::Services => Endpoint::Services,
        Request::Send { .. } => Endpoint::Send,
        Request::Register { .. } => Endpoint::Register,
        Request::Unregister { .. } => Endpoint::Unregister,
        Request::Inbox => Endpoint::Inbox,
        Request::Finish { .. } => Endpoint::Finish,
        Request::PendingGet { .. } => Endpoint::PendingGet,
        Request::PendingSend { .. } => Endpoint::PendingSend,
        Request::PendingCancel { .. } => Endpoint::PendingCancel,
        Request::PendingGive { .. } => Endpoint::PendingGive,
        Request::Install { .. } => Endpoint::Install,
        Request::Uninstall { .. } => Endpoint::Uninstall,
        Request::Grant { .. } => Endpoint::Grant,
        Request::Link { .. } => Endpoint::Link,
        Request::ForceStop { .. } => Endpoint::ForceStop,
        Request::Tick => Endpoint::Tick,
        Request::Advance { .. } => Endpoint::Advance,
        Request::History { .. } => Endpoint::History,
        Request::Status => Endpoint::Status,
    }
}
