//! All running services, in the order of their first start.
ghost use Rattle.std.specs.Prelude.{◌≡◌, ◌+◌, ◌<◌, ◌≤◌, ◌||◌, ◌==◌, not, filter, slice_set, List as Items, [], All, IfOk, OnOk, OnErr, is_some, option_copied, vec_len};
ghost use Rattle.std.specs.List.{position, HoldsAt};
ghost use Rattle.am_types.specs.Bounds.{greatest_number};
ghost use Rattle.am_model.specs.Gates.{is_privileged};
ghost use Rattle.am_history.specs.State.{Service};
ghost use Rattle.am_history.specs.Services.{is_service, is_too_many, running, services_of, starts_with, view_of, with_start};
ghost use Rattle.am_services.specs.Apart.{again, fresh};

use am_types::{Component, Intent, List, NoMemory, ServiceView, drop_parts};
use std::alloc::{AllocError, Global};
use std::marker::Model;

/// The greatest number of services that can run.
const MOST: usize = 256;

/// A running service.
#[derive(Drop)]
struct Running {
    component: Component,
    owner: u32,
    intent: Intent,
    starts: u64,
}

impl Model for Running {
    ghost Value = { Service };

    ghost view = { λ r. record { component = r.component; owner = r.owner; intent = r.intent; starts = r.starts } };
}

/// All running services, in the order of their first start. It keeps the allocator for later calls.
pub struct Services {
    alloc: Global,
    running: Vec<Running>,
}

impl Drop for Services {
    fn drop(self) {
        drop_parts!(self, Services: alloc running);
    }
}

impl Model for Services {
    ghost use Rattle.std.specs.Prelude.{List as Items, IsTrue};
    ghost use Rattle.am_history.specs.State.{Service};
    ghost use Rattle.am_services.specs.Apart.{are_apart};

    ghost Value = { Items Service };

    ghost view = { λ s. s.running.items };

    // This makes sure that a start changes at most one service.
    ghost invariant = { λ s. IsTrue (are_apart s.running.items) };
}

impl Services {
    /// No running services. Takes no memory.
    pub fn new(alloc: Global) -> Services
        ensures { result ≡ [] }
    {
        Services {
            alloc,
            running: Vec::new(alloc),
        }
    }

    /// The services that the caller sees, in the order of their first start: its own, or all if it is the
    /// system or the root.
    pub fn views(&self, caller: u32) -> Result<List<ServiceView>, NoMemory>
        ensures { IfOk result (λ shown. shown ≡ services_of self.now caller) }
    {
        views(self.alloc, &self.running, caller)
    }

    /// Whether the component's service runs. Takes no memory.
    pub fn runs(&self, component: &Component) -> bool
        ensures { result ≡ is_some (running self.now component.now) }
    {
        find(&self.running, component).is_some()
    }

    /// Whether 256 services run, and the component's isn't one of them. Takes no memory.
    pub fn is_full_for(&self, component: &Component) -> bool
        ensures { result ≡ is_too_many self.now (running self.now component.now) }
    {
        !self.runs(component) && self.running.len() >= MOST
    }

    /// Starts the component's service with the intent: once more if it runs, else as a new service of
    /// the owner, after the others. Returns how often it was started since it began to run. After
    /// `NoMemory` the services are as before.
    pub fn start(
        &mut self,
        component: &Component,
        owner: u32,
        intent: &Intent,
    ) -> Result<u64, NoMemory>
        requires { All (λ (service : Service). service.starts ≤ greatest_number) self.old }
        ensures starts { IfOk result (λ starts. starts ≡ starts_with (running self.old component.now)) }
        ensures started { OnOk result (self.new
            ≡ with_start self.old component.now owner intent.now (running self.old component.now)) }
        ensures same { OnErr result (self.new ≡ self.old) }
    {
        match place_of(&self.running, component) {
            Some(place) => {
                let intent = intent.clone()?;
                Ok(start_again(&mut self.running, place, intent))
            }
            None => {
                let service = fresh(component, owner, intent)?;
                self.running.push(service)?;
                Ok(1)
            }
        }
    }

    /// Stops the component's service, if it runs. Takes no memory.
    pub fn stop(&mut self, component: &Component)
        ensures { self.new ≡ filter (λ service. not (is_service component.now service)) self.old }
    {
        self.running
            .retain(|service| !is_service(component, service));
    }

    /// Stops the services of a uid. Takes no memory.
    pub fn forget_uid(&mut self, uid: u32)
        ensures { self.new ≡ filter (λ (service : Service). not (service.owner == uid)) self.old }
    {
        self.running.retain(|service| service.owner != uid);
    }
}

/// Whether the service is the component's.
fn is_service(component: &Component, service: &Running) -> bool
    ensures { result ≡ is_service component.now service.now }
{
    component.package == service.component.package && component.class == service.component.class
}

/// The running service of the component, if it runs.
fn find<'a>(services: &'a [Running], component: &Component) -> Option<&'a Running>
    ensures { option_copied result ≡ running services.now component.now }
{
    services
        .iter()
        .find(|service| is_service(component, service))
}

/// The index of the component's service, if it runs.
fn place_of(services: &[Running], component: &Component) -> Option<usize>
    ensures { result ≡ position (is_service component.now) services.now }
{
    services
        .iter()
        .position(|service| is_service(component, service))
}

/// A service that is started for the first time.
fn fresh(component: &Component, owner: u32, intent: &Intent) -> Result<Running, AllocError>
    ensures { IfOk result (λ service. service ≡ fresh component.now owner intent.now) }
{
    Ok(Running {
        component: component.clone()?,
        owner,
        intent: intent.clone()?,
        starts: 1,
    })
}

/// Starts the service at the index once more, with an intent. Returns how often it was started.
fn start_again(services: &mut Vec<Running>, place: usize, intent: Intent) -> u64
    requires within { place < vec_len services.old }
    requires bound { HoldsAt (λ (service : Service). service.starts ≤ greatest_number) services.old.items place }
    ensures { HoldsAt (λ (service : Service). (result ≡ service.starts + 1)
        × (services.new.items ≡ slice_set services.old.items place (again intent service))) services.old.items place }
{
    start_once_more(&mut services[place], intent)
}

/// Starts the service once more, with an intent. Returns how often it was started.
fn start_once_more(service: &mut Running, intent: Intent) -> u64
    requires { service.old.starts ≤ greatest_number }
    ensures starts { result ≡ service.old.starts + 1 }
    ensures changed { service.new ≡ again intent service.old }
{
    service.intent = intent;
    service.starts += 1;
    service.starts
}

/// These services, as the caller sees them.
fn views(alloc: Global, running: &[Running], caller: u32) -> Result<List<ServiceView>, NoMemory>
    ensures { IfOk result (λ shown. shown ≡ services_of running.now caller) }
{
    let mut shown = Vec::new(alloc);
    for service in running {
        if sees(caller, service.owner) {
            shown.push(view_of(service)?)?;
        }
    }
    Ok(List::new(shown))
}

/// A service as its owner sees it.
fn view_of(service: &Running) -> Result<ServiceView, AllocError>
    ensures { IfOk result (λ shown. shown ≡ view_of service.now) }
{
    Ok(ServiceView {
        component: service.component.clone()?,
        intent: service.intent.clone()?,
        starts: service.starts,
    })
}

/// Whether the caller sees a service of the owner.
fn sees(caller: u32, owner: u32) -> bool
    ensures { result ≡ (is_privileged caller || (owner == caller)) }
{
    caller == 0 || caller == 1000 || owner == caller
}
