//! What is planned for calls that keep a row.
ghost use Rattle.std.specs.Prelude.{◌≡◌, ◌==◌, ◌&&◌, ◌||◌, not, true, nat_le, count_by, IfOk, IsTrue};
ghost use Rattle.am_manifest.specs.Manifests.{manifest_of};
ghost use Rattle.am_model.specs.Boards.{is_linked};
ghost use Rattle.am_model.specs.Gates.{is_privileged};
ghost use Rattle.am_history.specs.Kept.{gone_row, installed_row};
ghost use Rattle.am_history.specs.Packages.{installed, is_full, is_key_used, is_name_used};
ghost use Rattle.am_history.specs.State.{State};
ghost use Rattle.am_history.specs.Steps.{keeps_row};
ghost use Rattle.am_laws_state.specs.Sound.{IsSoundState};
ghost use Rattle.am_live_packages.specs.Changes.{IsPlanOf, count_held, is_held, right_limit, right_request, right_row, with_known};

use crate::{Change, Known, Plan, RightChange};
use am_gates::{is_granted, is_privileged};
use am_installed::Right;
use am_keeper::{GrantRow, LinkRow, PackageRow, Row};
use am_live_callers::is_key_used;
use am_manifest::read_package;
use am_types::{
    Limit, Link, List, Manifest, NoMemory, Package, Request, RightKind, Rule, Text, Unmade,
};
use std::alloc::Global;

/// How many packages a device may have.
const MOST_PACKAGES: usize = 256;

/// How many rights of a kind a package may have.
const MOST_RIGHTS: usize = 256;

impl Known<'_> {
    /// Plans what a call that keeps a row does, and what its row is. This only reads the state. Refusals, in
    /// the order of the definitions: `AdminOnly` for callers other than the system and the root; then, for an
    /// installation, `BadManifest`, `Installed` if the name or the key is in use, and `OverLimit` of `Packages`
    /// if there are 256 or no uid is left; for the others, `NoPackage`, and `OverLimit` of `Grants` or `Links`
    /// for one more than 256 of a package.
    pub fn plan(&self, caller: u32, request: &Request) -> Result<Plan, NoMemory>
        requires { IsTrue (keeps_row request.now) }
        ensures { IfOk result (λ plan. (state : State) → IsSoundState (with_known state self.now)
            → IsPlanOf plan (with_known state self.now) caller request.now) }
    {
        if !is_privileged(caller) {
            return Ok(Plan::Refused(Rule::AdminOnly));
        }
        match request {
            Request::Install { text, key } => self.plan_install(caller, text, key),
            Request::Uninstall { package } => self.plan_uninstall(caller, package),
            Request::Grant {
                package,
                permission,
                held,
            } => self.plan_right(caller, RightKind::Permission, package, permission, *held),
            Request::Link {
                package,
                host,
                approved,
            } => self.plan_right(caller, RightKind::Host, package, host, *approved),
            _ => unreachable!(),
        }
    }

    /// Plans the installation of the package that the manifest's text describes, with a key for its calls.
    fn plan_install(&self, caller: u32, text: &Text, key: &Text) -> Result<Plan, NoMemory>
        requires { IsTrue (is_privileged caller) }
        ensures { IfOk result (λ plan. (state : State) → IsSoundState (with_known state self.now)
            → IsPlanOf plan (with_known state self.now) caller (Request.Install text.now key.now)) }
    {
        match read_package(self.alloc, text) {
            Ok(manifest) => self.plan_read(caller, text, key, manifest),
            Err(Unmade::NoMemory) => Err(NoMemory),
            Err(Unmade::Fault(fault)) => Ok(Plan::Refused(Rule::BadManifest(fault))),
        }
    }

    /// Plans the installation of a package whose manifest was read.
    fn plan_read(
        &self,
        caller: u32,
        text: &Text,
        key: &Text,
        manifest: Manifest,
    ) -> Result<Plan, NoMemory>
        requires admin { IsTrue (is_privileged caller) }
        requires read { manifest_of text.now ≡ Ok manifest }
        ensures { IfOk result (λ plan. (state : State) → IsSoundState (with_known state self.now)
            → IsPlanOf plan (with_known state self.now) caller (Request.Install text.now key.now)) }
    {
        if self.is_used(&manifest.package, key) {
            drop(manifest);
            return Ok(Plan::Refused(Rule::Installed));
        }
        if self.is_full() {
            drop(manifest);
            return Ok(Plan::Refused(Rule::OverLimit(Limit::Packages)));
        }
        let uid = self.next_uid;
        let row = package_row(uid, text, key, &manifest)?;
        let package = package_of(uid, key, manifest)?;
        Ok(Plan::Accepted {
            change: Change::Install(package),
            row,
        })
    }

    /// Whether a package has the name, or a caller has the key.
    fn is_used(&self, name: &Text, key: &Text) -> bool
        ensures { (state : State) → result
            ≡ (is_name_used self.now.board.now.packages name.now || is_key_used (with_known state self.now) key.now) }
    {
        is_name_used(self.board.packages(), name)
            || is_key_used(self.system_key, self.root_key, self.board.packages(), key)
    }

    /// Whether no more packages can be added: there are 256, or no uid is left.
    fn is_full(&self) -> bool
        ensures { (state : State) → result ≡ is_full (with_known state self.now) }
    {
        self.board.packages().as_slice().len() >= MOST_PACKAGES || self.next_uid == u32::MAX
    }

    /// Plans the removal of the package with the name.
    fn plan_uninstall(&self, caller: u32, name: &Text) -> Result<Plan, NoMemory>
        requires { IsTrue (is_privileged caller) }
        ensures { IfOk result (λ plan. (state : State) →
            IsPlanOf plan (with_known state self.now) caller (Request.Uninstall name.now)) }
    {
        let Some(owner) = self.board.package_named(name) else {
            return Ok(Plan::Refused(Rule::NoPackage));
        };
        let row = gone_row(self.alloc, owner)?;
        let change = Change::Uninstall { uid: owner.uid };
        Ok(Plan::Accepted { change, row })
    }

    /// Plans that a right is given to the package with the name, or taken from it.
    fn plan_right(
        &self,
        caller: u32,
        kind: RightKind,
        name: &Text,
        text: &Text,
        held: bool,
    ) -> Result<Plan, NoMemory>
        requires { IsTrue (is_privileged caller) }
        ensures { IfOk result (λ plan. (state : State) →
            IsPlanOf plan (with_known state self.now) caller (right_request kind name.now text.now held)) }
    {
        let Some(owner) = self.board.package_named(name) else {
            return Ok(Plan::Refused(Rule::NoPackage));
        };
        let uid = owner.uid;
        let is_new = self.is_new_right(kind, uid, text, held);
        if self.is_right_too_many(kind, uid, is_new) {
            return Ok(Plan::Refused(Rule::OverLimit(right_limit(kind))));
        }
        let row = right_row(kind, uid, text, held)?;
        let text = text.clone()?;
        let right = RightChange {
            kind,
            uid,
            text,
            held,
            is_new,
        };
        Ok(Plan::Accepted {
            change: Change::Right(right),
            row,
        })
    }

    /// Whether the right is given, and the uid doesn't have it.
    fn is_new_right(&self, kind: RightKind, uid: u32, text: &Text, held: bool) -> bool
        ensures { result ≡ (held && not (is_held self.now.board.now kind uid text.now)) }
    {
        held && !self.has_right(kind, uid, text)
    }

    /// Whether the uid has the right.
    fn has_right(&self, kind: RightKind, uid: u32, text: &Text) -> bool
        ensures { result ≡ is_held self.now.board.now kind uid text.now }
    {
        match kind {
            RightKind::Permission => is_granted(self.board.grants(), uid, text.as_str()),
            RightKind::Host => is_linked(self.board.links(), uid, text),
        }
    }

    /// Whether the right is new, and the uid has as many of the kind as it may.
    fn is_right_too_many(&self, kind: RightKind, uid: u32, is_new: bool) -> bool
        ensures { result ≡ (is_new && nat_le 256 (count_held self.now.board.now kind uid)) }
    {
        is_new && self.count_rights(kind, uid) >= MOST_RIGHTS
    }

    /// How many rights of the kind the uid has.
    fn count_rights(&self, kind: RightKind, uid: u32) -> usize
        ensures { result ≡ count_held self.now.board.now kind uid }
    {
        match kind {
            RightKind::Permission => count_of(self.board.grants(), uid),
            RightKind::Host => count_of(self.board.links(), uid),
        }
    }
}

/// Whether a package has the name.
fn is_name_used(packages: &List<Package>, name: &Text) -> bool
    ensures { result ≡ is_name_used packages.now name.now }
{
    packages
        .as_slice()
        .iter()
        .any(|installed| installed.name == *name)
}

/// The package of a manifest that was read, with its uid and key, stopped.
fn package_of(uid: u32, key: &Text, manifest: Manifest) -> Result<Package, NoMemory>
    ensures { IfOk result (λ made. made ≡ record {
      uid = uid;
      name = manifest.«package»;
      key = key.now;
      stopped = true;
      decls = manifest.decls;
    }) }
{
    let key = key.clone()?;
    Ok(Package {
        uid,
        name: manifest.package,
        key,
        stopped: true,
        decls: manifest.decls,
    })
}

/// The row of a package that is installed from that text.
fn package_row(uid: u32, text: &Text, key: &Text, manifest: &Manifest) -> Result<Row, NoMemory>
    ensures { IfOk result (λ row. Some row ≡ installed_row uid text.now key.now (Ok manifest.now)) }
{
    let name = manifest.package.clone()?;
    let key = key.clone()?;
    let text = text.clone()?;
    Ok(Row::Package(PackageRow {
        uid,
        name,
        key,
        text,
        gone: false,
    }))
}

/// The row of a package that is gone.
fn gone_row(alloc: Global, owner: &Package) -> Result<Row, NoMemory>
    ensures { IfOk result (λ row. row ≡ gone_row owner.now) }
{
    let name = owner.name.clone()?;
    Ok(Row::Package(PackageRow {
        uid: owner.uid,
        name,
        key: Text::new(String::new(alloc)),
        text: Text::new(String::new(alloc)),
        gone: true,
    }))
}

/// The row of a right that is given or taken.
fn right_row(kind: RightKind, uid: u32, text: &Text, held: bool) -> Result<Row, NoMemory>
    ensures { IfOk result (λ row. row ≡ right_row kind uid text.now held) }
{
    let text = text.clone()?;
    match kind {
        RightKind::Permission => Ok(Row::Grant(GrantRow {
            uid,
            permission: text,
            held,
        })),
        RightKind::Host => Ok(Row::Link(LinkRow {
            uid,
            host: text,
            approved: held,
        })),
    }
}

/// The limit of how many rights of the kind a package may have.
fn right_limit(kind: RightKind) -> Limit
    ensures { result ≡ right_limit kind }
{
    match kind {
        RightKind::Permission => Limit::Grants,
        RightKind::Host => Limit::Links,
    }
}

/// Whether the uid is approved for the host.
fn is_linked(links: &List<Link>, uid: u32, host: &Text) -> bool
    ensures { result ≡ is_linked links.now uid host.now }
{
    links
        .as_slice()
        .iter()
        .any(|link| link.uid == uid && link.host == *host)
}

/// How many of the rights the uid has.
fn count_of<T: Right>(rights: &List<T>, uid: u32) -> usize
    ensures { result ≡ count_by (λ right. (T.right_of right).0 == uid) rights.now }
{
    rights
        .as_slice()
        .iter()
        .filter(|right| right.uid() == uid)
        .count()
}
