//! Packages that come, go and stop, and rights that are given and taken.
ghost use Rattle.std.specs.Prelude.{◌≡◌, ◌≤◌, true, IfOk, IsTrue, OnOk, OnErr};
ghost use Rattle.am_types.specs.Bounds.{latest_moment};
ghost use Rattle.am_model.specs.Boards.{with_stopped};
ghost use Rattle.am_history.specs.Packages.{force_stop, forget, without};
ghost use Rattle.am_history.specs.State.{State, with_packages};
ghost use Rattle.am_history.specs.Steps.{at_moment, keeps_row};
ghost use Rattle.am_laws_state.specs.Sound.{IsSoundState};
ghost use Rattle.am_live_packages.specs.Changes.{changed, prepared, with_package, Fits, IsInstallable, IsPlanOf, IsPrepared};

use crate::Live;
use am_gates::is_privileged;
use am_live_callers::Caller;
use am_live_packages::{Change, Known, Plan, set_right, take_right, take_unless_held};
use am_types::{NoMemory, Package, Reply, Request, Rule, Steps, Text};
use std::sync::ledger::Ledger;

impl Live {
    /// Plans what a call that keeps a row does, and what its row is. This only reads the state. Refusals, in
    /// the order of the definitions: `AdminOnly` for callers other than the system and the root; then, for an
    /// installation, `BadManifest`, `Installed` if the name or the key is in use, and `OverLimit` of `Packages`
    /// if there are 256 or no uid is left; for the others, `NoPackage`, and `OverLimit` of `Grants` or `Links`
    /// for one more than 256 of a package.
    pub fn plan(&self, caller: u32, request: &Request) -> Result<Plan, NoMemory>
        requires keeps { IsTrue (keeps_row request.now) }
        requires sound { IsSoundState self.now }
        ensures { IfOk result (λ plan. IsPlanOf plan self.now caller request.now) }
    {
        let known = Known {
            alloc: self.alloc,
            system_key: &self.system_key,
            root_key: &self.root_key,
            board: &self.board,
            next_uid: self.next_uid,
        };
        known.plan(caller, request)
    }

    /// Takes all memory that a change needs: a new package or a new right is there from now on.
    /// After `NoMemory` the state is as before.
    pub fn prepare(&mut self, change: &Change) -> Result<(), NoMemory>
        requires { Fits change.now self.old }
        ensures ok { OnOk result (self.new ≡ prepared change.now self.old) }
        ensures same { OnErr result (self.new ≡ self.old) }
    {
        match change {
            Change::Install(package) => self.add_package(package),
            Change::Uninstall { .. } => Ok(()),
            Change::Right(right) => {
                if right.is_new {
                    set_right(&mut self.board, right, true)
                } else {
                    Ok(())
                }
            }
        }
    }

    /// Adds a copy of the package after the others. After `NoMemory` the state is as before.
    fn add_package(&mut self, package: &Package) -> Result<(), NoMemory>
        requires { IsInstallable «package».now self.old }
        ensures ok { OnOk result (self.new ≡ with_package self.old «package».now) }
        ensures same { OnErr result (self.new ≡ self.old) }
    {
        let package = package.clone()?;
        self.board.add_package(package)
    }

    /// Makes a prepared change at a moment, in milliseconds, which becomes the last one, after handling the
    /// deadlines that are due. A step is a reading of a deadline. Takes no memory.
    pub fn carry_out<L: Ledger>(
        &mut self,
        change: Change,
        moment: u64,
        steps: &mut Steps<L>,
    ) -> Reply
        requires moment { moment ≤ latest_moment }
        requires prepared { IsPrepared change self.old }
        ensures { (s : State) → self.old ≡ prepared change s
            → changed change (at_moment s moment) ≡ (result, self.new) }
    {
        self.settle(moment, steps);
        match change {
            Change::Install(package) => {
                let uid = package.uid;
                drop(package);
                self.next_uid += 1;
                Reply::Installed(uid)
            }
            Change::Uninstall { uid } => {
                self.remove(uid);
                Reply::Plain
            }
            Change::Right(right) => {
                take_unless_held(&mut self.board, &right);
                Reply::Plain
            }
        }
    }

    /// Undoes what was prepared for a change. Takes no memory.
    pub fn take_back(&mut self, change: &Change)
        ensures { (s : State) → Fits change.now s → self.old ≡ prepared change.now s → self.new ≡ s }
    {
        match change {
            Change::Install(package) => self.board.drop_package(package.uid),
            Change::Uninstall { .. } => {}
            Change::Right(right) => {
                if right.is_new {
                    take_right(&mut self.board, right);
                }
            }
        }
    }

    /// Stops the package with the name, which only the system and the root may do: nothing of it goes on.
    /// Refused by `AdminOnly`, then by `NoPackage`. The call's moment, in milliseconds, becomes the last one,
    /// and the deadlines that are due are handled. A step is a reading of a deadline. Takes no memory.
    pub fn force_stop<L: Ledger>(&mut self, by: Caller, name: &Text, steps: &mut Steps<L>) -> Reply
        ensures { force_stop (at_moment self.old by.moment) by.uid name.now ≡ (result, self.new) }
    {
        self.settle(by.moment, steps);
        if !is_privileged(by.uid) {
            return Reply::Refused(Rule::AdminOnly);
        }
        let Some(owner) = self.board.package_named(name) else {
            return Reply::Refused(Rule::NoPackage);
        };
        let uid = owner.uid;
        self.stop(uid);
        Reply::Plain
    }

    /// Stops the package with the uid, and forgets the uid. Takes no memory.
    fn stop(&mut self, uid: u32)
        ensures { self.new ≡ with_packages (forget self.old uid)
            (with_stopped (forget self.old uid).board.packages uid true) }
    {
        self.forget(uid);
        self.board.set_stopped(uid, true);
    }

    /// Removes the package with the uid, its grants and its links, and forgets the uid. Takes no memory.
    fn remove(&mut self, uid: u32)
        ensures { self.new ≡ without self.old uid }
    {
        self.forget(uid);
        self.board.drop_package(uid);
        self.board.drop_rights(uid);
    }

    /// Forgets a uid at the last moment: its instances, services and registered receivers go, its pending
    /// records are canceled and it holds no token, it waits for no results, and no broadcast goes to it any
    /// longer. Takes no memory.
    fn forget(&mut self, uid: u32)
        ensures { self.new ≡ forget self.old uid }
    {
        self.board.unregister_uid(uid);
        self.queues.forget_uid(uid, self.moment);
        self.pending.forget_uid(uid);
        self.tasks.forget_uid(uid);
        self.services.forget_uid(uid);
    }
}
