//! What is installed, with its index.
ghost use Rattle.std.specs.Prelude.{◌≡◌, ◌∷◌, ◌++◌, ◌+◌, ◌*◌, ◌≤◌, [], not, ◌==◌, false, filter, length, IfOk, IsOk, IsSome, OnOk, OnErr, option_copied};
ghost use Rattle.std.specs.Option.{option_map};
ghost use Rattle.am_types.specs.declared.device.Rules.TheVariants.{Android12, Profile};
ghost use Rattle.am_types.specs.declared.manifest.Kind.TheVariants.{Activity, Receiver};
ghost use Rattle.am_types.specs.declared.resolve.Registration.{Registration};
ghost use Rattle.am_model.specs.Boards.{board_of, grants_without, links_without, package_at, package_named, registered_without, with_grant, with_link, with_stopped, without_package};
ghost use Rattle.am_model.specs.Candidates.{found_by, hits, hits_of};
ghost use Rattle.am_model.specs.Links.{leading_of, phone_narrowed};
ghost use Rattle.am_model.specs.Receivers.{declared, receivers};
ghost use Rattle.am_model.specs.Sound.{IsSound};
ghost use Rattle.am_model.specs.Starts.{left_by, phone_shown, query_hits, target};
ghost use Rattle.am_model.specs.Targets.{choice, top};
ghost use Rattle.am_installed.specs.Installed.{AreGrantsInOrder, AreInstalled, AreLinksInOrder};
ghost use Rattle.am_installed.specs.Places.{AreByNumber, place_registered};
ghost use Rattle.am_index.specs.Groups.{group_size};
ghost use Rattle.am_links.specs.Led.{led_by};

use crate::choice::phone_choice;
use crate::narrow::{host_to_view, web_hits};
use crate::offers::Broadcast;
use crate::receivers::receivers;
use crate::top::choose;
use am_index::FilterIndex;
use am_installed::Installed;
use am_links::{Narrowed, hits_of, narrow};
use am_types::{
    Candidate, Component, Decl, Device, Filter, Grant, Hit, Intent, Kind, Link, List, NoMemory,
    Package, Receiving, Registration, Rules, Steps, Target, Text, drop_parts,
};
use std::alloc::Global;
use std::marker::Model;
use std::sync::ledger::Ledger;

/// What is installed on a device and was given to it, with an index of what its components take.
pub struct Board {
    installed: Installed,
    index: FilterIndex,
}

impl Drop for Board {
    fn drop(self) {
        drop_parts!(self, Board: installed index);
    }
}

impl Model for Board {
    ghost use Rattle.am_model.specs.Boards as boards;
    ghost use Rattle.am_index.specs.Standing.{StandsFor};

    ghost Value = { boards.Board };

    ghost view = { λ b. b.installed };

    ghost invariant = { λ b. StandsFor b.index b.installed.packages };
}

impl Board {
    /// The board of a sound device on which nothing has happened yet.
    pub fn from_device(alloc: Global, device: Device) -> Result<Self, NoMemory>
        requires { IsSound device }
        ensures { IfOk result (λ board. board ≡ board_of device) }
    {
        let built = FilterIndex::build(alloc, &device.packages);
        let installed = Installed::from_device(alloc, device);
        match built {
            Ok(index) => Ok(Board { installed, index }),
            Err(error) => {
                drop(installed);
                Err(error)
            }
        }
    }

    /// By whose rules the device answers. Takes no memory.
    pub fn rules(&self) -> Rules
        ensures { result ≡ self.now.rules }
    {
        self.installed.rules()
    }

    /// What the intent finds of a kind, in order.
    fn found<L: Ledger>(
        &self,
        alloc: Global,
        kind: Kind,
        intent: &Intent,
        need_default: bool,
        steps: &mut Steps<L>,
    ) -> Result<List<Candidate>, NoMemory>
        ensures found { IfOk result
            (λ found. found ≡ found_by self.now.rules self.now.packages kind intent.now need_default) }
        ensures tests { steps.new ≤ steps.old + group_size self.now.packages kind intent.now }
        ensures explicit { IsSome intent.now.component → steps.new ≡ steps.old }
    {
        let rules = self.installed.rules();
        let packages = self.installed.packages();
        self.index
            .candidates(alloc, rules, packages, kind, intent, need_default, steps)
    }

    /// The components of the kind that the intent finds, in order: by falling priority first, and at last by uid and
    /// place. With `need_default` an implicit intent finds those with a filter that lists the default category. Each
    /// full test of a filter is a step: at most as many as the intent's group has filters, and none if the intent names
    /// a component. ("Intents and intent filters".)
    pub fn hits<L: Ledger>(
        &self,
        alloc: Global,
        kind: Kind,
        intent: &Intent,
        need_default: bool,
        steps: &mut Steps<L>,
    ) -> Result<List<Hit>, NoMemory>
        ensures hits { IfOk result
            (λ found. found ≡ hits self.now.rules self.now.packages kind intent.now need_default) }
        ensures tests { steps.new ≤ steps.old + group_size self.now.packages kind intent.now }
        ensures explicit { IsSome intent.now.component → steps.new ≡ steps.old }
    {
        let found = self.found(alloc, kind, intent, need_default, steps)?;
        hits_of(alloc, found)
    }

    /// What a phone's narrowing leaves of the activities that the intent finds. Tests of filters are counted as those of
    /// [`Board::hits`].
    pub fn narrowed<L: Ledger>(
        &self,
        alloc: Global,
        intent: &Intent,
        default_only: bool,
        steps: &mut Steps<L>,
    ) -> Result<Narrowed, NoMemory>
        ensures leading { IfOk result (λ narrowed. option_map led_by narrowed.leading
            ≡ leading_of self.now intent.now default_only
            (found_by self.now.rules self.now.packages Activity intent.now default_only)) }
        ensures left { IfOk result (λ narrowed. narrowed.left
            ≡ hits_of (phone_narrowed self.now intent.now default_only
            (found_by self.now.rules self.now.packages Activity intent.now default_only))) }
        ensures tests { steps.new ≤ steps.old + group_size self.now.packages Activity intent.now }
        ensures explicit { IsSome intent.now.component → steps.new ≡ steps.old }
    {
        let found = self.found(alloc, Kind::Activity, intent, default_only, steps)?;
        narrow(alloc, &self.installed, intent, default_only, found)
    }

    /// What a query for a kind shows: the components that the intent finds, as [`Board::hits`] gives them; under a
    /// phone's rules activities are narrowed. With `default_only` an implicit intent finds those with a filter that
    /// lists the default category.
    pub fn query<L: Ledger>(
        &self,
        alloc: Global,
        kind: Kind,
        intent: &Intent,
        default_only: bool,
        steps: &mut Steps<L>,
    ) -> Result<List<Hit>, NoMemory>
        ensures hits { IfOk result (λ found. found ≡ query_hits self.now kind intent.now default_only) }
        ensures tests { steps.new ≤ steps.old + group_size self.now.packages kind intent.now }
        ensures explicit { IsSome intent.now.component → steps.new ≡ steps.old }
    {
        match self.installed.rules() {
            Rules::Profile => self.hits(alloc, kind, intent, default_only, steps),
            Rules::Android12 => self.phone_query(alloc, kind, intent, default_only, steps),
        }
    }

    /// What a query for a kind shows on a phone.
    fn phone_query<L: Ledger>(
        &self,
        alloc: Global,
        kind: Kind,
        intent: &Intent,
        default_only: bool,
        steps: &mut Steps<L>,
    ) -> Result<List<Hit>, NoMemory>
        requires { self.now.rules ≡ Android12 }
        ensures hits { IfOk result (λ found. found ≡ phone_shown self.now kind intent.now default_only) }
        ensures tests { steps.new ≤ steps.old + group_size self.now.packages kind intent.now }
        ensures explicit { IsSome intent.now.component → steps.new ≡ steps.old }
    {
        match kind {
            Kind::Activity => Ok(
                self.narrowed(alloc, intent, default_only, steps)?
                    .into_left(),
            ),
            Kind::Service | Kind::Receiver => self.hits(alloc, kind, intent, default_only, steps),
        }
    }

    /// Which activity a start of the intent by the caller reaches: none, the one of greatest priority, or several from
    /// which the user must choose. A start of a web intent is narrowed first. Each full test of a filter is a step: at
    /// most twice as many as the intent's group has filters, on a phone at most as many, and none if the intent names
    /// a component. ("Intents and intent filters"; narrowing is (own) in detail.)
    pub fn target<L: Ledger>(
        &self,
        alloc: Global,
        caller: u32,
        intent: &Intent,
        steps: &mut Steps<L>,
    ) -> Result<Target, NoMemory>
        ensures target { IfOk result (λ reached. reached ≡ target self.now caller intent.now) }
        ensures tests { steps.new ≤ steps.old + 2 * group_size self.now.packages Activity intent.now }
        ensures phone { self.now.rules ≡ Android12 →
            steps.new ≤ steps.old + group_size self.now.packages Activity intent.now }
        ensures explicit { IsSome intent.now.component → steps.new ≡ steps.old }
    {
        match self.installed.rules() {
            Rules::Profile => self.profile_target(alloc, intent, steps),
            Rules::Android12 => {
                let left = self.narrowed(alloc, intent, true, steps)?.into_left();
                Ok(phone_choice(&self.installed, caller, left))
            }
        }
    }

    /// Which activity a start of the intent reaches under the profile.
    fn profile_target<L: Ledger>(
        &self,
        alloc: Global,
        intent: &Intent,
        steps: &mut Steps<L>,
    ) -> Result<Target, NoMemory>
        requires { self.now.rules ≡ Profile }
        ensures target { IfOk result (λ reached. reached ≡ choice (top (left_by Profile self.now intent.now))) }
        ensures tests { steps.new ≤ steps.old + 2 * group_size self.now.packages Activity intent.now }
        ensures explicit { IsSome intent.now.component → steps.new ≡ steps.old }
    {
        let found = self.hits(alloc, Kind::Activity, intent, true, steps)?;
        let left = match host_to_view(intent) {
            None => found,
            Some(host) => web_hits(alloc, &self.installed, intent, found, host, steps)?,
        };
        Ok(choose(left))
    }

    /// Who the broadcast of the sender is offered to, by falling priority; at a tie registered
    /// receivers come first, by number, then the manifests' by uid and place. Each comes with the rule by which
    /// it is skipped. Each full test of a filter is a step: at most as many as the intent's group has
    /// filters and one for each registered receiver, and none if the intent names a component.
    pub fn receivers<L: Ledger>(
        &self,
        alloc: Global,
        intent: &Intent,
        sender: u32,
        permission: Option<&Text>,
        steps: &mut Steps<L>,
    ) -> Result<List<Receiving>, NoMemory>
        ensures receivers { IfOk result
            (λ offered. offered ≡ receivers self.now intent.now sender (option_copied permission.entry)) }
        ensures tests { steps.new
            ≤ steps.old + group_size self.now.packages Receiver intent.now + length self.now.registered }
        ensures explicit { IsSome intent.now.component → steps.new ≡ steps.old }
    {
        let found = self.hits(alloc, Kind::Receiver, intent, false, steps)?;
        let sent = Broadcast {
            installed: &self.installed,
            intent,
            sender,
            required: permission,
        };
        receivers(alloc, &sent, &found, steps)
    }

    /// An enabled component of a kind, in the package of a uid, if there is one. Takes no memory.
    pub fn declared(&self, component: &Component, kind: Kind) -> Option<(u32, &Decl)>
        ensures { option_map (λ found. (found.0, found.1.now)) result ≡ declared self.now.packages kind component.now }
    {
        self.installed.declared(kind, component)
    }

    /// The package of the uid, if there is one. Takes no memory.
    pub fn package_at(&self, uid: u32) -> Option<&Package>
        ensures { option_copied result ≡ package_at self.now.packages uid }
    {
        self.installed.package_at(uid)
    }

    /// The package with this name, if there is one. Takes no memory.
    pub fn package_named(&self, name: &Text) -> Option<&Package>
        ensures { option_copied result ≡ package_named self.now.packages name.now }
    {
        self.installed.package_named(name)
    }

    /// What is installed, without the index. Takes no memory.
    pub fn installed(&self) -> &Installed
        ensures { result.now ≡ self.now }
    {
        &self.installed
    }

    /// The packages in the order of their uids. Takes no memory.
    pub fn packages(&self) -> &List<Package>
        ensures packages { result.now ≡ self.now.packages }
        ensures installed { AreInstalled self.now.packages }
    {
        self.installed.packages()
    }

    /// The grants in the order of uid, then permission by bytes. Takes no memory.
    pub fn grants(&self) -> &List<Grant>
        ensures grants { result.now ≡ self.now.grants }
        ensures order { AreGrantsInOrder self.now.grants }
    {
        self.installed.grants()
    }

    /// The links in the order of uid, then host by bytes. Takes no memory.
    pub fn links(&self) -> &List<Link>
        ensures links { result.now ≡ self.now.links }
        ensures order { AreLinksInOrder self.now.links }
    {
        self.installed.links()
    }

    /// The registered receivers by rising number. Takes no memory.
    pub fn registered(&self) -> &List<Registration>
        ensures registered { result.now ≡ self.now.registered }
        ensures order { AreByNumber self.now.registered }
    {
        self.installed.registered()
    }

    /// The actions that only the system and the root may broadcast. Takes no memory.
    pub fn protected(&self) -> &List<Text>
        ensures { result.now ≡ self.now.protected }
    {
        self.installed.protected()
    }

    /// Installs a package after the others: its uid is greater than every uid there, its name is
    /// new, and it has at most 256 components, of distinct classes. If memory runs out, nothing changes.
    pub fn add_package(&mut self, package: Package) -> Result<(), NoMemory>
        requires { AreInstalled (self.old.packages ++ «package» ∷ []) }
        ensures added { OnOk result (self.new ≡ record self.old { packages = self.old.packages ++ «package» ∷ [] }) }
        ensures same { OnErr result (self.new ≡ self.old) }
    {
        let uid = package.uid;
        if self.index.add(&package).is_err() {
            drop(package);
            return Err(NoMemory);
        }
        let added = self.installed.add_package(package);
        if added.is_err() {
            self.index.drop_uid(uid);
        }
        added
    }

    /// Removes the package of the uid, and nothing else. Takes no memory.
    pub fn drop_package(&mut self, uid: u32)
        ensures { self.new ≡ record self.old { packages = without_package self.old.packages uid } }
    {
        self.installed.drop_package(uid);
        self.index.drop_uid(uid);
    }

    /// Makes the package of the uid stopped, or no longer stopped. Takes no memory.
    pub fn set_stopped(&mut self, uid: u32, stopped: bool)
        ensures { self.new ≡ record self.old { packages = with_stopped self.old.packages uid stopped } }
    {
        self.installed.set_stopped(uid, stopped);
    }

    /// Grants the permission to the uid, or takes it away; taking it away takes no memory. If memory
    /// runs out, nothing changes.
    pub fn set_grant(&mut self, uid: u32, permission: &Text, held: bool) -> Result<(), NoMemory>
        ensures set { OnOk result (self.new ≡ record self.old {
          grants = with_grant self.old.grants uid permission.now held;
        }) }
        ensures same { OnErr result (self.new ≡ self.old) }
        ensures taken { held ≡ false → IsOk result }
    {
        self.installed.set_grant(uid, permission, held)
    }

    /// Approves the uid for the host, or takes the approval away; taking it away takes no memory. If memory
    /// runs out, nothing changes.
    pub fn set_link(&mut self, uid: u32, host: &Text, approved: bool) -> Result<(), NoMemory>
        ensures set { OnOk result (self.new ≡ record self.old {
          links = with_link self.old.links uid host.now approved;
        }) }
        ensures same { OnErr result (self.new ≡ self.old) }
        ensures taken { approved ≡ false → IsOk result }
    {
        self.installed.set_link(uid, host, approved)
    }

    /// Removes the grants and the links of the uid. Takes no memory.
    pub fn drop_rights(&mut self, uid: u32)
        ensures { self.new ≡ record self.old {
          grants = grants_without self.old.grants uid;
          links = links_without self.old.links uid;
        } }
    {
        self.installed.drop_rights(uid);
    }

    /// Registers a receiver of the uid, in its place by number. `permission` is what a sender must hold. If memory runs
    /// out, nothing changes.
    pub fn register(
        &mut self,
        number: u64,
        uid: u32,
        filter: Filter,
        permission: Option<Text>,
    ) -> Result<(), NoMemory>
        ensures registered { OnOk result (self.new ≡ record self.old {
          registered = place_registered
              (record { number = number; uid = uid; filter = filter; permission = permission }) self.old.registered;
        }) }
        ensures same { OnErr result (self.new ≡ self.old) }
    {
        self.installed.register(Registration {
            number,
            uid,
            filter,
            permission,
        })
    }

    /// Removes the registered receiver with this number. Takes no memory.
    pub fn unregister(&mut self, number: u64)
        ensures { self.new ≡ record self.old {
          registered = filter (λ (r : Registration). not (r.number == number)) self.old.registered;
        } }
    {
        self.installed.unregister(number);
    }

    /// Removes the registered receivers of the uid; the others stay in their order. Takes no memory.
    pub fn unregister_uid(&mut self, uid: u32)
        ensures { self.new ≡ record self.old { registered = registered_without self.old.registered uid } }
    {
        self.installed.unregister_uid(uid);
    }
}
