//! What is installed, with its changes.
ghost use Rattle.std.specs.Prelude.{◌≡◌, ◌∷◌, ◌++◌, [], not, ◌==◌, false, filter, IfOk, IsOk, OnOk, OnErr, option_copied};
ghost use Rattle.std.specs.Option.{option_map};
ghost use Rattle.am_types.specs.declared.resolve.Registration.{Registration};
ghost use Rattle.am_model.specs.Boards.{Board, board_of, grants_without, links_without, package_at, package_named, registered_without, with_grant, with_link, with_stopped, without_package};
ghost use Rattle.am_model.specs.Receivers.{declared};
ghost use Rattle.am_installed.specs.Installed.{AreGrantsInOrder, AreInstalled, AreLinksInOrder, IsInOrder};
ghost use Rattle.am_installed.specs.Places.{AreByNumber, place_registered};

use crate::lists::take;
use crate::{find, lists, rights};
use am_types::{
    Component, Decl, Device, Grant, Kind, Link, List, NoMemory, Package, Registration, Rules, Text,
    drop_parts,
};
use std::alloc::Global;
use std::marker::Model;

/// What is installed on a device and what was given to it.
pub struct Installed {
    alloc: Global,
    rules: Rules,
    packages: List<Package>,
    grants: List<Grant>,
    links: List<Link>,
    registered: List<Registration>,
    browser: Option<Text>,
    protected: List<Text>,
    exempt: List<Text>,
}

impl Drop for Installed {
    fn drop(self) {
        drop_parts!(self, Installed: alloc rules packages grants links registered browser protected exempt);
    }
}

impl Model for Installed {
    ghost Value = { Board };

    ghost view = { λ i. record {
      rules = i.rules;
      packages = i.packages;
      grants = i.grants;
      links = i.links;
      registered = i.registered;
      browser = i.browser;
      protected = i.protected;
      exempt = i.exempt;
    } };

    ghost invariant = { λ i. IsInOrder (view i) };
}

impl Installed {
    /// What a device, such as a sound one, has before anything has happened. Takes no memory.
    pub fn from_device(alloc: Global, device: Device) -> Self
        requires { IsInOrder (board_of device) }
        ensures { result ≡ board_of device }
    {
        let Device {
            rules,
            system_key,
            root_key,
            browser,
            protected,
            exempt,
            packages,
            grants,
            links,
        } = device;
        drop(system_key);
        drop(root_key);
        Installed {
            alloc,
            rules,
            packages,
            grants,
            links,
            registered: List::new(Vec::new(alloc)),
            browser,
            protected,
            exempt,
        }
    }

    /// By whose rules the device answers. Takes no memory.
    pub fn rules(&self) -> Rules
        ensures { result ≡ self.now.rules }
    {
        self.rules
    }

    /// The packages in the order of their uids. Takes no memory.
    pub fn packages(&self) -> &List<Package>
        ensures packages { result.now ≡ self.now.packages }
        ensures installed { AreInstalled self.now.packages }
    {
        &self.packages
    }

    /// The grants in the order of uid, then permission by bytes. Takes no memory.
    pub fn grants(&self) -> &List<Grant>
        ensures grants { result.now ≡ self.now.grants }
        ensures order { AreGrantsInOrder self.now.grants }
    {
        &self.grants
    }

    /// The links in the order of uid, then host by bytes. Takes no memory.
    pub fn links(&self) -> &List<Link>
        ensures links { result.now ≡ self.now.links }
        ensures order { AreLinksInOrder self.now.links }
    {
        &self.links
    }

    /// The registered receivers by rising number. Takes no memory.
    pub fn registered(&self) -> &List<Registration>
        ensures registered { result.now ≡ self.now.registered }
        ensures order { AreByNumber self.now.registered }
    {
        &self.registered
    }

    /// The package of the default browser, which needn't be there. Takes no memory.
    pub fn browser(&self) -> Option<&Text>
        ensures { option_copied result ≡ self.now.browser }
    {
        self.browser.as_ref()
    }

    /// The actions that only the system and the root may broadcast. Takes no memory.
    pub fn protected(&self) -> &List<Text>
        ensures { result.now ≡ self.now.protected }
    {
        &self.protected
    }

    /// The actions that manifest receivers get implicitly. Takes no memory.
    pub fn exempt(&self) -> &List<Text>
        ensures { result.now ≡ self.now.exempt }
    {
        &self.exempt
    }

    /// The package of the uid, if there is one. Takes no memory.
    pub fn package_at(&self, uid: u32) -> Option<&Package>
        ensures { option_copied result ≡ package_at self.now.packages uid }
    {
        find::package_at(&self.packages, uid)
    }

    /// The package with this name, if there is one. Takes no memory.
    pub fn package_named(&self, name: &Text) -> Option<&Package>
        ensures { option_copied result ≡ package_named self.now.packages name.now }
    {
        find::package_named(&self.packages, name)
    }

    /// An enabled component of a kind with the uid of its package, if there is one. Takes no memory.
    pub fn declared(&self, kind: Kind, component: &Component) -> Option<(u32, &Decl)>
        ensures { option_map (λ found. (found.0, found.1.now)) result ≡ declared self.now.packages kind component.now }
    {
        find::declared(&self.packages, kind, component)
    }

    /// Installs a package after the others: its uid is greater than every uid there, its name is
    /// new, and it has at most 256 components, of distinct classes. If memory runs out, nothing changes.
    pub fn add_package(&mut self, package: Package) -> Result<(), NoMemory>
        requires { AreInstalled (self.old.packages ++ «package» ∷ []) }
        ensures added { OnOk result (self.new ≡ record self.old { packages = self.old.packages ++ «package» ∷ [] }) }
        ensures same { OnErr result (self.new ≡ self.old) }
    {
        let mut packages = take(&mut self.packages, self.alloc);
        let added = lists::push_package(&mut packages, package);
        self.packages = List::new(packages);
        added
    }

    /// Removes the package of the uid, and nothing else. Takes no memory.
    pub fn drop_package(&mut self, uid: u32)
        ensures { self.new ≡ record self.old { packages = without_package self.old.packages uid } }
    {
        let mut packages = take(&mut self.packages, self.alloc);
        lists::drop_package(&mut packages, uid);
        self.packages = List::new(packages);
    }

    /// Makes the package of the uid stopped, or no longer stopped. Takes no memory.
    pub fn set_stopped(&mut self, uid: u32, stopped: bool)
        ensures { self.new ≡ record self.old { packages = with_stopped self.old.packages uid stopped } }
    {
        let mut packages = take(&mut self.packages, self.alloc);
        lists::set_stopped(&mut packages, uid, stopped);
        self.packages = List::new(packages);
    }

    /// Grants the permission to the uid, or takes it away; taking it away takes no memory. If memory
    /// runs out, nothing changes.
    pub fn set_grant(&mut self, uid: u32, permission: &Text, held: bool) -> Result<(), NoMemory>
        ensures set { OnOk result (self.new ≡ record self.old {
          grants = with_grant self.old.grants uid permission.now held;
        }) }
        ensures same { OnErr result (self.new ≡ self.old) }
        ensures taken { held ≡ false → IsOk result }
    {
        let mut grants = take(&mut self.grants, self.alloc);
        let set = rights::set_right(&mut grants, uid, permission, held);
        self.grants = List::new(grants);
        set
    }

    /// Approves the uid for the host, or takes the approval away; taking it away takes no memory. If memory
    /// runs out, nothing changes.
    pub fn set_link(&mut self, uid: u32, host: &Text, approved: bool) -> Result<(), NoMemory>
        ensures set { OnOk result (self.new ≡ record self.old {
          links = with_link self.old.links uid host.now approved;
        }) }
        ensures same { OnErr result (self.new ≡ self.old) }
        ensures taken { approved ≡ false → IsOk result }
    {
        let mut links = take(&mut self.links, self.alloc);
        let set = rights::set_right(&mut links, uid, host, approved);
        self.links = List::new(links);
        set
    }

    /// Removes the grants and the links of the uid. Takes no memory.
    pub fn drop_rights(&mut self, uid: u32)
        ensures { self.new ≡ record self.old {
          grants = grants_without self.old.grants uid;
          links = links_without self.old.links uid;
        } }
    {
        let mut grants = take(&mut self.grants, self.alloc);
        let mut links = take(&mut self.links, self.alloc);
        rights::drop_rights_of(&mut grants, uid);
        rights::drop_rights_of(&mut links, uid);
        self.grants = List::new(grants);
        self.links = List::new(links);
    }

    /// Registers a receiver, in its place by number. If memory runs out, nothing changes.
    pub fn register(&mut self, registration: Registration) -> Result<(), NoMemory>
        ensures registered { OnOk result (self.new ≡ record self.old {
          registered = place_registered registration self.old.registered;
        }) }
        ensures same { OnErr result (self.new ≡ self.old) }
    {
        let mut registered = take(&mut self.registered, self.alloc);
        let put = lists::put_registered(&mut registered, registration);
        self.registered = List::new(registered);
        put
    }

    /// Removes the registered receiver with this number. Takes no memory.
    pub fn unregister(&mut self, number: u64)
        ensures { self.new ≡ record self.old {
          registered = filter (λ (r : Registration). not (r.number == number)) self.old.registered;
        } }
    {
        let mut registered = take(&mut self.registered, self.alloc);
        lists::drop_registered(&mut registered, number);
        self.registered = List::new(registered);
    }

    /// Removes the registered receivers of the uid; the others stay in their order. Takes no memory.
    pub fn unregister_uid(&mut self, uid: u32)
        ensures { self.new ≡ record self.old { registered = registered_without self.old.registered uid } }
    {
        let mut registered = take(&mut self.registered, self.alloc);
        lists::drop_registered_of(&mut registered, uid);
        self.registered = List::new(registered);
    }
}
