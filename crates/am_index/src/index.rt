//! The index, and the packages that it represents.
ghost use Rattle.std.specs.Prelude.{◌≡◌, ◌∷◌, ◌++◌, [], List as Items, ◌+◌, ◌≤◌, IfOk, IsSome, OnOk, OnErr};
ghost use Rattle.am_types.specs.declared.device.Package.{Package};
ghost use Rattle.am_model.specs.Boards.{without_package};
ghost use Rattle.am_model.specs.Candidates.{found_by};
ghost use Rattle.am_index.specs.Groups.{group_size};
ghost use Rattle.am_index.specs.Standing.{CanBeListed, CanTake, ListsTheSame, StandsFor};

use crate::found::candidates_of_spots;
use crate::lists::{Lists, drop_spots, note_package};
use crate::lookup::spots_for;
use crate::search::Search;
use crate::turn::in_turn;
use am_types::{Candidate, Intent, Kind, List, NoMemory, Package, Rules, Steps};
use std::alloc::Global;
use std::collections::HashMap;
use std::sync::ledger::Ledger;

/// Where the enabled components of packages are, by their names and by what their filters list:
/// action, scheme and type.
#[derive(Drop)]
pub struct FilterIndex {
    lists: Lists,
    alloc: Global,
}

impl FilterIndex {
    /// The index of the packages, which are like those of a sound device: in the order of their
    /// uids, each with at most 256 components.
    pub fn build(alloc: Global, packages: &List<Package>) -> Result<FilterIndex, NoMemory>
        requires { CanBeListed packages.now }
        ensures { IfOk result (λ index. StandsFor index packages.now) }
    {
        let mut lists = HashMap::new(alloc);
        for package in packages.as_slice() {
            note_package(alloc, &mut lists, package)?;
        }
        Ok(FilterIndex { lists, alloc })
    }

    /// Adds a package after those in the index: its uid is greater than every uid
    /// there, and it has at most 256 components. If memory runs out, the index doesn't change.
    pub fn add(&mut self, package: &Package) -> Result<(), NoMemory>
        requires { CanTake self.old «package».now }
        ensures added { OnOk result
            ((packages : Items Package) →
            StandsFor self.old packages →
            CanBeListed (packages ++ «package».now ∷ []) →
            StandsFor self.new (packages ++ «package».now ∷ [])) }
        ensures as_before { OnErr result (ListsTheSame self.old self.new) }
        ensures stands { OnErr result
            ((packages : Items Package) → StandsFor self.old packages → StandsFor self.new packages) }
    {
        let noted = note_package(self.alloc, &mut self.lists, package);
        if noted.is_err() {
            drop_spots(&mut self.lists, package.uid);
        }
        noted
    }

    /// Removes the package of the uid, if there is one. Takes no memory.
    pub fn drop_uid(&mut self, uid: u32)
        ensures { (packages : Items Package) →
            StandsFor self.old packages →
            StandsFor self.new (without_package packages uid) }
    {
        drop_spots(&mut self.lists, uid);
    }

    /// The components of the kind that the intent finds in the packages of the index, in the order
    /// of the rules: by falling priority first, and at last by uid and place. With `need_default` a
    /// filter must list the default category. Each full test of a filter is a step: at most as many
    /// as the intent's group has filters, and none if the intent names a component.
    pub fn candidates<L: Ledger>(
        &self,
        alloc: Global,
        rules: Rules,
        packages: &List<Package>,
        kind: Kind,
        intent: &Intent,
        need_default: bool,
        steps: &mut Steps<L>,
    ) -> Result<List<Candidate>, NoMemory>
        requires { StandsFor self.now packages.now }
        ensures found { IfOk result
            (λ found. found ≡ found_by rules packages.now kind intent.now need_default) }
        ensures tests { steps.new ≤ steps.old + group_size packages.now kind intent.now }
        ensures explicit { IsSome intent.now.component → steps.new ≡ steps.old }
    {
        let search = Search {
            rules,
            kind,
            intent,
            need_default,
        };
        let spots = spots_for(alloc, &self.lists, kind, intent)?;
        let found = candidates_of_spots(alloc, packages, &search, spots.as_slice(), steps)?;
        in_turn(rules, found)
    }
}
