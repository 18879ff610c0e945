//! Which activities a caller may start.
ghost use Rattle.std.specs.Prelude.{◌≡◌};
ghost use Rattle.am_gates.specs.Rulings.{verdict_of};
ghost use Rattle.am_model.specs.Links.{admits, may_start};

use am_gates::{Ruling, verdict};
use am_installed::Installed;
use am_types::{Hit, Kind};

/// The caller is admitted.
fn admits(ruling: Ruling) -> bool
    ensures { result ≡ admits (verdict_of ruling.entry) }
{
    match ruling {
        Ruling::Admit => true,
        Ruling::NotExported | Ruling::NeedsPermission(_) => false,
    }
}

/// Whether the gate lets the caller start the activity. Takes no memory.
pub fn may_start(installed: &Installed, caller: u32, hit: &Hit) -> bool
    ensures { result ≡ may_start installed.now caller hit.now }
{
    let Some((owner, decl)) = installed.declared(Kind::Activity, &hit.component) else {
        return false;
    };
    let permission = decl.permission.as_ref();
    let ruling = verdict(caller, owner, decl.exported, permission, installed.grants());
    admits(ruling)
}
