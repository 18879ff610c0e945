ghost use Rattle.std.specs.Prelude.{◌≡◌, ◌&&◌, not, IfOk};
ghost use Rattle.std.specs.Option.{option_copied};
ghost use Rattle.am_model.specs.Boards.{is_grant, is_granted};
ghost use Rattle.am_model.specs.Gates.{holds, is_privileged, verdict};
ghost use Rattle.am_model.specs.Receivers.{is_protected, rule_of};
ghost use Rattle.am_gates.specs.Rulings.{verdict_of};

use am_types::{Grant, List, ROOT, Rule, SYSTEM, Text};
use std::alloc::AllocError;

/// What is decided about a caller.
#[derive(Clone, Copy, Debug, PartialEq, Eq)]
pub enum Ruling<'a> {
    /// It may reach the component.
    Admit,
    /// The component isn't exported, and the caller is another app.
    NotExported,
    /// The caller doesn't hold this permission, which the component asks for.
    NeedsPermission(&'a Text),
}

/// What is decided about a caller of a component with this owner: the system, the root and the owner are
/// admitted; others are admitted if the component is exported and they hold its permission, if it asks for
/// one. Uids may be any; the grants may be in any order. (AOSP,
/// `ActivityManager.checkComponentPermission`.) Takes no memory.
pub fn verdict<'a>(
    caller: u32,
    owner: u32,
    exported: bool,
    permission: Option<&'a Text>,
    grants: &List<Grant>,
) -> Ruling<'a>
    ensures { verdict_of result
        ≡ verdict grants.now caller owner exported (option_copied permission.entry) }
{
    if is_privileged(caller) || caller == owner {
        return Ruling::Admit;
    }
    if !exported {
        return Ruling::NotExported;
    }
    match permission {
        Some(permission) if !holds(caller, permission, grants) => {
            Ruling::NeedsPermission(permission)
        }
        _ => Ruling::Admit,
    }
}

/// The rule by which [`verdict`] keeps the caller from the component; none if it admits the caller.
///
/// # Errors
///
/// `AllocError` if memory runs out.
pub fn refusal(
    caller: u32,
    owner: u32,
    exported: bool,
    permission: Option<&Text>,
    grants: &List<Grant>,
) -> Result<Option<Rule>, AllocError>
    ensures { IfOk result (λ refusal. refusal
        ≡ rule_of (verdict grants.now caller owner exported (option_copied permission.entry))) }
{
    match verdict(caller, owner, exported, permission, grants) {
        Ruling::Admit => Ok(None),
        Ruling::NotExported => Ok(Some(Rule::NotExported)),
        Ruling::NeedsPermission(permission) => Ok(Some(Rule::NeedsPermission(permission.clone()?))),
    }
}

/// Whether the uid holds the permission: the system and the root hold every permission, an app those that
/// were granted to it. (AOSP, the same method; that grants are handed in is (own).) Takes no memory.
pub fn holds(uid: u32, permission: &Text, grants: &List<Grant>) -> bool
    ensures { result ≡ holds grants.now uid permission.now }
{
    holds_named(uid, permission.as_str(), grants)
}

/// Whether the uid holds the permission with this name, as in [`holds`]. Takes no memory.
pub fn holds_named(uid: u32, permission: &str, grants: &List<Grant>) -> bool
    ensures { result ≡ holds grants.now uid permission.now }
{
    is_privileged(uid) || is_granted(grants, uid, permission)
}

/// Whether the permission with this name was granted to the uid itself, whichever uid it is. Takes no memory.
pub fn is_granted(grants: &List<Grant>, uid: u32, permission: &str) -> bool
    ensures { result ≡ is_granted grants.now uid permission.now }
{
    grants
        .as_slice()
        .iter()
        .any(|grant| is_grant(grant, uid, permission))
}

/// Whether the caller may not broadcast the action: it is protected, and the caller is neither the system nor the
/// root. Takes no memory.
pub fn is_withheld(protected: &List<Text>, action: &Option<Text>, caller: u32) -> bool
    ensures { result ≡ is_protected protected.now action.now && not (is_privileged caller) }
{
    is_protected(protected, action) && !is_privileged(caller)
}

/// There is an action, and it is protected.
fn is_protected(protected: &List<Text>, action: &Option<Text>) -> bool
    ensures { result ≡ is_protected protected.now action.now }
{
    match action {
        None => false,
        Some(action) => protected.as_slice().contains(action),
    }
}

/// Whether the uid is the system's or the root's. Takes no memory.
pub fn is_privileged(uid: u32) -> bool
    ensures { result ≡ is_privileged uid }
{
    uid == ROOT || uid == SYSTEM
}

/// The grant is for this uid and permission.
fn is_grant(grant: &Grant, uid: u32, permission: &str) -> bool
    ensures { result ≡ is_grant uid permission.now grant.now }
{
    grant.uid == uid && grant.permission.as_str() == permission
}
