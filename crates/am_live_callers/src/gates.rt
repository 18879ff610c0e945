//! Whether a caller may reach a component.
ghost use Rattle.std.specs.Prelude.{◌≡◌, IfOk};
ghost use Rattle.am_model.specs.Gates.{verdict};
ghost use Rattle.am_model.specs.Receivers.{rule_of};

use am_gates::refusal;
use am_resolve::Board;
use am_types::{Decl, NoMemory, Rule};

/// The rule by which the gate keeps the caller from a component that the package with the uid
/// declares; none if it admits the caller.
pub fn gate(board: &Board, caller: u32, uid: u32, decl: &Decl) -> Result<Option<Rule>, NoMemory>
    ensures { IfOk result (λ rule. rule
        ≡ rule_of (verdict board.now.grants caller uid decl.now.exported decl.now.permission)) }
{
    let permission = decl.permission.as_ref();
    Ok(refusal(caller, uid, decl.exported, permission, board.grants())?)
}
