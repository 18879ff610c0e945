//! Laws of what is installed, over every history. They have no code: each function does nothing, and its
//! contract is the law.
#![tactic(auto)]

ghost use Rattle.am_laws_state.specs.Keys.{KeysAreExact};
ghost use Rattle.am_laws_state.specs.Laws.{StatesAreSound};

/// After every history of a manager of a sound device, what is installed is sound, and so are the
/// grants, links and registered receivers. Takes no memory.
pub fn states_are_sound()
    ensures { StatesAreSound }
{}

/// In a sound state a uid has a key if and only if a caller has it, and the key has that uid and no other. Takes
/// no memory.
pub fn keys_are_exact()
    ensures { KeysAreExact }
{}
