//! The definitions that the contracts of several crates cite: what `am` promises, in the terms of
//! its field. They are in `specs/`, one module for each subject; no definition speaks of the code.
#![tactic(auto)]
