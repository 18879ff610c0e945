//! The definitions of the manager's steps: its state, what a call does to it, the history of the
//! stored calls, and what a desk shows. They are in `specs/`. What follows from them for the
//! requests that are served today is in `proofs/`.
#![tactic(auto)]
