//! Trials of what no session shows: bodies, targets and manifests that no frame holds, replies that no call causes,
//! and what the root sees.
#![tactic(auto)]

#[cfg(test)]
mod trials;
