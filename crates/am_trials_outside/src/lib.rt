//! Trials of the outside in memory.
#![tactic(auto)]

#[cfg(test)]
mod outside;
