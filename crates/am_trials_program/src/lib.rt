//! Trials of the program behind its `main`, when something fails or comes in pieces: connections, keepers, how runs
//! end, and servings over a network, also of two workers at the same time.
#![tactic(auto)]

#[cfg(test)]
mod connections;
#[cfg(test)]
mod failing;
#[cfg(test)]
mod resting;
#[cfg(test)]
mod servings;
#[cfg(test)]
mod sessions;
#[cfg(test)]
mod waiting;
