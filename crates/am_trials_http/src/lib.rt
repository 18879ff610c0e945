//! Trials of frames and responses that no session shows, and of the adapters of the standard streams, the clock and
//! TCP.
#![tactic(auto)]

#[cfg(test)]
mod frames;
#[cfg(test)]
mod host;
#[cfg(test)]
mod responses;
#[cfg(test)]
mod tcp;
