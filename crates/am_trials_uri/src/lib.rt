//! Trials of URIs and paths whose values no request shows.
#![tactic(auto)]

#[cfg(test)]
mod uris;
