//! Reads the body of a request: what a call at an endpoint asks for, or the first fault found. Nothing is
//! guessed: an object has only its own fields, a number is whole and within its range, and a text or a list
//! is within its limit.
#![tactic(auto)]

mod accounts;
mod activities;
mod broadcasts;
mod kinds;
mod packages;
mod pendings;
mod requests;

pub use requests::read_request;
