//! Trials of what no program asks of a keeper over a database and of a manager: the rows now, and room for calls.
#![tactic(auto)]

#[cfg(test)]
mod asked;
