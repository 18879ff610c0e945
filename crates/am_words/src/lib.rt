//! Turns the words after the program's name into a command.
#![tactic(auto)]

mod command;
mod commands;
mod options;
mod values;

pub use command::{
    Command, DrillWords, QuestionWords, ServingWords, SessionWords, StepWords, WordsFault,
};
pub use commands::read_command;
