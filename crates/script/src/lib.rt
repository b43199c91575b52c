// Lines of text as calls of a floor and looks at it, and the program's options.
#![tactic(auto)]

mod bids;
pub mod commands;
mod deposits;
mod listings;
mod looks;
pub mod options;
pub mod reading;
mod verbs;
pub mod words;
