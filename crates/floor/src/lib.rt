// A trading floor: what it keeps, what each session lets run, and its calls.
#![tactic(auto)]

pub mod desk;
pub mod events;
mod faults;
pub mod floors;
pub mod passes;
pub mod runner;
mod state;
#[cfg(test)]
mod tests;
