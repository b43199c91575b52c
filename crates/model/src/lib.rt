// The words of a trading floor. What a floor does with them is defined in specs/; the laws of those definitions stand in `laws`.
#![tactic(auto)]

pub mod averages;
pub mod calls;
pub mod faults;
pub mod invariant;
pub mod laws;
pub mod words;
