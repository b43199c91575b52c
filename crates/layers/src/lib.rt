// Registers made of registers: a layer of caps over one, and two that share the assets.
#![tactic(auto)]

pub mod caps;
pub mod piles;
pub mod splits;
