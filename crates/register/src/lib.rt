// Deposits by holder and asset: what a register is, and what its five movements do.
#![tactic(auto)]

pub mod faults;
pub mod registers;
pub mod slips;
pub mod uses;
