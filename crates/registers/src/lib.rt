// Registers that keep the accounts themselves.
#![tactic(auto)]

mod accounts;
pub mod balances;
pub mod bottom;
mod entries;
pub mod list;
pub mod table;
