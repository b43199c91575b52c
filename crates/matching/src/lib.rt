// Trades made at a register: how one is settled, and how a newcomer meets a queue.
#![tactic(auto)]

pub mod closing;
pub mod entering;
pub mod listings;
pub mod meeting;
pub mod newcomers;
pub mod settling;
