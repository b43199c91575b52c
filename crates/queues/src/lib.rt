// The queues of standing bids: who is served first, what is done to a queue, and the two queues of a ticker.
#![tactic(auto)]

pub mod books;
pub mod queue;
pub mod rankings;
#[cfg(test)]
mod tests;
