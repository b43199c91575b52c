// The opening auction: the price at which most lots trade, and the trades at it, ticker by ticker.
#![tactic(auto)]

pub mod pairs;
pub mod prices;
pub mod tickers;
pub mod volumes;
