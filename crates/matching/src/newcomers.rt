// A bid that meets the queue of the other side.
ghost use Rattle.std.specs.Prelude.{◌≡◌};
ghost use Rattle.model.specs.Matching.{crosses};
ghost use Rattle.matching.specs.Dealing.{asset_by, mine_of, meets, deal_with, used_of};

use crate::listings::paid_with;
use model::words::{Bid, Standing, Trade};
use rules::{Side, obligation};

// A bid with the number it would have, its limit, which is the price that it trades and blocks at, and its ticker's currency. Kept apart
// from the session, which is the desk's: what a newcomer makes of a queue does not ask for it.
#[derive(Clone, Copy)]
pub struct Newcomer {
    pub number: u32,
    pub bid: Bid,
    pub limit: Option<u32>,
    pub currency: u8,
}

// Whether a bid of this side and limit trades at a standing price; without a limit it trades at every price.
pub fn is_crossed(side: Side, limit: Option<u32>, price: u32) -> bool
    ensures { result ≡ crosses side limit price }
{
    match (side, limit) {
        (_, None) => true,
        (Side::Buy, Some(limit)) => price <= limit,
        (Side::Sell, Some(limit)) => limit <= price,
    }
}

impl Newcomer {
    // What bids of a side on this ticker are paid with.
    pub fn asset_of(&self, side: Side) -> u8
        ensures { result ≡ asset_by self.now.currency self.now.bid.ticker side }
    {
        paid_with(self.currency, self.bid.ticker, side)
    }

    // Whether it trades with a bid that stands at this price, where it has so many lots left.
    pub fn is_met(&self, left: u32, price: u32) -> bool
        ensures { result ≡ meets self.now left price }
    {
        left > 0 && is_crossed(self.bid.side, self.limit, price)
    }

    // Its trade with a standing bid, always at the standing price.
    pub fn trade_with(&self, maker: Standing, lots: u32) -> Trade
        ensures { result ≡ (deal_with self.now maker lots).trade }
    {
        let Bid {
            holder,
            ticker,
            side,
            ..
        } = self.bid;
        match side {
            Side::Buy => Trade {
                ticker,
                buyer: holder,
                seller: maker.holder,
                buy: self.number,
                sell: maker.number,
                price: maker.price,
                lots,
            },
            Side::Sell => Trade {
                ticker,
                buyer: maker.holder,
                seller: holder,
                buy: maker.number,
                sell: self.number,
                price: maker.price,
                lots,
            },
        }
    }

    // What a trade takes from its block: of a buy all that was blocked for the lots, without a limit their cost, of a sell the lots.
    pub fn used(&self, price: u32, lots: u32) -> u64
        ensures { result ≡ used_of self.now price lots }
    {
        obligation(self.bid.side, self.limit.or(Some(price)), lots)
    }
}
