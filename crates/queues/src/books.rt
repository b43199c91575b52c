// The books of the tickers.
ghost use Rattle.std.specs.Prelude.{◌≡◌};
ghost use Rattle.model.specs.Queues.{best_price_lem};
ghost use Rattle.model.specs.Market.{other};
ghost use Rattle.model.specs.World.{blank_sheet, queue_of, average_of};
ghost use Rattle.model.specs.Calls.{new_day};
ghost use Rattle.queues.specs.Entries.{entries, has_holder_lem};
ghost use Rattle.queues.specs.Sheets.{sheet_of, sheet_named, sheet_less};

use crate::queue::Queue;
use model::averages::average_price;
use model::words::Standing;
use rules::Side;

// The two queues of a ticker, and of its trades in opening and trading the sum of price × lots and the lots.
#[derive(Clone, Copy)]
pub struct TickerBook {
    pub buys: Queue,
    pub sells: Queue,
    pub worth: u64,
    pub traded: u64,
}

impl TickerBook {
    // No bid stands, and nothing was traded.
    pub fn blank() -> TickerBook
        ensures { sheet_of result ≡ blank_sheet }
    {
        TickerBook {
            buys: Queue::empty(),
            sells: Queue::empty(),
            worth: 0,
            traded: 0,
        }
    }

    // The queue in which bids of a side stand.
    pub fn own(&self, side: Side) -> &Queue
        ensures { entries result.now ≡ queue_of (sheet_of self.now) side }
    {
        match side {
            Side::Buy => &self.buys,
            Side::Sell => &self.sells,
        }
    }

    // The queue that bids of a side trade with.
    pub fn facing(&self, side: Side) -> &Queue
        ensures { entries result.now ≡ queue_of (sheet_of self.now) (other side) }
    {
        self.own(side.opposite())
    }

    // The average price of its trades in opening and trading, where there were any.
    pub fn average(&self) -> Option<u64>
        ensures { result ≡ average_of (sheet_of self.now) }
    {
        average_price(self.worth, self.traded)
    }

    // Takes the bid of this holder and number out of the queue that it stands in, if it stands in one, and says on which side.
    pub fn take_named(&mut self, holder: u8, number: u32) -> Option<(Side, Standing)>
        ensures taken { result ≡ sheet_named holder number (sheet_of self.old) }
        ensures left { sheet_of self.new ≡ sheet_less holder number (sheet_of self.old) }
    {
        if let Some(bid) = self.buys.take_named(holder, number) {
            return Some((Side::Buy, bid));
        }
        let bid = self.sells.take_named(holder, number)?;
        Some((Side::Sell, bid))
    }

    // No trade counts for the average any more.
    pub fn start_day(&mut self)
        ensures { sheet_of self.new ≡ new_day (sheet_of self.old) }
    {
        self.worth = 0;
        self.traded = 0;
    }

    pub fn best_price(&self, side: Side) -> Option<u32>
        ensures { result ≡ best_price_lem (queue_of (sheet_of self.now) side) }
    {
        self.own(side).best_price()
    }

    // Whether the holder has a bid standing on the other side.
    pub fn has_opposite(&self, side: Side, holder: u8) -> bool
        ensures { result ≡ has_holder_lem holder (queue_of (sheet_of self.now) (other side)) }
    {
        self.facing(side).has_holder(holder)
    }
}
