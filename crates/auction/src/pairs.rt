// The next trade of an opening: the best remaining buy with the best remaining sell.
ghost use Rattle.std.specs.Prelude.{◌≡◌, ◌≤◌};
ghost use Rattle.model.specs.Movements.{Granted, moved_all, settlement};
ghost use Rattle.queues.specs.Entries.{entries, first_of};
ghost use Rattle.queues.specs.Sheets.{sheet_of};
ghost use Rattle.auction.specs.Pairs.{pair_of, pair_deal, next_deal, trade_in, deal_moves, traded_on, after_trade, SumsHeld};

use crate::volumes::reaches;
use matching::closing::slip_of;
use matching::settling::settle;
use model::words::{Standing, Trade};
use queues::books::TickerBook;
use register::registers::Register;
use rules::Side;

// The opening of a ticker: which it is, the currency that it is paid in, and the price of its trades.
#[derive(Clone, Copy)]
pub struct Auction {
    pub ticker: u8,
    pub currency: u8,
    pub price: u32,
}

// Takes a trade's lots from the first bids of both queues, and adds it to the sums.
fn note_trade(book: &mut TickerBook, trade: Trade)
    requires { SumsHeld (traded_on trade (sheet_of book.old)) }
    ensures { sheet_of book.new ≡ traded_on trade (sheet_of book.old) }
{
    book.buys.take_lots(trade.lots);
    book.sells.take_lots(trade.lots);
    book.worth += u64::from(trade.price) * u64::from(trade.lots);
    book.traded += u64::from(trade.lots);
}

impl Auction {
    // The first buy and the first sell, where both reach the price.
    fn first_pair(&self, book: &TickerBook) -> Option<(Standing, Standing)>
        ensures { result ≡ pair_of self.now.price (first_of (entries book.now.buys)) (first_of (entries book.now.sells)) }
    {
        let (buy, sell) = book.buys.first().zip(book.sells.first())?;
        let bought = reaches(&buy, Side::Buy, self.price);
        let sold = reaches(&sell, Side::Sell, self.price);
        (bought && sold).then_some((buy, sell))
    }

    // Trades as many lots as both bids have. The buyer has blocked his own price; what that is beyond the trade's goes back to him.
    fn settle_pair<R: Register>(&self, register: &mut R, buy: Standing, sell: Standing) -> Trade
        requires granted { Granted (settlement self.now.currency (pair_deal self.now.ticker self.now.price buy sell)) (R.Register.means register.old) }
        requires reached { self.now.price ≤ buy.price }
        ensures trade { result ≡ (pair_deal self.now.ticker self.now.price buy sell).trade }
        ensures book { R.Register.means register.new ≡ moved_all (settlement self.now.currency (pair_deal self.now.ticker self.now.price buy sell)) (R.Register.means register.old) }
    {
        let lots = buy.lots.min(sell.lots);
        let cash = slip_of(Standing { lots, ..buy }, Side::Buy, self.currency);
        let goods = slip_of(Standing { lots, ..sell }, Side::Sell, self.ticker);
        settle(
            register,
            cash,
            goods,
            u64::from(self.price) * u64::from(lots),
        );
        Trade {
            ticker: self.ticker,
            buyer: buy.holder,
            seller: sell.holder,
            buy: buy.number,
            sell: sell.number,
            price: self.price,
            lots,
        }
    }

    // The next trade at the price, made at the register and noted in the book; none where the two first bids do not both reach it.
    pub fn next_trade<R: Register>(&self, register: &mut R, book: &mut TickerBook) -> Option<Trade>
        requires granted { Granted (deal_moves self.now.currency (next_deal self.now.ticker self.now.price (sheet_of book.old))) (R.Register.means register.old) }
        requires sums { SumsHeld (after_trade (trade_in (next_deal self.now.ticker self.now.price (sheet_of book.old))) (sheet_of book.old)) }
        ensures trade { result ≡ trade_in (next_deal self.now.ticker self.now.price (sheet_of book.old)) }
        ensures book { R.Register.means register.new ≡ moved_all (deal_moves self.now.currency (next_deal self.now.ticker self.now.price (sheet_of book.old))) (R.Register.means register.old) }
        ensures sheet { sheet_of book.new ≡ after_trade result (sheet_of book.old) }
    {
        let (buy, sell) = self.first_pair(book)?;
        let trade = self.settle_pair(register, buy, sell);
        note_trade(book, trade);
        Some(trade)
    }
}
