// What a bid finds at the desk.
ghost use Rattle.std.specs.Prelude.{◌≡◌, ◌+◌, ◌-◌, ◌<◌, true, not, ◌&&◌, ◌||◌, length, if◌then◌else◌, None, Ok, Err, ◌==◌, nat_lt};
ghost use Rattle.register.specs.Books.{holder_known_lem, empty_book};
ghost use Rattle.model.specs.Words.{is_some};
ghost use Rattle.model.specs.World.{average_of, queue_of};
ghost use Rattle.model.specs.Queues.{best_price_lem};
ghost use Rattle.model.specs.Market.{ticker_known, is_post_trading};
ghost use Rattle.model.specs.Checks.{first_failing, form_taken, within_limits, must, has_place_lem};
ghost use Rattle.model.specs.declared.faults.FloorRefusal.TheVariants.{QueueFull};
ghost use Rattle.model.specs.Bidding.{question, limit_of};
ghost use Rattle.queues.specs.Sheets.{sheet_of, sheets_of};
ghost use Rattle.floor.specs.Desks.{world_of};
ghost use Rattle.floor.specs.Asking.{cause_of, form_checks, newcomer_of, Askable, Outlined};

use super::Desk;
use crate::events::{Event, allowed};
use matching::entering::{Outlook, look_ahead};
use matching::listings::{quote, settlement_price};
use matching::newcomers::Newcomer;
use model::faults::FloorRefusal;
use model::words::{Bid, Session};
use queues::books::TickerBook;
use rules::{Question, Side, check, is_lots, is_price};

// Whether there is such a holder and such a ticker.
pub fn is_known(holder: u8, ticker: u8) -> bool
    ensures { result ≡ (holder_known_lem holder && ticker_known ticker) }
{
    holder < 16 && (4..=11).contains(&ticker)
}

// Whether the price, where one is stated, and the lots are within the limits.
fn is_within_limits(bid: &Bid) -> bool
    ensures { result ≡ within_limits bid.now }
{
    let priced = bid.price.is_none_or(|price| is_price(u64::from(price)));
    priced && is_lots(u64::from(bid.lots))
}

// Whether so many lots find a place in the queue of a side; no lots need none.
fn has_place(book: &TickerBook, side: Side, lots: u32) -> bool
    ensures { result ≡ (lots == 0 || nat_lt (length (queue_of (sheet_of book.now) side)) 64) }
{
    lots == 0 || book.own(side).len() < 64
}

// Whether the session takes bids of this form.
fn is_taken(session: Session, bid: &Bid) -> bool
    ensures { result ≡ form_taken session bid.now }
{
    match session {
        Session::Closed => false,
        Session::PreTrading => bid.price.is_some() && !bid.entire && bid.keep,
        Session::Trading => true,
        Session::PostTrading => bid.price.is_none() && !bid.entire,
    }
}

impl Desk {
    // The checks of a bid that look at no queue and ask no one else.
    pub(crate) fn check_form(
        &self,
        shown: Session,
        bid: &Bid,
        room: usize,
    ) -> Result<(), FloorRefusal>
        ensures { cause_of result ≡ first_failing (form_checks (world_of empty_book self.now) shown bid.now room) }
    {
        allowed(self.session, Event::Bid(shown))?;
        check(room >= 64, FloorRefusal::ShortStrip)?;
        check(
            is_known(bid.holder, bid.ticker),
            FloorRefusal::NoHolderOrTicker,
        )?;
        check(is_within_limits(bid), FloorRefusal::BeyondLimits)?;
        check(is_taken(self.session, bid), FloorRefusal::FormNotTaken)?;
        check(self.has_average(bid.ticker), FloorRefusal::NoAverage)?;
        check(self.given < 100_000, FloorRefusal::NumbersSpent)
    }

    // The book of a ticker. Kept as a demand, here and in the rest of the desk: who is asked a ticker has checked it among other things, and
    // a type for tickers that there are would be made of each number again.
    pub(crate) fn book(&self, ticker: u8) -> &TickerBook
        requires { ticker_known ticker ≡ true }
        ensures { sheet_of result.now ≡ sheets_of self.now.books ticker }
    {
        &self.books[(ticker - 4) as usize]
    }

    // Whether bids on a ticker have a price to trade at: after trading they need its average.
    fn has_average(&self, ticker: u8) -> bool
        requires { ticker_known ticker ≡ true }
        ensures { result ≡ (not (is_post_trading self.now.session) || is_some (average_of (sheets_of self.now.books ticker))) }
    {
        match self.session {
            Session::PostTrading => self.book(ticker).average().is_some(),
            _ => true,
        }
    }

    // The price that a bid trades and blocks at: the stated one, after trading the average.
    fn limit(&self, bid: &Bid) -> Option<u32>
        requires { Askable self.now bid.now }
        ensures { result ≡ limit_of (world_of empty_book self.now) bid.now }
    {
        match self.session {
            Session::PostTrading => self.book(bid.ticker).average().map(|price| price as u32),
            _ => bid.price,
        }
    }

    // The bid as it meets the queues, with the number it would have.
    pub(crate) fn newcomer(&self, bid: Bid) -> Newcomer
        requires askable { Askable self.now bid }
        requires numbers { self.now.given < 100000 }
        ensures { result ≡ newcomer_of (world_of empty_book self.now) bid }
    {
        Newcomer {
            number: self.given + 1,
            bid,
            limit: self.limit(&bid),
            currency: quote(&self.listing, bid.ticker).currency,
        }
    }

    // The best price of a side that the rule is told; after trading it is told none.
    fn told(&self, ticker: u8, side: Side) -> Option<u32>
        requires { ticker_known ticker ≡ true }
        ensures { result ≡ (if is_post_trading self.now.session then None else best_price_lem (queue_of (sheets_of self.now.books ticker) side)) }
    {
        match self.session {
            Session::PostTrading => None,
            _ => self.book(ticker).best_price(side),
        }
    }

    // What the market rule is asked about a bid.
    pub(crate) fn question(&self, bid: &Bid) -> Question
        requires { ticker_known bid.now.ticker ≡ true }
        ensures { result ≡ question (world_of empty_book self.now) bid.now }
    {
        Question {
            side: bid.side,
            price: bid.price,
            lots: bid.lots,
            best_buy: self.told(bid.ticker, Side::Buy),
            best_sell: self.told(bid.ticker, Side::Sell),
            settlement: settlement_price(&self.listing, bid.ticker),
            opposite: self.book(bid.ticker).has_opposite(bid.side, bid.holder),
        }
    }

    // What a bid will make of the queues, refused where its rest would find no place.
    pub(crate) fn outlook(&self, newcomer: &Newcomer) -> Result<Outlook, FloorRefusal>
        requires known { ticker_known newcomer.now.bid.ticker ≡ true }
        requires newcomer { newcomer.now ≡ newcomer_of (world_of empty_book self.now) newcomer.now.bid }
        ensures full { cause_of result ≡ must (has_place_lem (world_of empty_book self.now) newcomer.now.bid) QueueFull }
        ensures outlook { elim result [ Ok o ↦ Outlined (world_of empty_book self.now) newcomer.now.bid o | Err e ↦ Unit {0} ] }
    {
        let side = newcomer.bid.side;
        let book = self.book(newcomer.bid.ticker);
        let outlook = look_ahead(self.session, newcomer, book.facing(side).bids());
        let rest = newcomer.rest(outlook.left);
        check(has_place(book, side, rest), FloorRefusal::QueueFull)?;
        Ok(outlook)
    }
}
