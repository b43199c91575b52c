// A bid enters the books of its ticker: it trades with the queue it faces, and its rest stands or is released.
ghost use Rattle.std.specs.Prelude.{◌≡◌, ◌+◌, ◌-◌, ◌^◌, ◌<◌, ◌≤◌, cond, ◌⊎◌, ◌++◌, length, ◌==◌};
ghost use Rattle.ranking.specs.Ranks.{insert_ranked};
ghost use Rattle.register.specs.Moves.{Release};
ghost use Rattle.model.specs.Words.{only};
ghost use Rattle.model.specs.Market.{other};
ghost use Rattle.model.specs.Queues.{before};
ghost use Rattle.model.specs.Average.{cost_of};
ghost use Rattle.model.specs.Matching.{trades_of, untouched};
ghost use Rattle.model.specs.Movements.{Granted, moved_all};
ghost use Rattle.model.specs.World.{queue_of, sheet_by};
ghost use Rattle.model.specs.Calls.{counted};
ghost use Rattle.queues.specs.Entries.{entries};
ghost use Rattle.queues.specs.Sheets.{sheet_of};
ghost use Rattle.matching.specs.Dealing.{met_by};
ghost use Rattle.matching.specs.Meetings.{Ready};
ghost use Rattle.matching.specs.Enterings.{encounter_by, foreseen, rest_of, owed_by, record_of, ranked_in, Faced, Enters, Entered};

use crate::meeting::{Prospect, meet_queue, survey};
use crate::newcomers::Newcomer;
use crate::settling::release;
use model::words::{Session, Standing, Trade};
use queues::books::TickerBook;
use queues::queue::{Queue, QueueFull};
use queues::rankings::{Buys, ByNumber, Sells};
use register::registers::Register;
use register::slips::Slip;
use rules::{Side, obligation};

// What a bid will make of the queue it faces: whether it trades with it at all, what is left of it, and what its trades cost.
// Kept as a flag beside numbers: what is left and what it costs are asked for whether it trades or not, and an Option would have each of
// the four who ask give the same two numbers for none.
#[derive(Clone, Copy)]
pub struct Outlook {
    pub trades: bool,
    pub left: u32,
    pub cost: u64,
}

// Before trading nothing trades, and an entire bid that would not be filled whole trades nothing.
pub fn look_ahead(session: Session, newcomer: &Newcomer, bids: &[Standing]) -> Outlook
    ensures trades { encounter_by session newcomer.now bids.now ≡ foreseen result.trades newcomer.now bids.now }
    ensures left { result.left ≡ (encounter_by session newcomer.now bids.now).left }
    ensures cost { result.cost ≡ cost_of (trades_of (encounter_by session newcomer.now bids.now).deals) }
{
    let apart = Outlook {
        trades: false,
        left: newcomer.bid.lots,
        cost: 0,
    };
    match session {
        Session::Closed | Session::PreTrading => apart,
        Session::Trading | Session::PostTrading => {
            let Prospect { left, cost } = survey(newcomer, bids);
            if newcomer.bid.entire && left > 0 {
                return apart;
            }
            Outlook {
                trades: true,
                left,
                cost,
            }
        }
    }
}

impl Newcomer {
    // The lots that stand where so many are left: all of a partial keep bid that has a limit.
    pub fn rest(&self, left: u32) -> u32
        ensures { result ≡ rest_of self.now left }
    {
        if self.limit.is_some() && !self.bid.entire && self.bid.keep {
            left
        } else {
            0
        }
    }

    // What is blocked for it: its obligation, but for a buy without a limit what its trades cost.
    pub fn owed(&self, cost: u64) -> u64
        ensures { result ≡ owed_by self.now cost }
    {
        match (self.bid.side, self.limit) {
            (Side::Buy, None) => cost,
            (side, limit) => obligation(side, limit, self.bid.lots),
        }
    }

    // Its record in a queue.
    fn standing(&self, lots: u32) -> Standing
        ensures { result ≡ record_of self.now lots }
    {
        Standing {
            number: self.number,
            holder: self.bid.holder,
            price: self.limit.unwrap_or(0),
            lots,
        }
    }
}

// Puts a bid into its queue by the ranking of the session and side. Kept as a match: each ranking is a type of its own.
fn put_ranked(queue: &mut Queue, session: Session, side: Side, bid: Standing)
    requires { length (entries queue.old) < 64 }
    ensures { entries queue.new ≡ insert_ranked (before session side) bid (entries queue.old) }
{
    let put = match (session, side) {
        (Session::PostTrading, _) => queue.put::<ByNumber>(bid),
        (_, Side::Buy) => queue.put::<Buys>(bid),
        (_, Side::Sell) => queue.put::<Sells>(bid),
    };
    match put {
        Ok(()) => {}
        Err(QueueFull) => unreachable(),
    }
}

// The rest of a bid takes its place in its own queue; no lots take none.
fn lodge(book: &mut TickerBook, session: Session, newcomer: &Newcomer, lots: u32)
    requires { (lots ≡ 0) ⊎ (length (queue_of (sheet_of book.old) newcomer.now.bid.side) < 64) }
    ensures { sheet_of book.new ≡ sheet_by newcomer.now.bid.side (ranked_in session newcomer.now lots (queue_of (sheet_of book.old) newcomer.now.bid.side)) (queue_of (sheet_of book.old) (other newcomer.now.bid.side)) book.old.worth book.old.traded }
{
    if lots == 0 {
        return;
    }
    let bid = newcomer.standing(lots);
    match newcomer.bid.side {
        Side::Buy => put_ranked(&mut book.buys, session, Side::Buy, bid),
        Side::Sell => put_ranked(&mut book.sells, session, Side::Sell, bid),
    }
}

// The newcomer trades with the queue it faces, if it trades at all; answers the count of its trades. `trades` is the outlook's, kept as a
// flag there.
fn face<R: Register>(
    register: &mut R,
    book: &mut TickerBook,
    slip: &mut Slip,
    strip: &mut [Trade],
    newcomer: &Newcomer,
    trades: bool,
) -> usize
    requires ready { Ready newcomer.now (foreseen trades newcomer.now (queue_of (sheet_of book.old) (other newcomer.now.bid.side))) (R.Register.means register.old) slip.old }
    requires room { length (queue_of (sheet_of book.old) (other newcomer.now.bid.side)) ≤ length strip.old }
    ensures { Faced newcomer.now (foreseen trades newcomer.now (queue_of (sheet_of book.old) (other newcomer.now.bid.side))) (sheet_of book.old) (sheet_of book.new) (R.Register.means register.old) (R.Register.means register.new) strip.old strip.new slip.new result }
{
    if !trades {
        return 0;
    }
    match newcomer.bid.side {
        Side::Buy => meet_queue(register, &mut book.sells, slip, strip, newcomer),
        Side::Sell => meet_queue(register, &mut book.buys, slip, strip, newcomer),
    }
}

// Counts trades for the average: those of trading, not those after it.
fn count_trades(book: &mut TickerBook, session: Session, cost: u64, lots: u32)
    requires worth { book.old.worth + counted session cost < 2 ^ 64 }
    requires traded { book.old.traded + counted session lots < 2 ^ 64 }
    ensures { sheet_of book.new ≡ record { buys = entries book.old.buys; sells = entries book.old.sells; worth = book.old.worth + counted session cost; traded = book.old.traded + counted session lots } }
{
    if let Session::Trading = session {
        book.worth += cost;
        book.traded += u64::from(lots);
    }
}

// The slip of lots that stand is lodged with their bid; else what it is for is released.
fn settle_rest<R: Register>(register: &mut R, slip: Slip, lots: u32)
    requires { Granted (only (lots == 0) (Release slip.holder slip.asset slip.amount)) (R.Register.means register.old) }
    ensures { R.Register.means register.new ≡ moved_all (only (lots == 0) (Release slip.holder slip.asset slip.amount)) (R.Register.means register.old) }
{
    if lots == 0 {
        release(register, slip);
    } else {
        slip.into_parts();
    }
}

// A bid that has been taken trades, and its rest stands or is released; answers the count of its trades.
pub fn enter<R: Register>(
    register: &mut R,
    book: &mut TickerBook,
    mut slip: Slip,
    strip: &mut [Trade],
    session: Session,
    newcomer: &Newcomer,
    outlook: Outlook,
) -> usize
    requires { Enters session newcomer.now (foreseen outlook.trades newcomer.now (queue_of (sheet_of book.old) (other newcomer.now.bid.side))) outlook (sheet_of book.old) (R.Register.means register.old) slip (length strip.old) }
    ensures { Entered session newcomer.now (foreseen outlook.trades newcomer.now (queue_of (sheet_of book.old) (other newcomer.now.bid.side))) (sheet_of book.old) (sheet_of book.new) (R.Register.means register.old) (R.Register.means register.new) strip.old strip.new result }
{
    let count = face(register, book, &mut slip, strip, newcomer, outlook.trades);
    count_trades(
        book,
        session,
        outlook.cost,
        newcomer.bid.lots - outlook.left,
    );
    let rest = newcomer.rest(outlook.left);
    lodge(book, session, newcomer, rest);
    settle_rest(register, slip, rest);
    count
}
