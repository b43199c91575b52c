// A newcomer trades with the queue of the other side, in its order.
ghost use Rattle.std.specs.Prelude.{◌≡◌, ◌+◌, ◌-◌, ◌*◌, ◌<◌, ◌≤◌, ◌++◌, length};
ghost use Rattle.std.specs.List.{flat_map};
ghost use Rattle.model.specs.Average.{cost_of};
ghost use Rattle.model.specs.Matching.{trades_of};
ghost use Rattle.model.specs.Movements.{Granted, moved_all, settlement};
ghost use Rattle.queues.specs.Entries.{entries};
ghost use Rattle.matching.specs.Exchanges.{exchange_by};
ghost use Rattle.matching.specs.Dealing.{mine_of, deal_with, used_of, met_by, first_deal};
ghost use Rattle.matching.specs.Meetings.{Payable, Settles, Ready, trade_of, book_after, queue_after, amount_after, Swept};

use crate::closing::slip_of;
use crate::newcomers::Newcomer;
use crate::settling::settle;
use model::words::{Standing, Trade};
use queues::queue::Queue;
use register::registers::Register;
use register::slips::Slip;
use rules::Side;

// What a newcomer would be left with, and what its trades would cost, if it met a queue.
#[derive(Clone, Copy)]
pub struct Prospect {
    pub left: u32,
    pub cost: u64,
}

// Looks along the queue and changes nothing.
pub fn survey(newcomer: &Newcomer, bids: &[Standing]) -> Prospect
    ensures left { result.left ≡ (met_by newcomer.now newcomer.now.bid.lots bids.now).left }
    ensures cost { result.cost ≡ cost_of (trades_of (met_by newcomer.now newcomer.now.bid.lots bids.now).deals) }
{
    let mut left = newcomer.bid.lots;
    let mut cost = 0u64;
    for bid in bids {
        if !newcomer.is_met(left, bid.price) {
            return Prospect { left, cost };
        }
        let lots = left.min(bid.lots);
        left -= lots;
        cost += u64::from(bid.price) * u64::from(lots);
    }
    Prospect { left, cost }
}

// Settles between the slip of a bid of this side and that of a bid of the other.
fn settle_by<R: Register>(register: &mut R, side: Side, mine: Slip, theirs: Slip, worth: u64)
    requires { Payable side mine theirs worth (R.Register.means register.old) }
    ensures { R.Register.means register.new ≡ moved_all (exchange_by side mine theirs worth) (R.Register.means register.old) }
{
    match side {
        Side::Buy => settle(register, mine, theirs, worth),
        Side::Sell => settle(register, theirs, mine, worth),
    }
}

// One trade of `lots` with a standing bid: the newcomer's part is cut off its slip, and what the standing bid no longer obliges to
// comes back as a slip of its own.
fn settle_with<R: Register>(
    register: &mut R,
    slip: &mut Slip,
    newcomer: &Newcomer,
    maker: Standing,
    lots: u32,
)
    requires { Settles newcomer.now maker lots (R.Register.means register.old) slip.old }
    ensures book { R.Register.means register.new ≡ moved_all (settlement newcomer.now.currency (deal_with newcomer.now maker lots)) (R.Register.means register.old) }
    ensures slip { slip.new ≡ mine_of newcomer.now (slip.old.amount - used_of newcomer.now maker.price lots) }
{
    let mine = slip.cut_off(newcomer.used(maker.price, lots));
    let facing = newcomer.bid.side.opposite();
    let met = Standing { lots, ..maker };
    let theirs = slip_of(met, facing, newcomer.asset_of(facing));
    let worth = u64::from(maker.price) * u64::from(lots);
    settle_by(register, newcomer.bid.side, mine, theirs, worth);
}

// The trade with the first bid of the queue, if the newcomer meets it with the lots that it has left.
fn meet_first<R: Register>(
    register: &mut R,
    queue: &mut Queue,
    slip: &mut Slip,
    newcomer: &Newcomer,
    left: u32,
) -> Option<Trade>
    requires { Ready newcomer.now (met_by newcomer.now left (entries queue.old)) (R.Register.means register.old) slip.old }
    ensures answer { result ≡ trade_of (first_deal newcomer.now left (entries queue.old)) }
    ensures book { R.Register.means register.new ≡ book_after newcomer.now (R.Register.means register.old) (first_deal newcomer.now left (entries queue.old)) }
    ensures queue { entries queue.new ≡ queue_after (entries queue.old) (first_deal newcomer.now left (entries queue.old)) }
    ensures slip { slip.new ≡ mine_of newcomer.now (amount_after newcomer.now slip.old.amount (first_deal newcomer.now left (entries queue.old))) }
{
    let maker = queue.first()?;
    if !newcomer.is_met(left, maker.price) {
        return None;
    }
    let lots = left.min(maker.lots);
    settle_with(register, slip, newcomer, maker, lots);
    queue.take_lots(lots);
    Some(newcomer.trade_with(maker, lots))
}

// Trades with the queue in its order, as long as the newcomer meets its first bid, and answers the count of the trades, which are
// written to the front of the strip. Kept as parameters: a struct of the register, the slip and the newcomer would borrow all three for
// one call, and its clauses would name each of them again. So is the count beside the strip, here and where a bid enters: each caller is
// lent the strip, and would make a struct of it and take it apart again.
pub fn meet_queue<R: Register>(
    register: &mut R,
    queue: &mut Queue,
    slip: &mut Slip,
    strip: &mut [Trade],
    newcomer: &Newcomer,
) -> usize
    requires ready { Ready newcomer.now (met_by newcomer.now newcomer.now.bid.lots (entries queue.old)) (R.Register.means register.old) slip.old }
    requires room { length (entries queue.old) ≤ length strip.old }
    ensures { Swept newcomer.now (met_by newcomer.now newcomer.now.bid.lots (entries queue.old)) (entries queue.new) (R.Register.means register.old) (R.Register.means register.new) strip.old strip.new slip.new result }
{
    // Kept as a loop with a count: the queue says when it ends, and a loop over the strip would have an end that never comes.
    let mut count = 0;
    let mut left = newcomer.bid.lots;
    while let Some(trade) = meet_first(register, queue, slip, newcomer, left) {
        strip[count] = trade;
        count += 1;
        left -= trade.lots;
    }
    count
}
