// Lists of calls, made one after the other through a floor's own calls.
ghost use Rattle.std.specs.Prelude.{◌≡◌, ◌-◌, ◌≤◌, min, length, take};
ghost use Rattle.model.specs.Calls.{answer, after, trades};
ghost use Rattle.model.specs.SoundLaws.{room_of_lem};
ghost use Rattle.model.specs.declared.calls.Call.TheVariants as call;
ghost use Rattle.floor.specs.Floors.{seen};
ghost use Rattle.model.specs.World.{made};
ghost use Rattle.model.specs.Tally.{Tally, blank, tally_of};
ghost use Rattle.model.specs.Law.{Law, Together};
ghost use Rattle.floor.specs.Lists.{lent, lent_from, count_of, recorded, Quiet, Ran, GoesOn};
ghost use Rattle.floor.specs.Making.{Made, Lent};
ghost use Rattle.model.specs.declared.calls.Answer.TheVariants.{Refused};
ghost use Rattle.model.specs.declared.faults.Cause.TheVariants.{Floor as ByFloor};
ghost use Rattle.model.specs.declared.faults.FloorRefusal.TheVariants.{WrongSession};

use crate::floors::Floor;
use crate::passes::PreTradingPass;
use model::calls::{Answer, Call};
use model::faults::{CallKind, Cause, Fault, FloorRefusal};
use model::words::{Bid, Session, Trade};
use register::registers::Register;
use rules::MarketRule;

// A call that shows a pass where there is none: a closed floor has no pass.
fn no_pass(call: CallKind, ticker: u8) -> Answer
    ensures { result ≡ Refused (record { cause = ByFloor WrongSession; call = call; ticker = ticker }) }
{
    Answer::Refused(Fault {
        cause: Cause::Floor(FloorRefusal::WrongSession),
        call,
        ticker,
    })
}

// A bid that shows the pass of the session that it names, whatever the floor's own session is. Kept as a match, here and below: calls of a
// list go through the floor's own calls, which take a pass, and each pass is of a type of its own.
fn place<R: Register, M: MarketRule>(
    floor: &mut Floor<R, M>,
    shown: Session,
    bid: Bid,
    strip: &mut [Trade],
) -> Answer
    ensures { Made R.Register.means M.MarketRule.means (call.Place shown bid (length strip.old)) floor.old.state floor.new.state strip.old strip.new result }
{
    match shown {
        Session::Closed => no_pass(CallKind::Bid, bid.ticker),
        Session::PreTrading => floor
            .bid(&PreTradingPass::new(), bid, strip)
            .map_or_else(Answer::Refused, Answer::Placed),
        Session::Trading => floor
            .bid(&PreTradingPass::new().open(), bid, strip)
            .map_or_else(Answer::Refused, Answer::Placed),
        Session::PostTrading => {
            floor
                .bid(&PreTradingPass::new().open().end(), bid, strip)
                .map_or_else(Answer::Refused, Answer::Placed)
        }
    }
}

// A cancellation that shows the pass of the session that it names.
fn cancel<R: Register, M: MarketRule>(
    floor: &mut Floor<R, M>,
    shown: Session,
    holder: u8,
    ticker: u8,
    number: u32,
    strip: &mut [Trade],
) -> Answer
    ensures { Made R.Register.means M.MarketRule.means (call.Cancel shown holder ticker number) floor.old.state floor.new.state strip.old strip.new result }
{
    match shown {
        Session::Closed => no_pass(CallKind::Cancel, ticker),
        Session::PreTrading => {
            let cancelled = floor.cancel(&PreTradingPass::new(), holder, ticker, number);
            cancelled.map_or_else(Answer::Refused, Answer::Cancelled)
        }
        Session::Trading => {
            let cancelled = floor.cancel(&PreTradingPass::new().open(), holder, ticker, number);
            cancelled.map_or_else(Answer::Refused, Answer::Cancelled)
        }
        Session::PostTrading => {
            let pass = PreTradingPass::new().open().end();
            let cancelled = floor.cancel(&pass, holder, ticker, number);
            cancelled.map_or_else(Answer::Refused, Answer::Cancelled)
        }
    }
}

// One call of a list, with this strip. Calls that take a pass are given one of their kind: the floor itself says whether it fits.
fn make_call<R: Register, M: MarketRule>(
    floor: &mut Floor<R, M>,
    call: Call,
    strip: &mut [Trade],
) -> Answer
    ensures { Made R.Register.means M.MarketRule.means (lent (length strip.old) call) floor.old.state floor.new.state strip.old strip.new result }
{
    match call {
        Call::Start { listing } => floor
            .start(listing)
            .map_or_else(Answer::Refused, |_| Answer::Done),
        Call::Deposit {
            holder,
            asset,
            amount,
        } => floor
            .deposit(holder, asset, amount)
            .map_or_else(Answer::Refused, |_| Answer::Done),
        Call::Withdraw {
            holder,
            asset,
            amount,
        } => floor
            .withdraw(holder, asset, amount)
            .map_or_else(Answer::Refused, |_| Answer::Done),
        Call::Place {
            shown,
            bid,
            room: _,
        } => place(floor, shown, bid, strip),
        Call::Cancel {
            shown,
            holder,
            ticker,
            number,
        } => cancel(floor, shown, holder, ticker, number, strip),
        Call::Open { room: _ } => floor.open(PreTradingPass::new(), strip).map_or_else(
            |(fault, _)| Answer::Refused(fault),
            |(_, count)| Answer::Opened(count),
        ),
        Call::EndTrading => floor
            .end_trading(PreTradingPass::new().open())
            .map_or_else(|(fault, _)| Answer::Refused(fault), |_| Answer::Done),
        Call::EndPostTrading => {
            let ended = floor.end_post_trading(PreTradingPass::new().open().end());
            ended.map_or_else(|(fault, _)| Answer::Refused(fault), |_| Answer::Done)
        }
    }
}

// The records that a call asks for.
fn room_of(call: &Call) -> usize
    ensures { result ≡ room_of_lem call.now }
{
    match call {
        Call::Place { room, .. } => *room,
        Call::Open { room } => *room,
        _ => 0,
    }
}

// The trades that an answer tells of.
pub fn count_of(answer: &Answer) -> usize
    ensures { result ≡ count_of answer.now }
{
    match answer {
        Answer::Placed(receipt) => receipt.count,
        Answer::Opened(count) => *count,
        _ => 0,
    }
}

// Makes a call with a strip cut from what is left of the tape: as long as the call asks for, or all that is left. Kept as a tape and the
// records used of it: a slice of what is left would have to be lent anew for each call, and then none could say what stands in front of it.
fn lend_call<R: Register, M: MarketRule>(
    floor: &mut Floor<R, M>,
    call: Call,
    tape: &mut [Trade],
    used: usize,
) -> Answer
    requires { used ≤ length tape.old }
    ensures { Lent R.Register.means M.MarketRule.means (lent_from (length tape.old - used) call) used floor.old.state floor.new.state tape.old tape.new result }
{
    let end = used + room_of(&call).min(tape.len() - used);
    make_call(floor, call, &mut tape[used..end])
}

// Goes on with a floor: makes the calls one after the other, as many as there is room for answers, and answers how many. Each call's
// trades stand on the tape behind those of the calls before it.
pub fn resume<R: Register, M: MarketRule>(
    floor: &mut Floor<R, M>,
    calls: &[Call],
    answers: &mut [Answer],
    tape: &mut [Trade],
) -> usize
    ensures made { result ≡ min (length calls.now) (length answers.old) }
    ensures ran { Ran (M.MarketRule.means floor.old.state.rule) (seen R.Register.means floor.old.state) (take result calls.now) (seen R.Register.means floor.new.state) answers.old answers.new tape.old tape.new }
    ensures rule { floor.new.state.rule ≡ floor.old.state.rule }
    ensures law { (y : Tally) → Together (M.MarketRule.means floor.old.state.rule) (seen R.Register.means floor.old.state) y → GoesOn (M.MarketRule.means floor.old.state.rule) (seen R.Register.means floor.new.state) (tally_of y (recorded (take result calls.now) answers.new tape.new)) }
{
    // Kept as places counted up to a limit: with the calls zipped to the answers the proof did not close, since such a loop tells nothing of
    // the answers that it has written.
    let limit = calls.len().min(answers.len());
    let mut used = 0;
    for (i, call) in calls[..limit].iter().enumerate() {
        let answer = lend_call(floor, *call, tape, used);
        answers[i] = answer;
        used += count_of(&answer);
    }
    limit
}

// Makes a floor over a register and under a rule, and then the calls.
pub fn run<R: Register, M: MarketRule>(
    register: R,
    rule: M,
    calls: &[Call],
    answers: &mut [Answer],
    tape: &mut [Trade],
) -> Floor<R, M>
    ensures ran { Ran (M.MarketRule.means rule) (made (R.Register.means register)) (take (length answers.old) calls.now) (seen R.Register.means result.state) answers.old answers.new tape.old tape.new }
    ensures rule { result.state.rule ≡ rule }
    ensures law { Quiet (R.Register.means register) → Law (M.MarketRule.means rule) (seen R.Register.means result.state) (tally_of (blank (R.Register.means register)) (recorded (take (length answers.old) calls.now) answers.new tape.new)) }
{
    let mut floor = Floor::new(register, rule);
    resume(&mut floor, calls, answers, tape);
    floor
}
