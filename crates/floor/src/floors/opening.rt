// The opening auction.
ghost use Rattle.std.specs.Prelude.{◌≡◌, ℕ, true, length, take, Ok, Err};
ghost use Rattle.model.specs.Market.{ticker_known};
ghost use Rattle.model.specs.Checks.{why};
ghost use Rattle.model.specs.Calls.{answer, after, trades, trades_made};
ghost use Rattle.model.specs.declared.calls.Call.TheVariants as call;
ghost use Rattle.auction.specs.Fair.{OpenedFairly};
ghost use Rattle.floor.specs.Fairness.{FairOpening};
ghost use Rattle.floor.specs.Making.{Leaves, written};
ghost use Rattle.floor.specs.Floors.{seen, SoundFloor};
ghost use Rattle.floor.specs.Replies.{opened, unless};

use super::Floor;
use crate::events::{Event, allowed};
use crate::faults::raise;
use crate::passes::{PreTradingPass, TradingPass};
use crate::state::State;
use auction::tickers::open_books;
use model::faults::{CallKind, Cause, Fault, FloorRefusal};
use model::words::Trade;
use register::registers::Register;
use rules::{MarketRule, check};

impl<R: Register, M: MarketRule> State<R, M> {
    fn auction(&mut self, strip: &mut [Trade]) -> Result<usize, Cause>
        requires { SoundFloor R.Register.means M.MarketRule.means self.old }
        ensures answer { result ≡ unless (why (M.MarketRule.means self.old.rule) (seen R.Register.means self.old) (call.Open (length strip.old))) (length (trades_made (seen R.Register.means self.old) (call.Open (length strip.old)))) }
        ensures leaves { Leaves R.Register.means self.old self.new (after (M.MarketRule.means self.old.rule) (seen R.Register.means self.old) (call.Open (length strip.old))) }
        ensures strip { strip.new ≡ written (trades (M.MarketRule.means self.old.rule) (seen R.Register.means self.old) (call.Open (length strip.old))) strip.old }
        ensures fair { FairOpening (seen R.Register.means self.old) result strip.new }
    {
        let session = allowed(self.desk.session, Event::Open)?;
        check(strip.len() >= 1024, FloorRefusal::ShortStrip)?;
        let count = open_books(
            &mut self.register,
            &mut self.desk.books,
            &self.desk.listing,
            strip,
        );
        self.desk.session = session;
        Ok(count)
    }
}

impl<R: Register, M: MarketRule> Floor<R, M> {
    // Opens trading: takes the pass of pre-trading and gives that of trading, with the count of the trades, which are written to the
    // front of the strip. Of each ticker the smaller of demand and supply at its opening price trades, and at no whole price would
    // more lots have traded. A refusal hands the pass back. Kept as a strip that is lent, and the count of the trades on it: who calls has
    // the strip, and reads its front.
    pub fn open(
        &mut self,
        pass: PreTradingPass,
        strip: &mut [Trade],
    ) -> Result<(TradingPass, usize), (Fault, PreTradingPass)>
        ensures answer { opened result ≡ answer (M.MarketRule.means self.old.state.rule) (seen R.Register.means self.old.state) (call.Open (length strip.old)) }
        ensures leaves { Leaves R.Register.means self.old.state self.new.state (after (M.MarketRule.means self.old.state.rule) (seen R.Register.means self.old.state) (call.Open (length strip.old))) }
        ensures strip { strip.new ≡ written (trades (M.MarketRule.means self.old.state.rule) (seen R.Register.means self.old.state) (call.Open (length strip.old))) strip.old }
        ensures fair { elim result [ Ok p ↦ ((t : ℕ) → ticker_known t ≡ true → OpenedFairly (seen R.Register.means self.old.state) t (take p.1 strip.new)) | Err e ↦ Unit {0} ] }
    {
        let opened = self.state.auction(strip);
        match raise(opened, CallKind::Open, 0) {
            Ok(count) => Ok((pass.open(), count)),
            Err(fault) => Err((fault, pass)),
        }
    }
}
