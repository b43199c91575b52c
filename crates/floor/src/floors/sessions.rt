// The sessions of a day: the start, the two ends, and taking a floor apart.
ghost use Rattle.std.specs.Prelude.{◌≡◌, ℕ, ◌<◌, false};
ghost use Rattle.model.specs.declared.faults.FloorRefusal.TheVariants.{WrongSession};
ghost use Rattle.model.specs.Market.{is_closed};
ghost use Rattle.model.specs.Movements.{taken_apart};
ghost use Rattle.model.specs.Checks.{why, must};
ghost use Rattle.model.specs.Calls.{answer, after};
ghost use Rattle.model.specs.declared.calls.Call.TheVariants as call;
ghost use Rattle.model.specs.declared.calls.Answer.TheVariants.{Done};
ghost use Rattle.floor.specs.Events.{runs_in};
ghost use Rattle.floor.specs.Making.{Leaves};
ghost use Rattle.floor.specs.Floors.{seen, SoundFloor};
ghost use Rattle.floor.specs.Replies.{done, changed, unless};
ghost use Rattle.floor.specs.Ends.{ended_by, NothingStands};

use super::Floor;
use crate::desk::Desk;
use crate::desk::filing::{are_valid, is_quiet, start_books};
use crate::events::{Event, allowed};
use crate::faults::raise;
use crate::passes::{PostTradingPass, PreTradingPass, TradingPass};
use crate::state::State;
use matching::closing::void_books;
use model::faults::{CallKind, Cause, Fault, FloorRefusal};
use model::words::Listing;
use register::registers::Register;
use rules::{MarketRule, check};

impl<R: Register, M: MarketRule> State<R, M> {
    fn begin(&mut self, listing: Listing) -> Result<(), Cause>
        requires { SoundFloor R.Register.means M.MarketRule.means self.old }
        ensures answer { result ≡ unless (why (M.MarketRule.means self.old.rule) (seen R.Register.means self.old) (call.Start listing)) tt }
        ensures leaves { Leaves R.Register.means self.old self.new (after (M.MarketRule.means self.old.rule) (seen R.Register.means self.old) (call.Start listing)) }
    {
        let pre_trading = allowed(self.desk.session, Event::Start)?;
        check(are_valid(&listing.quotes), FloorRefusal::BadListing)?;
        check(is_quiet(&self.register), FloorRefusal::SomethingBlocked)?;
        self.desk.session = pre_trading;
        self.desk.listing = listing;
        self.desk.given = 0;
        start_books(&mut self.desk.books);
        Ok(())
    }

    // Ends a session: every standing bid is void and released.
    fn end(&mut self, event: Event) -> Result<(), Cause>
        requires { SoundFloor R.Register.means M.MarketRule.means self.old }
        ensures answer { result ≡ unless (must (runs_in event self.old.desk.session) WrongSession) tt }
        ensures leaves { Leaves R.Register.means self.old self.new (ended_by event (seen R.Register.means self.old)) }
    {
        let session = allowed(self.desk.session, event)?;
        void_books(&mut self.register, &mut self.desk.books, &self.desk.listing);
        self.desk.session = session;
        Ok(())
    }
}

impl<R: Register, M: MarketRule> Floor<R, M> {
    // Starts a day with its listing, and gives the pass of pre-trading.
    pub fn start(&mut self, listing: Listing) -> Result<PreTradingPass, Fault>
        ensures answer { done result ≡ answer (M.MarketRule.means self.old.state.rule) (seen R.Register.means self.old.state) (call.Start listing) }
        ensures leaves { Leaves R.Register.means self.old.state self.new.state (after (M.MarketRule.means self.old.state.rule) (seen R.Register.means self.old.state) (call.Start listing)) }
    {
        let begun = self.state.begin(listing);
        raise(begun, CallKind::Start, 0)?;
        Ok(PreTradingPass::new())
    }

    // Ends trading: takes its pass and gives that of post-trading. A refusal hands the pass back. Kept apart from the end of post-trading,
    // which takes and gives other types; what the two share is `end`.
    pub fn end_trading(
        &mut self,
        pass: TradingPass,
    ) -> Result<PostTradingPass, (Fault, TradingPass)>
        ensures answer { changed result ≡ answer (M.MarketRule.means self.old.state.rule) (seen R.Register.means self.old.state) call.EndTrading }
        ensures leaves { Leaves R.Register.means self.old.state self.new.state (after (M.MarketRule.means self.old.state.rule) (seen R.Register.means self.old.state) call.EndTrading) }
        ensures ended { changed result ≡ Done → NothingStands (seen R.Register.means self.new.state) }
    {
        let ended = self.state.end(Event::EndTrading);
        match raise(ended, CallKind::EndTrading, 0) {
            Ok(()) => Ok(pass.end()),
            Err(fault) => Err((fault, pass)),
        }
    }

    // Ends post-trading: takes its pass and closes the floor, which can then be started again. A refusal hands the pass back. Kept as a
    // match: the three calls that hand a pass back are written alike.
    pub fn end_post_trading(
        &mut self,
        pass: PostTradingPass,
    ) -> Result<(), (Fault, PostTradingPass)>
        ensures answer { changed result ≡ answer (M.MarketRule.means self.old.state.rule) (seen R.Register.means self.old.state) call.EndPostTrading }
        ensures leaves { Leaves R.Register.means self.old.state self.new.state (after (M.MarketRule.means self.old.state.rule) (seen R.Register.means self.old.state) call.EndPostTrading) }
        ensures ended { changed result ≡ Done → NothingStands (seen R.Register.means self.new.state) }
    {
        let ended = self.state.end(Event::EndPostTrading);
        match raise(ended, CallKind::EndPostTrading, 0) {
            Ok(()) => Ok(()),
            Err(fault) => Err((fault, pass)),
        }
    }

    // Takes a floor apart, in any session: every standing bid is released, and the register and the rule are given back.
    pub fn take_apart(self) -> (R, M)
        ensures register { R.Register.means result.0 ≡ taken_apart (seen R.Register.means self.state) }
        ensures released { is_closed self.state.desk.session ≡ false → (h a : ℕ) → h < 16 → a < 12 → (R.Register.means result.0).blocked h a ≡ 0 }
        ensures rule { result.1 ≡ self.state.rule }
    {
        let Floor { state } = self;
        let State {
            mut register,
            rule,
            desk,
        } = state;
        let Desk {
            listing,
            mut books,
            ..
        } = desk;
        void_books(&mut register, &mut books, &listing);
        (register, rule)
    }
}
