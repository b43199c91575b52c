// Cancellations.
ghost use Rattle.std.specs.Prelude.{◌≡◌};
ghost use Rattle.model.specs.Checks.{why};
ghost use Rattle.model.specs.Calls.{answer, after, cancelled_lots};
ghost use Rattle.model.specs.declared.calls.Call.TheVariants as call;
ghost use Rattle.floor.specs.Making.{Leaves};
ghost use Rattle.floor.specs.Floors.{seen, SoundFloor};
ghost use Rattle.floor.specs.Replies.{cancelled, unless};

use super::Floor;
use crate::desk::asking::is_known;
use crate::events::{Event, allowed};
use crate::faults::raise;
use crate::passes::Pass;
use crate::state::State;
use matching::closing::slip_of;
use matching::listings::asset_of;
use matching::settling::release;
use model::faults::{CallKind, Cause, Fault, FloorRefusal};
use model::words::Session;
use register::registers::Register;
use rules::{MarketRule, check};

impl<R: Register, M: MarketRule> State<R, M> {
    // Takes a standing bid out of its queue. What it obliged to comes back as a slip and is released.
    fn take_back(
        &mut self,
        shown: Session,
        holder: u8,
        ticker: u8,
        number: u32,
    ) -> Result<u32, Cause>
        requires { SoundFloor R.Register.means M.MarketRule.means self.old }
        ensures answer { result ≡ unless (why (M.MarketRule.means self.old.rule) (seen R.Register.means self.old) (call.Cancel shown holder ticker number)) (cancelled_lots (seen R.Register.means self.old) holder ticker number) }
        ensures leaves { Leaves R.Register.means self.old self.new (after (M.MarketRule.means self.old.rule) (seen R.Register.means self.old) (call.Cancel shown holder ticker number)) }
    {
        allowed(self.desk.session, Event::Cancel(shown))?;
        check(is_known(holder, ticker), FloorRefusal::NoHolderOrTicker)?;
        let named = self.desk.take_named(holder, ticker, number);
        let (side, bid) = named.ok_or(FloorRefusal::NoSuchBid)?;
        let asset = asset_of(&self.desk.listing, ticker, side);
        release(&mut self.register, slip_of(bid, side, asset));
        Ok(bid.lots)
    }
}

impl<R: Register, M: MarketRule> Floor<R, M> {
    // Takes the holder's standing bid of this ticker and number back, and answers the lots that it had left.
    pub fn cancel<P: Pass>(
        &mut self,
        pass: &P,
        holder: u8,
        ticker: u8,
        number: u32,
    ) -> Result<u32, Fault>
        ensures answer { cancelled result ≡ answer (M.MarketRule.means self.old.state.rule) (seen R.Register.means self.old.state) (call.Cancel P.Pass.serving holder ticker number) }
        ensures leaves { Leaves R.Register.means self.old.state self.new.state (after (M.MarketRule.means self.old.state.rule) (seen R.Register.means self.old.state) (call.Cancel P.Pass.serving holder ticker number)) }
    {
        let taken = self.state.take_back(pass.session(), holder, ticker, number);
        raise(taken, CallKind::Cancel, ticker)
    }
}
