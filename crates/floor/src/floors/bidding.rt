// Bids, in every session that takes them.
ghost use Rattle.std.specs.Prelude.{◌≡◌, ◌-◌, ◌<◌, length};
ghost use Rattle.model.specs.Checks.{why};
ghost use Rattle.model.specs.Calls.{answer, after, trades, receipt};
ghost use Rattle.model.specs.declared.calls.Call.TheVariants as call;
ghost use Rattle.matching.specs.Dealing.{mine_of};
ghost use Rattle.floor.specs.Bargains.{Bargained};
ghost use Rattle.floor.specs.Making.{Leaves, written};
ghost use Rattle.floor.specs.Floors.{seen, SoundFloor};
ghost use Rattle.floor.specs.Replies.{placed, unless};
ghost use Rattle.floor.specs.Blocking.{blocked_by, block_fault};

use super::Floor;
use crate::faults::raise;
use crate::passes::Pass;
use crate::state::State;
use matching::newcomers::Newcomer;
use model::faults::{CallKind, Cause, Fault};
use model::words::{Bid, Receipt, Session, Trade};
use register::registers::Register;
use register::slips::Slip;
use rules::MarketRule;

// Blocks an amount for a newcomer; 0 blocks nothing.
fn block<R: Register>(register: &mut R, newcomer: &Newcomer, amount: u64) -> Result<Slip, Cause>
    ensures answer { result ≡ unless (block_fault (R.Register.means register.old) (mine_of newcomer.now amount)) (mine_of newcomer.now amount) }
    ensures book { R.Register.means register.new ≡ blocked_by (R.Register.means register.old) (mine_of newcomer.now amount) }
{
    let holder = newcomer.bid.holder;
    let asset = newcomer.asset_of(newcomer.bid.side);
    if amount == 0 {
        return Ok(Slip::new(holder, asset, 0));
    }
    Ok(register.block(holder, asset, amount)?)
}

impl<R: Register, M: MarketRule> State<R, M> {
    // All checks in their order, and then the bid. Nothing is blocked before the last check, and nothing fails after it.
    fn place(&mut self, shown: Session, bid: Bid, strip: &mut [Trade]) -> Result<Receipt, Cause>
        requires { SoundFloor R.Register.means M.MarketRule.means self.old }
        ensures answer { result ≡ unless (why (M.MarketRule.means self.old.rule) (seen R.Register.means self.old) (call.Place shown bid (length strip.old))) (receipt (seen R.Register.means self.old) bid) }
        ensures leaves { Leaves R.Register.means self.old self.new (after (M.MarketRule.means self.old.rule) (seen R.Register.means self.old) (call.Place shown bid (length strip.old))) }
        ensures strip { strip.new ≡ written (trades (M.MarketRule.means self.old.rule) (seen R.Register.means self.old) (call.Place shown bid (length strip.old))) strip.old }
    {
        self.desk.check_form(shown, &bid, strip.len())?;
        let newcomer = self.desk.newcomer(bid);
        self.rule.on_bid(self.desk.question(&bid))?;
        let outlook = self.desk.outlook(&newcomer)?;
        let slip = block(&mut self.register, &newcomer, newcomer.owed(outlook.cost))?;
        Ok(
            self.desk
                .admit(&mut self.register, &newcomer, outlook, slip, strip),
        )
    }
}

impl<R: Register, M: MarketRule> Floor<R, M> {
    // A bid with a pass of its session. Its trades are written to the front of the strip, in order.
    pub fn bid<P: Pass>(
        &mut self,
        pass: &P,
        bid: Bid,
        strip: &mut [Trade],
    ) -> Result<Receipt, Fault>
        ensures answer { placed result ≡ answer (M.MarketRule.means self.old.state.rule) (seen R.Register.means self.old.state) (call.Place P.Pass.serving bid (length strip.old)) }
        ensures leaves { Leaves R.Register.means self.old.state self.new.state (after (M.MarketRule.means self.old.state.rule) (seen R.Register.means self.old.state) (call.Place P.Pass.serving bid (length strip.old))) }
        ensures strip { strip.new ≡ written (trades (M.MarketRule.means self.old.state.rule) (seen R.Register.means self.old.state) (call.Place P.Pass.serving bid (length strip.old))) strip.old }
        ensures bargain { Bargained (seen R.Register.means self.old.state) (seen R.Register.means self.new.state) bid result strip.new }
    {
        let placed = self.state.place(pass.session(), bid, strip);
        raise(placed, CallKind::Bid, bid.ticker)
    }
}
