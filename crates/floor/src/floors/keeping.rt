// Making a floor, and what needs no pass.
ghost use Rattle.std.specs.Prelude.{◌≡◌};
ghost use Rattle.register.specs.Moves as move;
ghost use Rattle.model.specs.World.{made};
ghost use Rattle.model.specs.Calls.{answer, after};
ghost use Rattle.model.specs.declared.calls.Call.TheVariants as call;
ghost use Rattle.floor.specs.Making.{Leaves};
ghost use Rattle.floor.specs.Floors.{seen};
ghost use Rattle.floor.specs.Replies.{done};

use super::Floor;
use crate::desk::Desk;
use crate::faults::raise;
use crate::state::State;
use model::faults::{CallKind, Cause, Fault};
use register::registers::Register;
use rules::MarketRule;

impl<R: Register, M: MarketRule> Floor<R, M> {
    // A floor over any register, also one with something blocked, and under any rule. It is closed.
    pub fn new(register: R, rule: M) -> Floor<R, M>
        ensures world { seen R.Register.means result.state ≡ made (R.Register.means register) }
        ensures rule { result.state.rule ≡ rule }
    {
        Floor {
            state: State {
                register,
                rule,
                desk: Desk::closed(),
            },
        }
    }

    // Adds to what a holder has free, in any session.
    pub fn deposit(&mut self, holder: u8, asset: u8, amount: u64) -> Result<(), Fault>
        ensures answer { done result ≡ answer (M.MarketRule.means self.old.state.rule) (seen R.Register.means self.old.state) (call.Deposit holder asset amount) }
        ensures leaves { Leaves R.Register.means self.old.state self.new.state (after (M.MarketRule.means self.old.state.rule) (seen R.Register.means self.old.state) (call.Deposit holder asset amount)) }
    {
        let kept = self.state.register.deposit(holder, asset, amount);
        raise(kept.map_err(Cause::Register), CallKind::Deposit, 0)
    }

    // Takes from what a holder has free, in any session.
    pub fn withdraw(&mut self, holder: u8, asset: u8, amount: u64) -> Result<(), Fault>
        ensures answer { done result ≡ answer (M.MarketRule.means self.old.state.rule) (seen R.Register.means self.old.state) (call.Withdraw holder asset amount) }
        ensures leaves { Leaves R.Register.means self.old.state self.new.state (after (M.MarketRule.means self.old.state.rule) (seen R.Register.means self.old.state) (call.Withdraw holder asset amount)) }
    {
        let taken = self.state.register.withdraw(holder, asset, amount);
        raise(taken.map_err(Cause::Register), CallKind::Withdraw, 0)
    }
}
