// A trading floor.
ghost use Rattle.floor.specs.Floors.{SoundFloor, SoundFloor-prop};

use crate::state::State;
use register::registers::Register;
use rules::MarketRule;

mod bidding;
mod cancelling;
mod keeping;
mod looking;
mod opening;
mod sessions;

// It holds its register and its market rule by value. Who holds the floor alone can move what is blocked. Between any two calls it is
// sound: its queues, its numbers and what is blocked go together.
pub struct Floor<R: Register, M: MarketRule> {
    state: State<R, M>,
    ghost sound: { SoundFloor R.Register.means M.MarketRule.means state } by { SoundFloor-prop R.Register.means M.MarketRule.means state },
}
