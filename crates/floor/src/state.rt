// What the calls of a floor work on.
use crate::desk::Desk;
use register::registers::Register;
use rules::MarketRule;

// A floor's register, its market rule and its desk. Between two calls they go together as a floor demands; within one they need not.
// Kept as a demand of the steps of a call: each begins with a sound state and is in between where it is not, so it is a fact of the type
// only for the floor that holds it.
pub(crate) struct State<R: Register, M: MarketRule> {
    pub(crate) register: R,
    pub(crate) rule: M,
    pub(crate) desk: Desk,
}
