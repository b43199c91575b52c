ghost use Rattle.layers.specs.Piles.{Piled};

use crate::caps::{CapLayer, Caps};
use crate::splits::Split;
use register::registers::Register;

// Two registers as one under two layers of caps. It is an interface only so that the contract can speak of
// what the whole means, as any other user of a register reads it: every movement at the pile is answered by
// that meaning.
pub trait Pile<P: Register, Q: Register>: Register {
    fn pile(first: P, second: Q, lower: Caps, upper: Caps) -> Self
        ensures { Piled upper lower (P.Register.means first) (Q.Register.means second) (Self.Register.means result) };
}

impl<P: Register, Q: Register> Pile<P, Q> for CapLayer<CapLayer<Split<P, Q>>> {
    fn pile(first: P, second: Q, lower: Caps, upper: Caps) -> CapLayer<CapLayer<Split<P, Q>>> {
        let capped = CapLayer::new(Split::new(first, second), lower);
        CapLayer::new(capped, upper)
    }
}
