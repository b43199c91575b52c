// A market rule: what it means, and how it is asked.
ghost use Rattle.std.specs.Prelude.{◌≡◌, Some, Ok, Err, if◌then◌else◌};
ghost use Rattle.rules.specs.Rules.{Rule, Lawful, answered, refusal_number, refusal_text};

use crate::bid::Question;
use std::error::Error;
use std::fmt;

// Why a rule refuses a bid, with the number by which a terminal knows the refusal.
#[derive(Clone, Copy, PartialEq, Eq, Debug)]
pub enum RuleRefusal {
    NotWholeSteps = 21,
    OffBest = 22,
    OffSettlement = 23,
    OppositeBid = 24,
}

impl RuleRefusal {
    pub fn number(self) -> u8
        ensures { result ≡ refusal_number self }
    {
        self as u8
    }
}

impl fmt::Display for RuleRefusal {
    ghost output = { λ refusal. Some (refusal_text refusal) };

    fn fmt<W: fmt::Write>(&self, f: &mut fmt::Formatter<W>) -> fmt::Result {
        f.write_str(match self {
            RuleRefusal::NotWholeSteps => "the lots are not whole steps",
            RuleRefusal::OffBest => "the price is too far from the best",
            RuleRefusal::OffSettlement => "the price is too far from the settlement price",
            RuleRefusal::OppositeBid => "the holder has a standing bid on the other side",
        })
    }
}

impl Error for RuleRefusal {}

// One check: the refusal where it is not met.
pub fn check<E: Drop>(met: bool, refusal: E) -> Result<(), E>
    ensures { result ≡ (if met then Ok tt else Err refusal) }
{
    met.then_some(()).ok_or(refusal)
}

// What a floor asks of its market. The rule is only borrowed, so asking alters nothing.
pub trait MarketRule {
    ghost means: { Self → Rule };

    fn step(&self) -> u32
        ensures { result ≡ (means self.now).step };

    fn on_bid(&self, question: Question) -> Result<(), RuleRefusal>
        ensures { result ≡ answered ((means self.now).on_bid question) };

    ghost lawful: { (rule : Self) → Lawful (means rule) };
}
