// The two markets of the floor, as rules.
ghost use Rattle.std.specs.Prelude.{◌≡◌, None};
ghost use Rattle.rules.specs.Rules.{answered, need, at_least, at_most, near_best_lem, corporate, government};
ghost use Rattle.std.proofs.Common.{rules};

use crate::bid::{Question, Side};
use crate::rule::{MarketRule, RuleRefusal, check};

// The rule of corporate securities.
#[derive(Clone, Copy)]
pub struct Corporate;

// The rule of government bonds.
#[derive(Clone, Copy)]
pub struct Government;

// Lots in corporate securities may be any number, in government bonds only tens.
const CORPORATE_STEP: u32 = 1;

const GOVERNMENT_STEP: u32 = 10;

// Whether the price is at least so many per cent of another; a test without its number is passed. Products are compared: a quotient
// would be rounded, and let a price in that lies below the bound.
fn at_least(percent: u8, price: Option<u32>, other: Option<u32>) -> bool
    ensures { result ≡ at_least percent price other }
{
    price.zip(other).is_none_or(|(price, other)| {
        u64::from(percent) * u64::from(other) <= 100 * u64::from(price)
    })
}

// Whether the price is at most so many per cent of another.
fn at_most(percent: u8, price: Option<u32>, other: Option<u32>) -> bool
    ensures { result ≡ at_most percent price other }
{
    price.zip(other).is_none_or(|(price, other)| {
        100 * u64::from(price) <= u64::from(percent) * u64::from(other)
    })
}

impl MarketRule for Corporate {
    ghost means = { λ _. corporate };

    ghost lawful = { Prim.search rules };

    fn step(&self) -> u32 {
        CORPORATE_STEP
    }

    fn on_bid(&self, question: Question) -> Result<(), RuleRefusal> {
        let Question {
            price,
            best_buy,
            best_sell,
            settlement,
            ..
        } = question;
        check(
            at_least(90, price, best_buy) && at_most(110, price, best_sell),
            RuleRefusal::OffBest,
        )?;
        check(
            at_least(85, price, settlement) && at_most(115, price, settlement),
            RuleRefusal::OffSettlement,
        )
    }
}

// A government bid is held to the best of its own side.
fn near_best(question: Question) -> bool
    ensures { result ≡ near_best_lem question question.side }
{
    match question.side {
        Side::Buy => at_least(95, question.price, question.best_buy),
        Side::Sell => at_most(105, question.price, question.best_sell),
    }
}

impl MarketRule for Government {
    ghost means = { λ _. government };

    ghost lawful = { Prim.search rules };

    fn step(&self) -> u32 {
        GOVERNMENT_STEP
    }

    fn on_bid(&self, question: Question) -> Result<(), RuleRefusal> {
        check(
            question.lots % GOVERNMENT_STEP == 0,
            RuleRefusal::NotWholeSteps,
        )?;
        check(near_best(question), RuleRefusal::OffBest)?;
        check(!question.opposite, RuleRefusal::OppositeBid)
    }
}
