// The obligation and the rule tests as functions on plain numbers, for the terminal's C shell. They take any numbers: a C caller is held
// to nothing. Kept as plain numbers and as a function for each rule: C knows neither Rattle's enums nor its type parameters.
#![tactic(auto)]

ghost use Rattle.std.specs.Prelude.{◌≡◌, length};
ghost use Rattle.rules.specs.Words.{leb};
ghost use Rattle.rules.specs.Bids.{is_lots_lem};
ghost use Rattle.rules.specs.Figures.{Hold};
ghost use Rattle.rules.specs.Rules.{corporate, government};
ghost use Rattle.shell.specs.Figures.{shell_figures};
ghost use Rattle.shell.specs.Terminal.{stated, is_price_or_none_lem, is_bid_lem, is_question_lem, side_of, price_of_lem, question_of, tested, obligation_number, numbers};

use rules::{
    Corporate, Government, MOST_PRICE, MarketRule, Question, Side, check, is_lots, obligation,
};

// A question to a rule in plain numbers, as a C program states it: side 0 is buy and 1 sell, and a price of 0 means none.
#[derive(Clone, Copy)]
struct Numbers {
    side: u64,
    price: u64,
    lots: u64,
    best_buy: u64,
    best_sell: u64,
    settlement: u64,
    opposite: u64,
}

// Numbers that state no bid, or no question.
#[derive(Clone, Copy, PartialEq, Eq, Debug)]
struct BeyondLimits;

impl BeyondLimits {
    // What a test answers to them.
    const NUMBER: u64 = 6;
}

fn side_of(number: u64) -> Result<Side, BeyondLimits>
    ensures { result ≡ stated (leb number 1) (side_of number) }
{
    match number {
        0 => Ok(Side::Buy),
        1 => Ok(Side::Sell),
        _ => Err(BeyondLimits),
    }
}

fn price_of(number: u64) -> Result<Option<u32>, BeyondLimits>
    ensures { result ≡ stated (is_price_or_none_lem number) (price_of_lem number) }
{
    check(number <= MOST_PRICE, BeyondLimits)?;
    Ok((number != 0).then_some(number as u32))
}

fn lots_of(number: u64) -> Result<u32, BeyondLimits>
    ensures { result ≡ stated (is_lots_lem number) number }
{
    check(is_lots(number), BeyondLimits)?;
    Ok(number as u32)
}

impl TryFrom<Numbers> for Question {
    type Error = BeyondLimits;

    ghost try_from_gives = { λ n r. r ≡ stated (is_question_lem n) (question_of n) };

    fn try_from(asked: Numbers) -> Result<Question, BeyondLimits> {
        Ok(Question {
            side: side_of(asked.side)?,
            price: price_of(asked.price)?,
            lots: lots_of(asked.lots)?,
            best_buy: price_of(asked.best_buy)?,
            best_sell: price_of(asked.best_sell)?,
            settlement: price_of(asked.settlement)?,
            opposite: asked.opposite != 0,
        })
    }
}

// The test of any rule.
fn test<M: MarketRule>(rule: &M, asked: Numbers) -> u64
    ensures { result ≡ tested (M.MarketRule.means rule.now) asked }
{
    match Question::try_from(asked) {
        Err(BeyondLimits) => BeyondLimits::NUMBER,
        Ok(question) => match rule.on_bid(question) {
            Ok(()) => 0,
            Err(refusal) => u64::from(refusal.number()),
        },
    }
}

fn obligation_by_numbers(side: u64, price: u64, lots: u64) -> Result<u64, BeyondLimits>
    ensures { result ≡ stated (is_bid_lem side price lots) (obligation_number side price lots) }
{
    Ok(obligation(side_of(side)?, price_of(price)?, lots_of(lots)?))
}

// What a bid obliges its holder to; 0 for an unpriced buy, and for numbers that state no bid.
#[unsafe(no_mangle)]
pub extern "C" fn bid_obligation(side: u64, price: u64, lots: u64) -> u64
    ensures { result ≡ obligation_number side price lots }
{
    obligation_by_numbers(side, price, lots).unwrap_or(0)
}

// The corporate rule's test of a bid: 0 if it is admitted, 6 for numbers beyond the limits, else the refusal's number.
#[unsafe(no_mangle)]
pub extern "C" fn corporate_test(
    side: u64,
    price: u64,
    lots: u64,
    best_buy: u64,
    best_sell: u64,
    settlement: u64,
    opposite: u64,
) -> u64
    ensures { result ≡ tested corporate (numbers side price lots best_buy best_sell settlement opposite) }
{
    test(
        &Corporate,
        Numbers {
            side,
            price,
            lots,
            best_buy,
            best_sell,
            settlement,
            opposite,
        },
    )
}

// The government rule's test of a bid, likewise.
#[unsafe(no_mangle)]
pub extern "C" fn government_test(
    side: u64,
    price: u64,
    lots: u64,
    best_buy: u64,
    best_sell: u64,
    settlement: u64,
    opposite: u64,
) -> u64
    ensures { result ≡ tested government (numbers side price lots best_buy best_sell settlement opposite) }
{
    test(
        &Government,
        Numbers {
            side,
            price,
            lots,
            best_buy,
            best_sell,
            settlement,
            opposite,
        },
    )
}

// The checked figures of the rules and of the functions on numbers hold of the definitions; there are as many as this answers.
pub fn shell_figures_hold() -> usize
    ensures hold { Hold shell_figures }
    ensures rows { result ≡ length shell_figures }
{
    34
}

#[cfg(test)]
mod tests {
    use super::*;

    fn numbers(
        side: u64,
        price: u64,
        lots: u64,
        best_buy: u64,
        best_sell: u64,
        settlement: u64,
    ) -> Numbers {
        Numbers {
            side,
            price,
            lots,
            best_buy,
            best_sell,
            settlement,
            opposite: 0,
        }
    }

    #[test]
    fn beyond_limits(rt: HostRuntime) {
        let beyond = [
            numbers(2, 100, 10, 0, 0, 0),
            numbers(0, 10_000_001, 10, 0, 0, 0),
            numbers(0, 100, 10, 10_000_001, 0, 0),
            numbers(0, 100, 10, 0, 10_000_001, 0),
            numbers(0, 100, 10, 0, 0, 10_000_001),
            numbers(0, 100, 0, 0, 0, 0),
            numbers(0, 100, 1_000_001, 0, 0, 0),
        ];
        for asked in beyond {
            assert_eq!(rt; test(&Corporate, asked), 6);
            assert_eq!(rt; test(&Government, asked), 6);
        }
        assert_eq!(rt; corporate_test(0, 10_000_000, 1_000_000, 0, 0, 0, 0), 0);
        assert_eq!(rt; government_test(1, 100, 10, 0, 0, 0, 7), 24);
    }

    #[test]
    fn obligations(rt: HostRuntime) {
        for (side, price, lots) in [
            (2, 100, 10),
            (0, 10_000_001, 10),
            (0, 100, 0),
            (0, 100, 1_000_001),
            (0, 0, 10),
        ] {
            assert_eq!(rt; bid_obligation(side, price, lots), 0);
        }
        assert_eq!(rt;
            bid_obligation(0, 10_000_000, 1_000_000),
            10_000_000_000_000
        );
        assert_eq!(rt; bid_obligation(1, 0, 10), 10);
    }
}
