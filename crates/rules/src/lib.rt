// What a market's rule says of a bid, and what a bid obliges its holder to.
#![tactic(auto)]

mod bid;
mod laws;
mod markets;
mod rule;

pub use bid::{MOST_LOTS, MOST_PRICE, Question, Side, is_lots, is_price, obligation};
pub use laws::{corporate_stands, figures_hold, government_stands, obligation_stands};
pub use markets::{Corporate, Government};
pub use rule::{MarketRule, RuleRefusal, check};

#[cfg(test)]
mod tests {
    use super::*;

    // A priced buy of a holder with no opposite bid.
    fn buy(
        price: u32,
        lots: u32,
        best_buy: Option<u32>,
        best_sell: Option<u32>,
        settlement: Option<u32>,
    ) -> Question {
        Question {
            side: Side::Buy,
            price: Some(price),
            lots,
            best_buy,
            best_sell,
            settlement,
            opposite: false,
        }
    }

    fn number<M: MarketRule>(rule: &M, question: Question) -> u8 {
        match rule.on_bid(question) {
            Ok(()) => 0,
            Err(refusal) => refusal.number(),
        }
    }

    #[test]
    fn figures(rt: HostRuntime) {
        let corporate = [
            (buy(1100, 1, None, Some(1000), None), 0),
            (buy(1101, 1, None, Some(1000), None), 22),
            (buy(905, 1, Some(1005), None, None), 0),
            (buy(904, 1, Some(1005), None, None), 22),
            (buy(850, 1, None, None, Some(1000)), 0),
            (buy(849, 1, None, None, Some(1000)), 23),
        ];
        for (question, figure) in corporate {
            assert_eq!(rt; number(&Corporate, question), figure);
        }
        let government = [
            (buy(950, 10, Some(1000), None, None), 0),
            (buy(949, 10, Some(1000), None, None), 22),
            (buy(950, 15, Some(1000), None, None), 21),
            (
                Question {
                    opposite: true,
                    ..buy(950, 10, None, None, None)
                },
                24,
            ),
        ];
        for (question, figure) in government {
            assert_eq!(rt; number(&Government, question), figure);
        }
    }

    #[test]
    fn obligations(rt: HostRuntime) {
        assert_eq!(rt; obligation(Side::Buy, Some(102), 8), 816);
        assert_eq!(rt; obligation(Side::Sell, Some(102), 8), 8);
        assert_eq!(rt; obligation(Side::Buy, None, 8), 0);
        assert_eq!(rt;
            obligation(Side::Buy, Some(u32::MAX), u32::MAX),
            18_446_744_065_119_617_025
        );
    }
}
