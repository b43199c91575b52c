// The words of a bid that a rule is asked about, and what the bid obliges to.
ghost use Rattle.std.specs.Prelude.{◌≡◌};
ghost use Rattle.rules.specs.Bids.{other, is_price_lem, is_lots_lem, obligation_of};

#[derive(Clone, Copy, PartialEq, Eq, Debug)]
pub enum Side {
    Buy,
    Sell,
}

impl Side {
    pub fn opposite(self) -> Side
        ensures { result ≡ other self }
    {
        match self {
            Side::Buy => Side::Sell,
            Side::Sell => Side::Buy,
        }
    }
}

// What a rule is asked before a bid is registered. The bests are the prices of the first standing buy and the first standing sell of the
// ticker, and `opposite` says that the bid's holder has a standing bid on the other side of it.
#[derive(Clone, Copy, PartialEq, Eq, Debug)]
pub struct Question {
    pub side: Side,
    pub price: Option<u32>,
    pub lots: u32,
    pub best_buy: Option<u32>,
    pub best_sell: Option<u32>,
    pub settlement: Option<u32>,
    pub opposite: bool,
}

// The highest price of a lot, in minor units of the currency.
pub const MOST_PRICE: u64 = 10_000_000;

// The most lots of one bid.
pub const MOST_LOTS: u64 = 1_000_000;

// Kept as two, this and the next: each has a limit of its own, which one for both would have each caller name.
pub fn is_price(number: u64) -> bool
    ensures { result ≡ is_price_lem number }
{
    (1..=MOST_PRICE).contains(&number)
}

pub fn is_lots(number: u64) -> bool
    ensures { result ≡ is_lots_lem number }
{
    (1..=MOST_LOTS).contains(&number)
}

// What a bid obliges its holder to: a priced buy to an amount of the currency, a sell to its lots of the ticker. A buy without a price
// obliges to nothing by itself, only to what its own trades cost.
pub fn obligation(side: Side, price: Option<u32>, lots: u32) -> u64
    ensures { result ≡ obligation_of side price lots }
{
    match (side, price) {
        (Side::Buy, Some(price)) => u64::from(price) * u64::from(lots),
        (Side::Buy, None) => 0,
        (Side::Sell, _) => u64::from(lots),
    }
}
