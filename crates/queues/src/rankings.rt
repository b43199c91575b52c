// Who is served first. Each type is only a mark for its ranking.
ghost use Rattle.std.specs.Prelude.{◌≡◌};
ghost use Rattle.rules.specs.declared.bid.Side.{Side};
ghost use Rattle.rules.specs.declared.bid.Side.TheVariants.{Buy, Sell};
ghost use Rattle.model.specs.Queues.{by_price, by_number};
ghost use Rattle.queues.specs.Prices.{better, price_irreflexive, price_transitive, price_negative};
ghost use Rattle.std.proofs.Common.{rules};

use model::words::Standing;
use ranking::Ranking;
use std::marker::PhantomData;

// Which of two prices of a side is served first. Each type that implements it is a mark for its side.
pub trait PriceOrder {
    ghost side: { Side };

    fn is_better(price: u32, than: u32) -> bool
        ensures { result ≡ better side price than };
}

// The higher price first.
pub struct Highest;

impl PriceOrder for Highest {
    ghost side = { Buy };

    fn is_better(price: u32, than: u32) -> bool {
        price > than
    }
}

// The lower price first.
pub struct Lowest;

impl PriceOrder for Lowest {
    ghost side = { Sell };

    fn is_better(price: u32, than: u32) -> bool {
        price < than
    }
}

// The better price first, at one price the lower number.
pub struct ByPrice<P> {
    order: PhantomData<P>,
}

// The ranking of buys.
pub type Buys = ByPrice<Highest>;

// The ranking of sells.
pub type Sells = ByPrice<Lowest>;

impl<P: PriceOrder> Ranking for ByPrice<P> {
    type Entry = Standing;

    ghost before = { by_price P.side };

    ghost irreflexive = { price_irreflexive P.side };

    ghost transitive = { price_transitive P.side };

    ghost negative = { price_negative P.side };

    fn is_before(a: &Standing, b: &Standing) -> bool {
        P::is_better(a.price, b.price) || (a.price == b.price && a.number < b.number)
    }
}

// Post-trading bids: the lower number first.
pub struct ByNumber;

impl Ranking for ByNumber {
    type Entry = Standing;

    ghost before = { by_number };

    ghost irreflexive = { Prim.search rules };

    ghost transitive = { Prim.search rules };

    ghost negative = { Prim.search rules };

    fn is_before(a: &Standing, b: &Standing) -> bool {
        a.number < b.number
    }
}
