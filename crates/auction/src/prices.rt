// The opening price of a ticker: of the prices at which a bid stands, the one at which most lots could trade.
ghost use Rattle.std.specs.Prelude.{◌≡◌};
ghost use Rattle.model.specs.Opening.{prices_of, opening_price_lem};
ghost use Rattle.auction.specs.Prices.{RankedQueues, RankedQueues-prop, candidate_at, better_than, better_of_lem, best_among_lem};

use crate::volumes::volume;
use model::words::Standing;
use rules::Side;

// A price, the lots that could trade at it, and how far demand and supply are apart there.
#[derive(Clone, Copy)]
pub struct Candidate {
    price: u32,
    lots: u64,
    apart: u64,
}

// The two queues of a ticker as an opening finds them: ranked, with at most 64 bids each.
#[derive(Clone, Copy)]
struct Sides<'a> {
    buys: &'a [Standing],
    sells: &'a [Standing],
    ghost ranked: { RankedQueues buys.now sells.now } by { RankedQueues-prop buys.now sells.now },
}

// More lots; or as many, with less difference; or both the same, and lower.
fn better(x: Candidate, y: Candidate) -> bool
    ensures { result ≡ better_than x y }
{
    (y.lots, x.apart, x.price) < (x.lots, y.apart, y.price)
}

// The best so far, if there is one, or the next.
fn better_of(best: Option<Candidate>, next: Candidate) -> Candidate
    ensures { result ≡ better_of_lem best next }
{
    best.map_or(next, |best| if better(next, best) { next } else { best })
}

impl<'a> Sides<'a> {
    // A price with its numbers.
    fn numbers_at(&self, price: u32) -> Candidate
        ensures { result ≡ candidate_at self.now.buys.now self.now.sells.now price }
    {
        let demand = volume(self.buys, Side::Buy, price);
        let supply = volume(self.sells, Side::Sell, price);
        Candidate {
            price,
            lots: demand.min(supply),
            apart: demand.abs_diff(supply),
        }
    }

    // The best so far, if there is one, or one of the prices at which the bids of a queue stand.
    fn best_among(&self, queue: &[Standing], so_far: Option<Candidate>) -> Option<Candidate>
        ensures { result ≡ best_among_lem self.now.buys.now self.now.sells.now so_far (prices_of queue.now) }
    {
        let mut best = so_far;
        for bid in queue {
            best = Some(better_of(best, self.numbers_at(bid.price)));
        }
        best
    }
}

// The price that the opening trades at; none where no bid stands.
pub fn opening_price(buys: &[Standing], sells: &[Standing]) -> Option<u32>
    requires { RankedQueues buys.now sells.now }
    ensures { result ≡ opening_price_lem buys.now sells.now }
{
    let sides = Sides { buys, sells };
    let of_buys = sides.best_among(buys, None);
    sides.best_among(sells, of_buys).map(|best| best.price)
}
