// How many lots a ranked queue has at a price.
ghost use Rattle.std.specs.Prelude.{◌≡◌, ◌*◌, ◌^◌, ◌≤◌, not, length, take};
ghost use Rattle.model.specs.Words.{sum_of};
ghost use Rattle.model.specs.Queues.{by_price};
ghost use Rattle.ranking.specs.Ranks.{first_place, Ranked};
ghost use Rattle.auction.specs.Volumes.{reaches_at, volume_of};

use model::words::Standing;
use rules::Side;

// The lots of the first `place` bids of a queue together; of all where it has no more. A queue has at most 64 bids, so it calls
// itself at most 64 deep. Kept as a call of itself by a rule of this project, which wants a recursion on the queue here; its promise is of
// the sum alone.
pub fn lots_to(bids: &[Standing], place: usize) -> u64
    requires { length bids.now ≤ 64 }
    ensures lots { result ≡ sum_of (λ x. x.lots) (take place bids.now) }
    ensures within { result ≤ 2 ^ 32 * length bids.now }
{
    if place == 0 {
        return 0;
    }
    if bids.is_empty() {
        return 0;
    }
    u64::from(bids[0].lots) + lots_to(&bids[1..], place - 1)
}

// Whether a bid would trade at this price: a buy priced at or above it, a sell at or below it.
pub fn reaches(bid: &Standing, side: Side, price: u32) -> bool
    ensures { result ≡ reaches_at side price bid.now }
{
    match side {
        Side::Buy => bid.price >= price,
        Side::Sell => bid.price <= price,
    }
}

// The first place whose bid does not reach the price. In a ranked queue all in front of it do, and none behind it does.
pub fn reach(bids: &[Standing], side: Side, price: u32) -> usize
    ensures within { result ≤ length bids.now }
    ensures place { result ≡ first_place (λ x. not (reaches_at side price x)) bids.now }
{
    let end = bids.iter().position(|bid| !reaches(bid, side, price));
    end.unwrap_or(bids.len())
}

// The demand of buys or the supply of sells at a price.
pub fn volume(bids: &[Standing], side: Side, price: u32) -> u64
    requires ranked { Ranked (by_price side) bids.now }
    requires few { length bids.now ≤ 64 }
    ensures { result ≡ volume_of side bids.now price }
{
    lots_to(bids, reach(bids, side, price))
}
