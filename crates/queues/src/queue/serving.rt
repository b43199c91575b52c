ghost use Rattle.std.specs.Prelude.{◌≡◌, ◌<◌, ◌↔◌, [], length, drop, ◌==◌, slice_index_or, IsOk, MatchResult};
ghost use Rattle.std.specs.List.{remove};
ghost use Rattle.model.specs.Queues.{best_price_lem};
ghost use Rattle.ranking.specs.Ranks.{insert_ranked};
ghost use Rattle.queues.specs.Entries.{entries, first_of, lots_taken, place_named_lem, entry_named, less_named, has_holder_lem};

use super::{Queue, QueueFull};
use crate::rankings::ByNumber;
use model::words::Standing;
use ranking::{Ranking, insert, remove};

impl Queue {
    // A queue in which no bid stands.
    pub fn empty() -> Queue
        ensures { entries result ≡ [] }
    {
        Queue {
            bids: [Standing::default(); 64],
            len: 0,
        }
    }

    pub fn len(&self) -> usize
        ensures { result ≡ length (entries self.now) }
    {
        self.len // the places in use
    }

    pub fn is_full(&self) -> bool
        ensures { result ≡ (length (entries self.now) == 64) }
    {
        self.len == 64
    }

    // Puts a bid behind all that it is not before, unless the queue is full.
    pub fn put<K: Ranking<Entry = Standing>>(&mut self, bid: Standing) -> Result<(), QueueFull>
        ensures put { IsOk result ↔ (length (entries self.old) < 64) }
        ensures entries { MatchResult result (λ _. entries self.new ≡ insert_ranked K.Ranking.before bid (entries self.old)) (λ _. entries self.new ≡ entries self.old) }
    {
        if self.len >= 64 {
            return Err(QueueFull);
        }
        insert::<K>(&mut self.bids, self.len, bid);
        self.len += 1;
        Ok(())
    }

    // The bid that is served first.
    pub fn first(&self) -> Option<Standing>
        ensures { result ≡ first_of (entries self.now) }
    {
        self.bids().first().copied()
    }

    // The price of the bid that is served first.
    pub fn best_price(&self) -> Option<u32>
        ensures { result ≡ best_price_lem (entries self.now) }
    {
        self.first().map(|bid| bid.price)
    }

    // The standing bids, first to be served first.
    pub fn bids(&self) -> &[Standing]
        ensures { result.now ≡ entries self.now }
    {
        &self.bids[..self.len]
    }

    // Takes the bid at a place out. The others keep their order, so any ranking's removal serves.
    fn remove(&mut self, place: usize) -> Standing
        requires { place < length (entries self.old) }
        ensures taken { (d : Standing) → result ≡ slice_index_or (entries self.old) place d }
        ensures left { entries self.new ≡ remove (entries self.old) place }
    {
        let taken = remove::<ByNumber>(&mut self.bids, self.len, place);
        self.len -= 1;
        taken
    }

    // Takes lots from the first bid, which goes when none are left.
    pub fn take_lots(&mut self, lots: u32)
        ensures { entries self.new ≡ lots_taken lots (entries self.old) }
    {
        let Some(bid) = self.first() else {
            return;
        };
        if lots < bid.lots {
            self.bids[0] = Standing {
                lots: bid.lots - lots,
                ..bid
            };
        } else {
            self.remove(0);
        }
    }

    // Takes the first bid out.
    pub fn pop(&mut self) -> Option<Standing>
        ensures taken { result ≡ first_of (entries self.old) }
        ensures left { entries self.new ≡ drop 1 (entries self.old) }
    {
        if self.len == 0 {
            None
        } else {
            Some(self.remove(0))
        }
    }

    // Where the bid of this holder and number stands.
    pub fn find(&self, holder: u8, number: u32) -> Option<usize>
        ensures { result ≡ place_named_lem holder number (entries self.now) }
    {
        self.bids()
            .iter()
            .position(|bid| bid.holder == holder && bid.number == number)
    }

    // Takes the bid of this holder and number out, if it stands.
    pub fn take_named(&mut self, holder: u8, number: u32) -> Option<Standing>
        ensures taken { result ≡ entry_named holder number (entries self.old) }
        ensures left { entries self.new ≡ less_named holder number (entries self.old) }
    {
        let place = self.find(holder, number)?;
        Some(self.remove(place))
    }

    // Whether the holder has a bid standing.
    pub fn has_holder(&self, holder: u8) -> bool
        ensures { result ≡ has_holder_lem holder (entries self.now) }
    {
        self.bids().iter().any(|bid| bid.holder == holder)
    }
}
