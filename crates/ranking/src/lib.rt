#![tactic(auto)]

ghost use Rattle.std.specs.Prelude.{◌≡◌, Bool, true, false};

mod gaps;
mod lists;
#[cfg(test)]
mod tests;

pub use lists::{find, insert, place, remove};

// Says which of two entries is served first. Two entries may tie: then neither is before the other.
// The type that implements it is only a mark, so one kind of entry can have several rankings.
pub trait Ranking {
    type Entry: Copy;

    // whether the first is served before the second
    ghost before: { Self.Entry → Self.Entry → Bool };

    fn is_before(a: &Self::Entry, b: &Self::Entry) -> bool
        ensures { result ≡ before a.now b.now };

    ghost irreflexive: { (a : Self.Entry) → before a a ≡ false };

    ghost transitive: { (a b c : Self.Entry) → before a b ≡ true → before b c ≡ true → before a c ≡ true };

    // not being before is transitive too, so that ties are like equals
    ghost negative: { (a b c : Self.Entry) → before a b ≡ false → before b c ≡ false → before a c ≡ false };
}
