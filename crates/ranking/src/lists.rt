ghost use Rattle.std.specs.Prelude.{◌≡◌, ◌+◌, ◌-◌, ◌<◌, ◌≤◌, true, ◌∷◌, length, take, drop, slice_index_or};
ghost use mathlib.Core.List.{Permᴰ};
ghost use Rattle.std.specs.List.{remove};
ghost use Rattle.ranking.specs.Ranks.{place_of, insert_ranked, ties, tie_place, Ranked, is_ranked};

use super::Ranking;
use super::gaps::{close_gap, insert_at};

// The place where `item` goes in the list `slots`: the first whose entry it is before, else the end.
pub fn place<K: Ranking>(slots: &[K::Entry], item: &K::Entry) -> usize
    ensures within { result ≤ length slots.now }
    ensures place { result ≡ place_of K.Ranking.before item.now slots.now }
{
    slots
        .iter()
        .position(|x| K::is_before(item, x))
        .unwrap_or(slots.len())
}

// Neither is before the other.
fn tie<K: Ranking>(a: &K::Entry, b: &K::Entry) -> bool
    ensures { result ≡ ties K.Ranking.before a.now b.now }
{
    !K::is_before(a, b) && !K::is_before(b, a)
}

// The first place of the list `slots` whose entry ties with `item`. It needs no ranked list.
pub fn find<K: Ranking>(slots: &[K::Entry], item: &K::Entry) -> Option<usize>
    ensures { result ≡ tie_place K.Ranking.before item.now slots.now }
{
    slots.iter().position(|x| tie::<K>(item, x))
}

// Puts `item` in its place in the list in the first `len` slots, behind all that it is not before, and answers the place.
// The entries from there on move one place back, so one slot behind the list is taken; the slots behind that stay.
pub fn insert<K: Ranking>(slots: &mut [K::Entry], len: usize, item: K::Entry) -> usize
    requires { len < length slots.old }
    ensures place { result ≡ place_of K.Ranking.before item (take len slots.old) }
    ensures front { take (len + 1) slots.new ≡ insert_ranked K.Ranking.before item (take len slots.old) }
    ensures behind { drop (len + 1) slots.new ≡ drop (len + 1) slots.old }
    ensures same { Permᴰ (item ∷ take len slots.old) (take (len + 1) slots.new) }
    ensures ranked { Ranked K.Ranking.before (take len slots.old) → Ranked K.Ranking.before (take (len + 1) slots.new) }
    ensures tested { is_ranked K.Ranking.before (take len slots.old) ≡ true → is_ranked K.Ranking.before (take (len + 1) slots.new) ≡ true }
{
    let at = place::<K>(&slots[..len], &item);
    insert_at(slots, len, at, item);
    at
}

// Takes the entry at the place `at` out of the list in the first `len` slots, closes the gap, and answers the entry.
// The slots from the list's last on stay as they were, so the last one is spare afterwards.
pub fn remove<K: Ranking>(slots: &mut [K::Entry], len: usize, at: usize) -> K::Entry
    requires { (len ≤ length slots.old) × (at < len) }
    ensures taken { (d : K.Entry) → result ≡ slice_index_or (take len slots.old) at d }
    ensures front { take (len - 1) slots.new ≡ remove (take len slots.old) at }
    ensures behind { drop (len - 1) slots.new ≡ drop (len - 1) slots.old }
    ensures same { Permᴰ (take len slots.old) (result ∷ take (len - 1) slots.new) }
    ensures ranked { Ranked K.Ranking.before (take len slots.old) → Ranked K.Ranking.before (take (len - 1) slots.new) }
    ensures tested { is_ranked K.Ranking.before (take len slots.old) ≡ true → is_ranked K.Ranking.before (take (len - 1) slots.new) ≡ true }
{
    let taken = slots[at];
    close_gap(slots, len, at);
    taken
}
