ghost use Rattle.std.specs.Prelude.{◌≡◌};
ghost use Rattle.registers.specs.Lists.{account_before, is_filled};
ghost use Rattle.std.proofs.Common.{rules};

use crate::balances::Balance;
use ranking::Ranking;

// An account in a list, and what it has.
#[derive(Clone, Copy, Default)]
pub struct Entry {
    pub(crate) holder: u8,
    pub(crate) asset: u8,
    pub(crate) balance: Balance,
}

impl Entry {
    // Whether anything is free or blocked.
    pub(crate) fn has_something(&self) -> bool
        ensures { result ≡ is_filled self.now }
    {
        self.balance != Balance::default()
    }
}

// Ranks accounts by holder, and those of one holder by asset; balances do not count.
pub struct ByAccount;

impl Ranking for ByAccount {
    type Entry = Entry;

    ghost before = { account_before };

    ghost irreflexive = { Prim.search rules };

    ghost transitive = { Prim.search rules };

    ghost negative = { Prim.search rules };

    // Kept part by part: with the pairs compared as tuples every search of the list took more than twice the instructions.
    fn is_before(a: &Entry, b: &Entry) -> bool {
        a.holder < b.holder || a.holder == b.holder && a.asset < b.asset
    }
}
