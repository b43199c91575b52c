ghost use Rattle.std.specs.Prelude.{◌≡◌, ◌<◌, ◌≤◌, true, length};
ghost use Rattle.std.specs.List.{list_all, remove};
ghost use Rattle.ranking.specs.Ranks.{insert_ranked, is_distinct, is_ranked, ties, tie_place};
ghost use Rattle.register.specs.Books.{empty_book};
ghost use Rattle.registers.specs.Tables.{nothing};
ghost use Rattle.registers.specs.Lists.{account_before, is_known_lem, is_filled, list_book, TotalsBounded};
ghost use Rattle.std.proofs.Common.{rules, arith};

use crate::accounts::{Accounts, Known};
use crate::balances::Balance;
use crate::bottom::Bottom;
use crate::entries::{ByAccount, Entry};
use arrayvec::ArrayVec;
use ranking::{find, insert, remove};

// The accounts that have something, ranked by holder and then asset.
#[derive(Drop)]
pub struct List {
    entries: ArrayVec<Entry, 192>,
    ghost within: { length entries.items ≤ 192 },
    ghost ranked: { is_ranked account_before entries.items ≡ true },
    ghost apart: { is_distinct (ties account_before) entries.items ≡ true },
    ghost known: { list_all is_known_lem entries.items ≡ true },
    ghost filled: { list_all is_filled entries.items ≡ true },
    ghost bounded: { TotalsBounded entries.items },
}

// Enters an account in its place.
fn enter(entries: &mut ArrayVec<Entry, 192>, entry: Entry)
    requires { length entries.old.items < 192 }
    ensures { entries.new.items ≡ insert_ranked account_before entry entries.old.items }
{
    let len = entries.len();
    entries.push(entry);
    insert::<ByAccount>(entries.as_mut_slice(), len, entry);
}

// Takes out the account at a place.
fn take_out(entries: &mut ArrayVec<Entry, 192>, at: usize)
    requires { at < length entries.old.items }
    ensures { entries.new.items ≡ remove entries.old.items at }
{
    let len = entries.len();
    remove::<ByAccount>(entries.as_mut_slice(), len, at);
    entries.pop();
}

impl List {
    // The place of an account's entry.
    fn place(&self, account: Known) -> Option<usize>
        ensures { result ≡ tie_place account_before (record { holder = account.holder; asset = account.asset; balance = nothing }) self.now.entries.items }
    {
        let sought = Entry {
            holder: account.holder,
            asset: account.asset,
            ..Entry::default()
        };
        find::<ByAccount>(self.entries.as_slice(), &sought)
    }
}

impl Accounts for List {
    ghost book = { λ s. list_book s.entries.items };

    ghost bounded = { first_of (Prim.search rules, Prim.grind (arith, Self.row.coded.inj)) };

    ghost capped = { first_of (Prim.search rules, Prim.grind (arith, Self.row.coded.inj)) };

    ghost untagged = { first_of (Prim.search rules, Prim.grind (arith, Self.row.coded.inj)) };

    // Kept as a match, as in `put` below: no plainer by `map_or`, since what stands at a place is read and written alike.
    fn balance(&self, account: Known) -> Balance {
        match self.place(account) {
            Some(at) => self.entries[at].balance,
            None => Balance::default(),
        }
    }

    fn held(&self, asset: u8) -> u64 {
        self.entries
            .iter()
            .filter(|entry| entry.asset == asset)
            .map(|entry| entry.balance.free + entry.balance.blocked)
            .sum()
    }

    fn put(&mut self, account: Known, balance: Balance) {
        let written = Entry {
            holder: account.holder,
            asset: account.asset,
            balance,
        };
        match self.place(account) {
            Some(at) => {
                if written.has_something() {
                    self.entries[at] = written;
                } else {
                    take_out(&mut self.entries, at);
                }
            }
            None => {
                if written.has_something() {
                    enter(&mut self.entries, written);
                }
            }
        }
    }
}

// The register that keeps only the accounts that have something.
pub type ListRegister = Bottom<List>;

impl Bottom<List> {
    // Nothing is held, and every cap is at the most.
    pub fn empty() -> ListRegister
        ensures { list_book result.accounts.entries.items ≡ empty_book }
    {
        let entries = ArrayVec::new();
        Bottom::over(List { entries })
    }
}
