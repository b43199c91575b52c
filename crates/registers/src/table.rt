ghost use Rattle.std.specs.Prelude.{◌≡◌, ◌+◌, ◌*◌, length};
ghost use Rattle.register.specs.Books.{empty_book};
ghost use Rattle.registers.specs.Tables.{table_book, Bounded};
ghost use Rattle.std.proofs.Common.{rules, arith};

use crate::accounts::{Accounts, Known};
use crate::balances::Balance;
use crate::bottom::Bottom;

// 192 balances, that of holder h and asset a at place 12 * h + a.
#[derive(Drop)]
pub struct Table {
    balances: [Balance; 192],
    ghost sized: { length balances ≡ 192 },
    ghost bounded: { Bounded balances },
}

// Where a holder's balance of an asset stands.
fn place(holder: u8, asset: u8) -> usize
    ensures { result ≡ 12 * holder + asset }
{
    12 * holder as usize + asset as usize
}

impl Accounts for Table {
    ghost book = { λ s. table_book s.balances };

    ghost bounded = { first_of (Prim.search rules, Prim.grind (arith, Self.row.coded.inj)) };

    ghost capped = { first_of (Prim.search rules, Prim.grind (arith, Self.row.coded.inj)) };

    ghost untagged = { first_of (Prim.search rules, Prim.grind (arith, Self.row.coded.inj)) };

    fn balance(&self, account: Known) -> Balance {
        self.balances[place(account.holder, account.asset)]
    }

    fn held(&self, asset: u8) -> u64 {
        (0..16)
            .map(|holder| {
                let balance = self.balances[place(holder, asset)];
                balance.free + balance.blocked
            })
            .sum()
    }

    fn put(&mut self, account: Known, balance: Balance) {
        let at = place(account.holder, account.asset);
        self.balances[at] = balance;
    }
}

// The register that has a place for every account.
pub type TableRegister = Bottom<Table>;

impl Bottom<Table> {
    // Nothing is held, and every cap is at the most.
    pub fn empty() -> TableRegister
        ensures { table_book result.accounts.balances ≡ empty_book }
    {
        Bottom::over(Table {
            balances: [Balance::default(); 192],
        })
    }
}
