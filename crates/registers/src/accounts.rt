ghost use Rattle.std.specs.Prelude.{◌≡◌, ℕ, ◌+◌, ◌<◌, ◌≤◌};
ghost use Rattle.register.specs.Books.{Book, total, most_amount};
ghost use Rattle.registers.specs.Balances.{balance_of, with_balance};

use crate::balances::Balance;

// An account that there is, as the check of a holder and an asset gives it.
#[derive(Clone, Copy)]
pub(crate) struct Known {
    pub(crate) holder: u8,
    pub(crate) asset: u8,
    ghost holder_known: { holder < 16 },
    ghost asset_known: { asset < 12 },
}

// Where a bottom register keeps its balances: a place for each account, and nothing of refusals.
pub(crate) trait Accounts {
    ghost book: { Self → Book };

    fn balance(&self, account: Known) -> Balance
        ensures { result ≡ balance_of (book self.now) account.holder account.asset };

    // What all holders have of an asset, free and blocked. Kept as a demand: here alone an asset stands without its holder.
    fn held(&self, asset: u8) -> u64
        requires { asset < 12 }
        ensures { result ≡ total (book self.now) asset };

    // Writes one balance; the asset's total stays within the most.
    fn put(&mut self, account: Known, balance: Balance)
        requires { total (book self.old) account.asset + (balance.free + balance.blocked) ≤ most_amount + ((book self.old).free account.holder account.asset + (book self.old).blocked account.holder account.asset) }
        ensures { book self.new ≡ with_balance (book self.old) account.holder account.asset balance };

    ghost bounded: { (s : Self) (a : ℕ) → a < 12 → total (book s) a ≤ most_amount };

    ghost capped: { (s : Self) (h a : ℕ) → (book s).limit h a ≡ most_amount };

    ghost untagged: { (s : Self) (h a n : ℕ) → (book s).tag h a n ≡ 0 };
}
