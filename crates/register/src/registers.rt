ghost use Rattle.std.specs.Prelude.{◌≡◌, ℕ, ◌<◌, ◌≤◌};
ghost use Rattle.register.specs.Books.{Book, total, most_amount};
ghost use Rattle.register.specs.Moves.{Deposit, Withdraw, Block, Release, Pay, refusal, after_move, granted, handed_back, reading};

use crate::faults::{Account, RegisterFault};
use crate::slips::Slip;

// All holders together never have more of an asset, and no cap is higher.
pub const MOST: u64 = 10_000_000_000_000_000;

// A register keeps, for each of 16 holders and 12 assets, what is free and what is blocked. `means` says
// what it holds. Each call answers as `refusal` decides and leaves what `after_move` says, so that a refused
// call leaves everything as it was.
// Kept as it is: holder, asset and amount stand apart here as in the definitions. A struct for them would be made at every call and
// taken apart in every clause.
pub trait Register {
    ghost means: { Self → Book };

    fn read(&self, holder: u8, asset: u8) -> Result<Account, RegisterFault>
        ensures { result ≡ reading (means self.now) holder asset };

    fn deposit(&mut self, holder: u8, asset: u8, amount: u64) -> Result<(), RegisterFault>
        ensures answer { result ≡ granted (refusal (means self.old) (Deposit holder asset amount)) tt }
        ensures after { means self.new ≡ after_move (means self.old) (Deposit holder asset amount) };

    fn withdraw(&mut self, holder: u8, asset: u8, amount: u64) -> Result<(), RegisterFault>
        ensures answer { result ≡ granted (refusal (means self.old) (Withdraw holder asset amount)) tt }
        ensures after { means self.new ≡ after_move (means self.old) (Withdraw holder asset amount) };

    // Moves an amount from free to blocked, and gives the slip for it.
    fn block(&mut self, holder: u8, asset: u8, amount: u64) -> Result<Slip, RegisterFault>
        ensures answer { result ≡ granted (refusal (means self.old) (Block holder asset amount)) (record { holder = holder; asset = asset; amount = amount }) }
        ensures after { means self.new ≡ after_move (means self.old) (Block holder asset amount) };

    // Moves the slip's amount from blocked back to free; a refusal hands the slip back.
    fn release(&mut self, slip: Slip) -> Result<(), (RegisterFault, Slip)>
        ensures answer { result ≡ handed_back (refusal (means self.old) (Release slip.holder slip.asset slip.amount)) slip }
        ensures after { means self.new ≡ after_move (means self.old) (Release slip.holder slip.asset slip.amount) };

    // Moves the slip's amount from its holder's blocked to the payee's free; a refusal hands the slip back.
    fn pay(&mut self, slip: Slip, payee: u8) -> Result<(), (RegisterFault, Slip)>
        ensures answer { result ≡ handed_back (refusal (means self.old) (Pay slip.holder slip.asset slip.amount payee)) slip }
        ensures after { means self.new ≡ after_move (means self.old) (Pay slip.holder slip.asset slip.amount payee) };

    ghost bounded: { (r : Self) (a : ℕ) → a < 12 → total (means r) a ≤ most_amount };
}
