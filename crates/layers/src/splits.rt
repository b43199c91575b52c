ghost use Rattle.std.specs.Prelude.{◌≡◌, true, false, nat_lt};
ghost use Rattle.std.proofs.Common.{sym, inl, inr, arith};
ghost use Rattle.layers.specs.Layers.{split};
ghost use Rattle.std.proofs.lemmas.Bool.{cases_Bool};
ghost use Rattle.layers.specs.Splitting.{whole-total};

use register::faults::{Account, RegisterFault};
use register::registers::Register;
use register::slips::Slip;

// Assets 0 to 3 are the first register's.
fn in_first(asset: u8) -> bool
    ensures { result ≡ nat_lt asset 4 }
{
    asset < 4
}

// Two registers as one: the first keeps assets 0 to 3, the second all others.
pub struct Split<P: Register, Q: Register> {
    first: P,
    second: Q,
}

impl<P: Register, Q: Register> Split<P, Q> {
    pub fn new(first: P, second: Q) -> Split<P, Q>
        ensures { result ≡ record { first = first; second = second } }
    {
        Self { first, second }
    }

    pub fn into_parts(self) -> (P, Q)
        ensures { result ≡ (self.first, self.second) }
    {
        let Split { first, second } = self;
        (first, second)
    }
}

// An asset that nobody knows is the second register's to refuse, as the first would.
// Kept as it is: the two registers are of two types, so the choice of one stands in each call; a closure for both would be no plainer.
impl<P: Register, Q: Register> Register for Split<P, Q> {
    ghost means = { λ s. split (P.Register.means s.first) (Q.Register.means s.second) };

    ghost bounded = { λ r a l.
        let p = P.Register.means r.first in
        let q = Q.Register.means r.second in
        elim (cases_Bool (nat_lt a 4)) [
          | inl k ↦ omega (arith, whole-total true p q a (sym k), P.Register.bounded r.first a l)
          | inr k ↦ omega (arith, whole-total false q p a (sym k), Q.Register.bounded r.second a l)
        ] };

    fn read(&self, holder: u8, asset: u8) -> Result<Account, RegisterFault> {
        if in_first(asset) {
            self.first.read(holder, asset)
        } else {
            self.second.read(holder, asset)
        }
    }

    fn deposit(&mut self, holder: u8, asset: u8, amount: u64) -> Result<(), RegisterFault> {
        if in_first(asset) {
            self.first.deposit(holder, asset, amount)
        } else {
            self.second.deposit(holder, asset, amount)
        }
    }

    fn withdraw(&mut self, holder: u8, asset: u8, amount: u64) -> Result<(), RegisterFault> {
        if in_first(asset) {
            self.first.withdraw(holder, asset, amount)
        } else {
            self.second.withdraw(holder, asset, amount)
        }
    }

    fn block(&mut self, holder: u8, asset: u8, amount: u64) -> Result<Slip, RegisterFault> {
        if in_first(asset) {
            self.first.block(holder, asset, amount)
        } else {
            self.second.block(holder, asset, amount)
        }
    }

    fn release(&mut self, slip: Slip) -> Result<(), (RegisterFault, Slip)> {
        if in_first(slip.asset()) {
            self.first.release(slip)
        } else {
            self.second.release(slip)
        }
    }

    fn pay(&mut self, slip: Slip, payee: u8) -> Result<(), (RegisterFault, Slip)> {
        if in_first(slip.asset()) {
            self.first.pay(slip, payee)
        } else {
            self.second.pay(slip, payee)
        }
    }
}
