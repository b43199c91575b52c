// What a trade and a bid that is taken out move at a register. The register never refuses here: each caller shows that it grants
// the movements.
ghost use Rattle.std.specs.Prelude.{◌≡◌, ◌≤◌, None};
ghost use Rattle.register.specs.Moves.{Release, Pay, refusal, moved};
ghost use Rattle.model.specs.Movements.{Granted, moved_all};
ghost use Rattle.matching.specs.Exchanges.{exchange};

use register::registers::Register;
use register::slips::Slip;

// Pays the goods to the holder of the cash and `worth` of the cash to the holder of the goods, and releases what is left of the cash.
pub fn settle<R: Register>(register: &mut R, cash: Slip, goods: Slip, worth: u64)
    requires granted { Granted (exchange cash goods worth) (R.Register.means register.old) }
    requires enough { worth ≤ cash.amount }
    ensures { R.Register.means register.new ≡ moved_all (exchange cash goods worth) (R.Register.means register.old) }
{
    let buyer = cash.holder();
    let seller = goods.holder();
    let (price, rest) = cash.cut(worth);
    pay(register, goods, buyer);
    pay(register, price, seller);
    release(register, rest);
}

// Pays a slip that the register covers.
fn pay<R: Register>(register: &mut R, slip: Slip, payee: u8)
    requires { refusal (R.Register.means register.old) (Pay slip.holder slip.asset slip.amount payee) ≡ None }
    ensures { R.Register.means register.new ≡ moved (R.Register.means register.old) (Pay slip.holder slip.asset slip.amount payee) }
{
    match register.pay(slip, payee) {
        Ok(()) => {}
        Err((_, _slip)) => unreachable(),
    }
}

// Releases a slip that the register covers.
pub fn release<R: Register>(register: &mut R, slip: Slip)
    requires { refusal (R.Register.means register.old) (Release slip.holder slip.asset slip.amount) ≡ None }
    ensures { R.Register.means register.new ≡ moved (R.Register.means register.old) (Release slip.holder slip.asset slip.amount) }
{
    match register.release(slip) {
        Ok(()) => {}
        Err((_, _slip)) => unreachable(),
    }
}
