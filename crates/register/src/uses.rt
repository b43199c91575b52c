ghost use Rattle.std.specs.Prelude.{◌≡◌};
ghost use Rattle.register.specs.Laws.{shown, RefusedChangesNothing, DepositsAdd, WithdrawalsTake, TotalsKept, ReadingShows, TotalsAreBounded};
ghost use Rattle.register.specs.Moves.{Deposit, Block, refusal, after_move, granted};

use crate::faults::{Account, RegisterFault};
use crate::registers::Register;

// Blocks and at once releases: refused as the block is, and every account is as it was. The release is
// never refused.
pub fn block_and_release<R: Register>(
    register: &mut R,
    holder: u8,
    asset: u8,
    amount: u64,
) -> Result<(), RegisterFault>
    ensures answer { result ≡ granted (refusal (R.Register.means register.old) (Block holder asset amount)) tt }
    ensures same { R.Register.means register.new ≡ R.Register.means register.old }
{
    let slip = register.block(holder, asset, amount)?;
    match register.release(slip) {
        Ok(()) => Ok(()),
        Err((_, _slip)) => unreachable(),
    }
}

// Deposits and reads: a deposit that is taken is shown, and one that is refused leaves everything as it was.
pub fn deposit_and_read<R: Register>(
    register: &mut R,
    holder: u8,
    asset: u8,
    amount: u64,
) -> Result<Account, RegisterFault>
    ensures answer { result ≡ granted (refusal (R.Register.means register.old) (Deposit holder asset amount)) (shown (R.Register.means register.old) holder asset amount) }
    ensures after { R.Register.means register.new ≡ after_move (R.Register.means register.old) (Deposit holder asset amount) }
{
    register.deposit(holder, asset, amount)?;
    register.read(holder, asset)
}

// The laws of the movements, over every book: they are what every register and every layer keeps.
pub fn movement_laws()
    ensures refused { RefusedChangesNothing }
    ensures deposits { DepositsAdd }
    ensures withdrawals { WithdrawalsTake }
    ensures kept { TotalsKept }
    ensures shows { ReadingShows }
    ensures bounded { TotalsAreBounded }
{}
