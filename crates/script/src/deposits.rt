// The words behind `deposit` and `withdraw`.
ghost use Rattle.std.specs.Prelude.{◌≡◌};
ghost use Rattle.script.specs.Commands.{movement_of, deposit_of, withdraw_of};

use crate::reading::LineFault;
use crate::words::Words;
use model::calls::Call;

// A holder, an asset and an amount.
fn movement(words: &mut Words) -> Result<(u8, u8, u64), LineFault>
    ensures { result ≡ movement_of words.old }
{
    let (holder, asset) = words.take_account()?;
    let amount = words.take()?;
    words.end()?;
    Ok((holder, asset, amount))
}

pub(crate) fn deposit_call(words: &mut Words) -> Result<Call, LineFault>
    ensures { result ≡ deposit_of words.old }
{
    let (holder, asset, amount) = movement(words)?;
    Ok(Call::Deposit {
        holder,
        asset,
        amount,
    })
}

pub(crate) fn withdraw_call(words: &mut Words) -> Result<Call, LineFault>
    ensures { result ≡ withdraw_of words.old }
{
    let (holder, asset, amount) = movement(words)?;
    Ok(Call::Withdraw {
        holder,
        asset,
        amount,
    })
}
