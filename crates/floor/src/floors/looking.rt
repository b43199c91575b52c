// Looks at a floor: they need no pass and change nothing.
ghost use Rattle.std.specs.Prelude.{◌≡◌, Ok, Err};
ghost use Rattle.model.specs.declared.faults.Cause.TheVariants.{Floor as ByFloor};
ghost use Rattle.model.specs.declared.faults.FloorRefusal.TheVariants.{NoHolderOrTicker};
ghost use Rattle.model.specs.declared.faults.CallKind.TheVariants as kind;
ghost use Rattle.model.specs.Looks.{look_account, look_queue, look_average};
ghost use Rattle.floor.specs.Floors.{seen};

use super::Floor;
use crate::desk::asking::is_known;
use crate::faults::raise;
use model::faults::{CallKind, Cause, Fault, FloorRefusal};
use model::words::{Session, Standing};
use register::faults::Account;
use register::registers::Register;
use rules::{MarketRule, Side, check};

impl<R: Register, M: MarketRule> Floor<R, M> {
    pub fn session(&self) -> Session
        ensures { result ≡ (seen R.Register.means self.now.state).session }
    {
        self.state.desk.session
    }

    // What a holder has of an asset.
    pub fn account(&self, holder: u8, asset: u8) -> Result<Account, Fault>
        ensures { result ≡ look_account (seen R.Register.means self.now.state) holder asset }
    {
        let account = self.state.register.read(holder, asset);
        raise(account.map_err(Cause::Register), CallKind::Read, 0)
    }

    // The standing bids of a ticker and side, in ranking order.
    pub fn queue(&self, ticker: u8, side: Side) -> Result<&[Standing], Fault>
        ensures { elim result [ Ok q ↦ look_queue (seen R.Register.means self.now.state) ticker side ≡ Ok q.now | Err f ↦ look_queue (seen R.Register.means self.now.state) ticker side ≡ Err f ] }
    {
        check(is_known(0, ticker), no_ticker(ticker))?;
        Ok(self.state.desk.book(ticker).own(side).bids())
    }

    // The average price of a ticker's trades in opening and trading, where there were any.
    pub fn average(&self, ticker: u8) -> Result<Option<u64>, Fault>
        ensures { result ≡ look_average (seen R.Register.means self.now.state) ticker }
    {
        check(is_known(0, ticker), no_ticker(ticker))?;
        Ok(self.state.desk.book(ticker).average())
    }
}

fn no_ticker(ticker: u8) -> Fault
    ensures { result ≡ record { cause = ByFloor NoHolderOrTicker; call = kind.Read; ticker = ticker } }
{
    Fault {
        cause: Cause::Floor(FloorRefusal::NoHolderOrTicker),
        call: CallKind::Read,
        ticker,
    }
}
