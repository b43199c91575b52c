// Looks at a floor, and what is told of them.
ghost use Rattle.model.specs.Looks.{look_account, look_queue, look_average};
ghost use Rattle.floor.specs.Floors.{seen};
ghost use Rattle.host.specs.Answering.{Adds, read_text, queue_text, average_text, account_text, holder_text, accounts_text};

use crate::texts::add_lines;
use floor::floors::Floor;
use register::registers::Register;
use rules::{MarketRule, Side};
use std::alloc::AllocError;
use telling::answers::{AverageLine, Entry, listed_entry};

pub(crate) fn tell_read<R: Register, M: MarketRule>(
    text: &mut String,
    floor: &Floor<R, M>,
    holder: u8,
    asset: u8,
) -> Result<(), AllocError>
    ensures { Adds result text.old text.new (read_text holder asset (look_account (seen R.Register.means floor.now.state) holder asset)) }
{
    match floor.account(holder, asset) {
        Ok(account) => {
            let entry = Entry {
                holder,
                asset,
                account,
            };
            writeln!(text, "{entry}")
        }
        Err(fault) => writeln!(text, "{fault}"),
    }
}

pub(crate) fn tell_queue<R: Register, M: MarketRule>(
    text: &mut String,
    floor: &Floor<R, M>,
    ticker: u8,
    side: Side,
) -> Result<(), AllocError>
    ensures { Adds result text.old text.new (queue_text (look_queue (seen R.Register.means floor.now.state) ticker side)) }
{
    match floor.queue(ticker, side) {
        Ok(bids) => add_lines(text, bids),
        Err(fault) => writeln!(text, "{fault}"),
    }
}

pub(crate) fn tell_average<R: Register, M: MarketRule>(
    text: &mut String,
    floor: &Floor<R, M>,
    ticker: u8,
) -> Result<(), AllocError>
    ensures { Adds result text.old text.new (average_text ticker (look_average (seen R.Register.means floor.now.state) ticker)) }
{
    match floor.average(ticker) {
        Ok(average) => writeln!(text, "{}", AverageLine { ticker, average }),
        Err(fault) => writeln!(text, "{fault}"),
    }
}

// An account in the list of all.
fn list_account<R: Register, M: MarketRule>(
    text: &mut String,
    floor: &Floor<R, M>,
    holder: u8,
    asset: u8,
) -> Result<(), AllocError>
    ensures { Adds result text.old text.new (account_text holder asset (look_account (seen R.Register.means floor.now.state) holder asset)) }
{
    let Ok(account) = floor.account(holder, asset) else {
        return Ok(());
    };
    match listed_entry(holder, asset, account) {
        Some(entry) => writeln!(text, "{entry}"),
        None => Ok(()),
    }
}

fn list_holder<R: Register, M: MarketRule>(
    text: &mut String,
    floor: &Floor<R, M>,
    holder: u8,
) -> Result<(), AllocError>
    ensures { Adds result text.old text.new (holder_text (seen R.Register.means floor.now.state) holder) }
{
    for asset in 0..12 {
        list_account(text, floor, holder, asset)?;
    }
    Ok(())
}

// The accounts with something free or blocked, by holder and then by asset.
pub(crate) fn list_accounts<R: Register, M: MarketRule>(
    text: &mut String,
    floor: &Floor<R, M>,
) -> Result<(), AllocError>
    ensures { Adds result text.old text.new (accounts_text (seen R.Register.means floor.now.state)) }
{
    for holder in 0..16 {
        list_holder(text, floor, holder)?;
    }
    Ok(())
}
