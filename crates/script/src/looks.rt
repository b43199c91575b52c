// The words behind the looks at a floor that alter nothing.
ghost use Rattle.std.specs.Prelude.{◌≡◌};
ghost use Rattle.script.specs.Commands.{read_of, queue_of, average_of};

use crate::commands::Command;
use crate::reading::LineFault;
use crate::words::Words;

pub(crate) fn read_look(words: &mut Words) -> Result<Command, LineFault>
    ensures { result ≡ read_of words.old }
{
    let (holder, asset) = words.take_account()?;
    words.end()?;
    Ok(Command::Read(holder, asset))
}

pub(crate) fn queue_look(words: &mut Words) -> Result<Command, LineFault>
    ensures { result ≡ queue_of words.old }
{
    let ticker = words.take()?;
    let side = words.take()?;
    words.end()?;
    Ok(Command::Queue(ticker, side))
}

pub(crate) fn average_look(words: &mut Words) -> Result<Command, LineFault>
    ensures { result ≡ average_of words.old }
{
    let ticker = words.take()?;
    words.end()?;
    Ok(Command::Average(ticker))
}
