// What each line of input is answered.
ghost use Rattle.floor.specs.Making.{Leaves};
ghost use Rattle.floor.specs.Floors.{seen};
ghost use Rattle.host.specs.Answering.{Adds, command_text, after_command, reply_text, after_line};

use crate::calls::tell_call;
use crate::looks::{list_accounts, tell_average, tell_queue, tell_read};
use crate::tapes::Tape;
use floor::floors::Floor;
use register::registers::Register;
use rules::MarketRule;
use script::commands::{Command, parse};
use std::alloc::AllocError;
use telling::answers::{ErrorLine, SessionLine};

// Does what a command says, and tells what there is to tell.
fn tell_command<R: Register, M: MarketRule>(
    text: &mut String,
    floor: &mut Floor<R, M>,
    tape: &mut Tape,
    command: Command,
) -> Result<(), AllocError>
    ensures text { Adds result text.old text.new (command_text (M.MarketRule.means floor.old.state.rule) (seen R.Register.means floor.old.state) command) }
    ensures leaves { Leaves R.Register.means floor.old.state floor.new.state (after_command (M.MarketRule.means floor.old.state.rule) (seen R.Register.means floor.old.state) command) }
{
    match command {
        Command::Call(call) => tell_call(text, floor, tape, call),
        Command::Read(holder, asset) => tell_read(text, floor, holder, asset),
        Command::Queue(ticker, side) => tell_queue(text, floor, ticker, side),
        Command::Average(ticker) => tell_average(text, floor, ticker),
        Command::Accounts => list_accounts(text, floor),
        Command::Session => writeln!(text, "{}", SessionLine(floor.session())),
    }
}

// Answers a line of input, the one of this number: adds to the text what the line is answered, and leaves the floor as the line says.
pub(crate) fn reply<R: Register, M: MarketRule>(
    text: &mut String,
    floor: &mut Floor<R, M>,
    tape: &mut Tape,
    number: u64,
    line: &[u8],
) -> Result<(), AllocError>
    ensures text { Adds result text.old text.new (reply_text (M.MarketRule.means floor.old.state.rule) (seen R.Register.means floor.old.state) number line.now) }
    ensures leaves { Leaves R.Register.means floor.old.state floor.new.state (after_line (M.MarketRule.means floor.old.state.rule) (seen R.Register.means floor.old.state) line.now) }
{
    match parse(line) {
        Ok(None) => Ok(()),
        Ok(Some(command)) => tell_command(text, floor, tape, command),
        Err(fault) => writeln!(
            text,
            "{}",
            ErrorLine {
                line: number,
                fault,
            }
        ),
    }
}
