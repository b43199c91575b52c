// What a line names.
ghost use Rattle.std.specs.Prelude.{◌≡◌};
ghost use Rattle.script.specs.Lines.{uncommented, words_of};
ghost use Rattle.script.specs.Commands.{command_with, parsed};

use crate::bids::{bid_call, cancel_call};
use crate::deposits::{deposit_call, withdraw_call};
use crate::listings::start_call;
use crate::looks::{average_look, queue_look, read_look};
use crate::reading::{LineFault, Word};
use crate::verbs::Verb;
use crate::words::{Words, before_comment};
use model::calls::Call;
use rules::Side;

// The length of the strip that is lent for an opening, where the line states none.
const OPENING_ROOM: usize = 1024;

// A call of the floor, or a look at it: at an account, a queue, an average, all accounts, the session.
#[derive(Clone, Copy, PartialEq, Eq, Debug)]
pub enum Command {
    Call(Call),
    Read(u8, u8),
    Queue(u8, Side),
    Average(u8),
    Accounts,
    Session,
}

// The command of a verb, with the words behind it.
fn verb_command(verb: Verb, words: &mut Words) -> Result<Command, LineFault>
    ensures { result ≡ command_with verb words.old }
{
    match verb {
        Verb::Start => Ok(Command::Call(start_call(words)?)),
        Verb::Open => {
            let room = words.last_or(OPENING_ROOM)?;
            Ok(Command::Call(Call::Open { room }))
        }
        Verb::EndTrading => {
            words.end()?;
            Ok(Command::Call(Call::EndTrading))
        }
        Verb::EndPostTrading => {
            words.end()?;
            Ok(Command::Call(Call::EndPostTrading))
        }
        Verb::Deposit => Ok(Command::Call(deposit_call(words)?)),
        Verb::Withdraw => Ok(Command::Call(withdraw_call(words)?)),
        Verb::Bid => Ok(Command::Call(bid_call(words)?)),
        Verb::Cancel => Ok(Command::Call(cancel_call(words)?)),
        Verb::Read => read_look(words),
        Verb::Queue => queue_look(words),
        Verb::Average => average_look(words),
        Verb::Accounts => {
            words.end()?;
            Ok(Command::Accounts)
        }
        Verb::Session => {
            words.end()?;
            Ok(Command::Session)
        }
    }
}

// The command that a line names, or none where the line has nothing but blanks and a comment.
pub fn parse(line: &[u8]) -> Result<Option<Command>, LineFault>
    ensures { result ≡ parsed (words_of (uncommented line.now)) }
{
    let mut words = Words::new(before_comment(line));
    let Some(word) = words.next_word() else {
        return Ok(None);
    };
    let verb = Verb::read(word)?;
    Ok(Some(verb_command(verb, &mut words)?))
}
