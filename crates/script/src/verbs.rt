// The first word of a line.
ghost use Rattle.script.specs.Commands.{verb_of};

use crate::reading::{LineFault, Word};
use crate::words::one_of;

// Which call or look a line names.
#[derive(Clone, Copy)]
pub(crate) enum Verb {
    Start,
    Open,
    EndTrading,
    EndPostTrading,
    Deposit,
    Withdraw,
    Bid,
    Cancel,
    Read,
    Queue,
    Average,
    Accounts,
    Session,
}

impl Word for Verb {
    ghost reads = { verb_of };

    fn read(word: &[u8]) -> Result<Verb, LineFault> {
        one_of(
            word,
            &[
                (b"start", Verb::Start),
                (b"open", Verb::Open),
                (b"end-trading", Verb::EndTrading),
                (b"end-post-trading", Verb::EndPostTrading),
                (b"deposit", Verb::Deposit),
                (b"withdraw", Verb::Withdraw),
                (b"bid", Verb::Bid),
                (b"cancel", Verb::Cancel),
                (b"read", Verb::Read),
                (b"queue", Verb::Queue),
                (b"average", Verb::Average),
                (b"accounts", Verb::Accounts),
                (b"session", Verb::Session),
            ],
            LineFault::UnknownCall,
        )
    }
}
