// The lines that answer.
ghost use Rattle.std.specs.Prelude.{◌≡◌, Some};
ghost use Rattle.telling.specs.Texts.{done_text};
ghost use Rattle.telling.specs.Replies.{call_line, entry_line, listed, average_line, session_line, error_line};

use model::calls::{Answer, Call};
use model::words::Session;
use register::faults::Account;
use script::reading::LineFault;
use std::fmt;

// A call and what it is answered. A bid is told by its receipt, and a refusal tells itself.
#[derive(Clone, Copy, PartialEq, Eq, Debug)]
pub struct CallLine {
    pub call: Call,
    pub answer: Answer,
}

impl fmt::Display for CallLine {
    ghost output = { λ line. Some (call_line line.call line.answer) };

    fn fmt<W: fmt::Write>(&self, f: &mut fmt::Formatter<W>) -> fmt::Result {
        match self.answer {
            Answer::Done => write!(f, "ok {}", Made(self.call)),
            Answer::Placed(receipt) => write!(f, "{receipt}"),
            Answer::Cancelled(lots) => write!(f, "ok cancelled {lots}"),
            Answer::Opened(count) => write!(f, "ok opened {count}"),
            Answer::Refused(fault) => write!(f, "{fault}"),
        }
    }
}

// A call that is made, where nothing else is to be told of it. A bid, a cancellation and an opening tell more, and come here from no
// floor.
#[derive(Clone, Copy)]
struct Made(Call);

impl fmt::Display for Made {
    ghost output = { λ made. Some (done_text made.0) };

    fn fmt<W: fmt::Write>(&self, f: &mut fmt::Formatter<W>) -> fmt::Result {
        f.write_str(match self.0 {
            Call::Start { .. } => "started",
            Call::Deposit { .. } => "deposited",
            Call::Withdraw { .. } => "withdrawn",
            Call::Place { .. } => "bid",
            Call::Cancel { .. } => "cancelled",
            Call::Open { .. } => "opened",
            Call::EndTrading => "trading-ended",
            Call::EndPostTrading => "post-trading-ended",
        })
    }
}

// One holder's account of one asset.
#[derive(Clone, Copy, PartialEq, Eq, Debug)]
pub struct Entry {
    pub holder: u8,
    pub asset: u8,
    pub account: Account,
}

impl fmt::Display for Entry {
    ghost output = { λ entry. Some (entry_line entry) };

    fn fmt<W: fmt::Write>(&self, f: &mut fmt::Formatter<W>) -> fmt::Result {
        let Entry {
            holder,
            asset,
            account,
        } = self;
        let Account {
            free,
            blocked,
            limit,
        } = account;
        write!(f, "account {holder} {asset} {free} {blocked} {limit}")
    }
}

// The account as a listing shows it, or none where there is nothing on it.
pub fn listed_entry(holder: u8, asset: u8, account: Account) -> Option<Entry>
    ensures { result ≡ listed holder asset account }
{
    if account.free == 0 && account.blocked == 0 {
        return None;
    }
    Some(Entry {
        holder,
        asset,
        account,
    })
}

// The average price of a ticker, told as - where there is none.
#[derive(Clone, Copy, PartialEq, Eq, Debug)]
pub struct AverageLine {
    pub ticker: u8,
    pub average: Option<u64>,
}

impl fmt::Display for AverageLine {
    ghost output = { λ line. Some (average_line line.ticker line.average) };

    fn fmt<W: fmt::Write>(&self, f: &mut fmt::Formatter<W>) -> fmt::Result {
        let ticker = self.ticker;
        match self.average {
            Some(price) => write!(f, "average {ticker} {price}"),
            None => write!(f, "average {ticker} -"),
        }
    }
}

// The line that names the session.
#[derive(Clone, Copy, PartialEq, Eq, Debug)]
pub struct SessionLine(pub Session);

impl fmt::Display for SessionLine {
    ghost output = { λ line. Some (session_line line.0) };

    fn fmt<W: fmt::Write>(&self, f: &mut fmt::Formatter<W>) -> fmt::Result {
        write!(f, "session {}", self.0)
    }
}

// The line for a line that is no call, by its number.
#[derive(Clone, Copy, PartialEq, Eq, Debug)]
pub struct ErrorLine {
    pub line: u64,
    pub fault: LineFault,
}

impl fmt::Display for ErrorLine {
    ghost output = { λ error. Some (error_line error.line error.fault) };

    fn fmt<W: fmt::Write>(&self, f: &mut fmt::Formatter<W>) -> fmt::Result {
        let ErrorLine { line, fault } = self;
        write!(f, "error {line}: {fault}")
    }
}
