// Why a call is refused, with the number and the text of each refusal.
ghost use Rattle.std.specs.Prelude.{◌≡◌, Some};
ghost use Rattle.model.specs.Numbers.{floor_number, number_of};
ghost use Rattle.model.specs.Texts.{floor_text, cause_text, call_text, fault_line};
ghost use Rattle.model.specs.declared.faults.Cause.TheVariants.{Floor as ByFloor, Rule as ByRule, Register as ByRegister};

use register::faults::RegisterFault;
use rules::RuleRefusal;
use std::error::Error;
use std::fmt;

// The floor's own refusals, each with the number by which a terminal knows it.
#[derive(Clone, Copy, PartialEq, Eq, Debug)]
pub enum FloorRefusal {
    BadListing = 1,
    SomethingBlocked = 2,
    WrongSession = 3,
    ShortStrip = 4,
    NoHolderOrTicker = 5,
    BeyondLimits = 6,
    FormNotTaken = 7,
    NoAverage = 8,
    NumbersSpent = 9,
    QueueFull = 10,
    NoSuchBid = 11,
}

impl FloorRefusal {
    pub fn number(self) -> u8
        ensures { result ≡ floor_number self }
    {
        self as u8
    }
}

impl fmt::Display for FloorRefusal {
    ghost output = { λ refusal. Some (floor_text refusal) };

    fn fmt<W: fmt::Write>(&self, f: &mut fmt::Formatter<W>) -> fmt::Result {
        f.write_str(match self {
            FloorRefusal::BadListing =>
                "a currency is above 3 or a settlement price above 10000000",
            FloorRefusal::SomethingBlocked => "something is blocked",
            FloorRefusal::WrongSession => "not in this session",
            FloorRefusal::ShortStrip => "too little room for trades",
            FloorRefusal::NoHolderOrTicker => "no such holder or ticker",
            FloorRefusal::BeyondLimits => "the price or the lots are beyond the limits",
            FloorRefusal::FormNotTaken => "this session takes no such bid",
            FloorRefusal::NoAverage => "there is no average",
            FloorRefusal::NumbersSpent => "all numbers are given",
            FloorRefusal::QueueFull => "the queue is full",
            FloorRefusal::NoSuchBid => "no such standing bid",
        })
    }
}

impl Error for FloorRefusal {}

// Who refuses, and why: the floor, its market rule, or its register. A register's fault goes up whole.
#[derive(Clone, Copy, PartialEq, Eq, Debug)]
pub enum Cause {
    Floor(FloorRefusal),
    Rule(RuleRefusal),
    Register(RegisterFault),
}

impl Cause {
    // The number of the refusal, whoever gives it.
    pub fn number(self) -> u8
        ensures { result ≡ number_of self }
    {
        match self {
            Cause::Floor(refusal) => refusal.number(),
            Cause::Rule(refusal) => refusal.number(),
            Cause::Register(fault) => fault.cause.number(),
        }
    }
}

impl fmt::Display for Cause {
    ghost output = { λ cause. Some (cause_text cause) };

    fn fmt<W: fmt::Write>(&self, f: &mut fmt::Formatter<W>) -> fmt::Result {
        match self {
            Cause::Floor(refusal) => write!(f, "floor: {refusal}"),
            Cause::Rule(refusal) => write!(f, "rule: {refusal}"),
            Cause::Register(fault) => write!(f, "{fault}"),
        }
    }
}

impl Error for Cause {}

impl From<FloorRefusal> for Cause {
    ghost from_gives = { λ e r. r ≡ ByFloor e };

    fn from(e: FloorRefusal) -> Cause {
        Cause::Floor(e)
    }
}

impl From<RuleRefusal> for Cause {
    ghost from_gives = { λ e r. r ≡ ByRule e };

    fn from(e: RuleRefusal) -> Cause {
        Cause::Rule(e)
    }
}

impl From<RegisterFault> for Cause {
    ghost from_gives = { λ e r. r ≡ ByRegister e };

    fn from(e: RegisterFault) -> Cause {
        Cause::Register(e)
    }
}

// The kinds of calls. A read is any call that looks at the floor and alters nothing.
#[derive(Clone, Copy, PartialEq, Eq, Debug)]
pub enum CallKind {
    Start,
    Deposit,
    Withdraw,
    Bid,
    Cancel,
    Open,
    EndTrading,
    EndPostTrading,
    Read,
}

impl fmt::Display for CallKind {
    ghost output = { λ kind. Some (call_text kind) };

    fn fmt<W: fmt::Write>(&self, f: &mut fmt::Formatter<W>) -> fmt::Result {
        f.write_str(match self {
            CallKind::Start => "start",
            CallKind::Deposit => "deposit",
            CallKind::Withdraw => "withdraw",
            CallKind::Bid => "bid",
            CallKind::Cancel => "cancel",
            CallKind::Open => "open",
            CallKind::EndTrading => "end-trading",
            CallKind::EndPostTrading => "end-post-trading",
            CallKind::Read => "read",
        })
    }
}

// A refused call: the cause, which call it was, and the ticker as it was given, 0 where the call has none. Kept as a number: a refusal is
// told with it, and an Option would be told with the same 0 for none and for a ticker 0 that was given.
#[derive(Clone, Copy, PartialEq, Eq, Debug)]
pub struct Fault {
    pub cause: Cause,
    pub call: CallKind,
    pub ticker: u8,
}

impl fmt::Display for Fault {
    ghost output = { λ fault. Some (fault_line fault) };

    fn fmt<W: fmt::Write>(&self, f: &mut fmt::Formatter<W>) -> fmt::Result {
        let Fault {
            cause,
            call,
            ticker,
        } = self;
        write!(f, "refused {} {call} {ticker} {cause}", cause.number())
    }
}

impl Error for Fault {}
