// Calls as a list of them can hold them, and what they are answered.
use crate::faults::Fault;
use crate::words::{Bid, Listing, Receipt, Session};

// A call with all that its caller states. `shown` is the session of the pass that is shown; a call without it takes the one pass that
// fits it, or needs none. `room` is the length of the strip that is lent for the trades.
#[derive(Clone, Copy, PartialEq, Eq, Debug)]
pub enum Call {
    Start {
        listing: Listing,
    },
    Deposit {
        holder: u8,
        asset: u8,
        amount: u64,
    },
    Withdraw {
        holder: u8,
        asset: u8,
        amount: u64,
    },
    Place {
        shown: Session,
        bid: Bid,
        room: usize,
    },
    Cancel {
        shown: Session,
        holder: u8,
        ticker: u8,
        number: u32,
    },
    Open {
        room: usize,
    },
    EndTrading,
    EndPostTrading,
}

// A bid is answered by its receipt, a cancellation by the lots that it took out, an opening by the count of its trades. Kept as one enum,
// though `Refused` makes it like a Result: logs and tallies tell its five kinds apart side by side, and a Result would nest four of them.
#[derive(Clone, Copy, PartialEq, Eq, Debug)]
pub enum Answer {
    Done,
    Placed(Receipt),
    Cancelled(u32),
    Opened(usize),
    Refused(Fault),
}
