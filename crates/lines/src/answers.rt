// Answers and the lines that tell them.
use model::calls::{Answer, Call};
use model::words::{Bid, Listing, Quote, Receipt, Session, Standing, Trade};
use register::faults::Account;
use rules::Side;
use script::reading::LineFault;
use std::test::Fail;
use telling::answers::{AverageLine, CallLine, Entry, ErrorLine, SessionLine, listed_entry};

#[test]
fn calls_made(rt: HostRuntime) -> Result<(), Fail> {
    let quotes = [Quote {
        currency: 0,
        settlement: 0,
    }; 8];
    let bid = Bid {
        holder: 1,
        ticker: 4,
        side: Side::Buy,
        price: Some(102),
        lots: 8,
        entire: false,
        keep: true,
    };
    let receipt = Receipt {
        number: 100_000,
        traded: 5,
        standing: 3,
        count: 2,
    };
    let table = [
        (
            Call::Start {
                listing: Listing { quotes },
            },
            Answer::Done,
            "ok started",
        ),
        (
            Call::Deposit {
                holder: 1,
                asset: 2,
                amount: 3,
            },
            Answer::Done,
            "ok deposited",
        ),
        (
            Call::Withdraw {
                holder: 1,
                asset: 2,
                amount: 3,
            },
            Answer::Done,
            "ok withdrawn",
        ),
        (
            Call::Place {
                shown: Session::Trading,
                bid,
                room: 64,
            },
            Answer::Placed(receipt),
            "ok bid 100000 5 3 2",
        ),
        (
            Call::Cancel {
                shown: Session::PreTrading,
                holder: 1,
                ticker: 4,
                number: 7,
            },
            Answer::Cancelled(1_000_000),
            "ok cancelled 1000000",
        ),
        (Call::Open { room: 1024 }, Answer::Opened(0), "ok opened 0"),
        (Call::EndTrading, Answer::Done, "ok trading-ended"),
        (Call::EndPostTrading, Answer::Done, "ok post-trading-ended"),
    ];
    for (call, answer, expected) in table {
        let line = CallLine { call, answer }.to_string(rt.alloc())?;
        assert_eq!(rt; line.as_str(), expected);
    }
    Ok(())
}

#[test]
fn records(rt: HostRuntime) -> Result<(), Fail> {
    let trade = Trade {
        ticker: 4,
        buyer: 1,
        seller: 2,
        buy: 30,
        sell: 29,
        price: 10_000_000,
        lots: 1_000_000,
    };
    let line = trade.to_string(rt.alloc())?;
    assert_eq!(rt; line.as_str(), "trade 4 1 2 30 29 10000000 1000000");
    let bid = Standing {
        number: 12,
        holder: 15,
        price: 101,
        lots: 5,
    };
    let line = bid.to_string(rt.alloc())?;
    assert_eq!(rt; line.as_str(), "standing 12 15 101 5");
    Ok(())
}

#[test]
fn accounts(rt: HostRuntime) -> Result<(), Fail> {
    let table = [
        (300, 600, Some("account 3 11 300 600 1000")),
        (1, 0, Some("account 3 11 1 0 1000")),
        (0, 1, Some("account 3 11 0 1 1000")),
        (0, 0, None),
    ];
    for (free, blocked, expected) in table {
        let account = Account {
            free,
            blocked,
            limit: 1000,
        };
        match (listed_entry(3, 11, account), expected) {
            (Some(entry), Some(expected)) => {
                let line = entry.to_string(rt.alloc())?;
                assert_eq!(rt; line.as_str(), expected);
            }
            (None, None) => {}
            _ => return Err(Fail::new("listed otherwise")),
        }
    }
    let account = Account {
        free: 0,
        blocked: 0,
        limit: 10_000_000_000_000_000,
    };
    let entry = Entry {
        holder: 0,
        asset: 4,
        account,
    };
    let line = entry.to_string(rt.alloc())?;
    assert_eq!(rt; line.as_str(), "account 0 4 0 0 10000000000000000");
    Ok(())
}

#[test]
fn averages_and_sessions(rt: HostRuntime) -> Result<(), Fail> {
    let line = AverageLine {
        ticker: 4,
        average: Some(101),
    }
    .to_string(rt.alloc())?;
    assert_eq!(rt; line.as_str(), "average 4 101");
    let line = AverageLine {
        ticker: 11,
        average: None,
    }
    .to_string(rt.alloc())?;
    assert_eq!(rt; line.as_str(), "average 11 -");
    let sessions = [
        (Session::Closed, "session closed"),
        (Session::PreTrading, "session pre-trading"),
        (Session::Trading, "session trading"),
        (Session::PostTrading, "session post-trading"),
    ];
    for (session, expected) in sessions {
        let line = SessionLine(session).to_string(rt.alloc())?;
        assert_eq!(rt; line.as_str(), expected);
    }
    Ok(())
}

#[test]
fn errors(rt: HostRuntime) -> Result<(), Fail> {
    let table = [
        (1, LineFault::UnknownCall, "error 1: no such call"),
        (2, LineFault::TooFewWords, "error 2: too few words"),
        (3, LineFault::TooManyWords, "error 3: too many words"),
        (4, LineFault::NotANumber, "error 4: a number is due"),
        (5, LineFault::TooLarge, "error 5: a number is too large"),
        (
            6,
            LineFault::NoSession,
            "error 6: pre, trading or post is due",
        ),
        (7, LineFault::NoSide, "error 7: buy or sell is due"),
        (8, LineFault::NoFill, "error 8: partial or entire is due"),
        (9, LineFault::NoRest, "error 9: keep or withdraw is due"),
        (
            u64::MAX,
            LineFault::NoQuote,
            "error 18446744073709551615: CURRENCY:PRICE is due",
        ),
    ];
    for (number, fault, expected) in table {
        let line = ErrorLine {
            line: number,
            fault,
        }
        .to_string(rt.alloc())?;
        assert_eq!(rt; line.as_str(), expected);
    }
    Ok(())
}
