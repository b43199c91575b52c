// Lines that name a command.
use model::calls::Call;
use model::words::{Bid, Listing, Quote, Session};
use rules::Side;
use script::commands::{Command, parse};

#[test]
fn nothing(rt: HostRuntime) {
    for line in ["", " ", "\t\r", "#", "  # deposit 1 2 3"] {
        assert_eq!(rt; parse(line.as_bytes()), Ok(None));
    }
}

#[test]
fn deposits(rt: HostRuntime) {
    let table = [
        ("deposit 1 2 3", 1, 2, 3),
        ("  deposit\t7  4   250 \t", 7, 4, 250),
        ("deposit 0 0 0", 0, 0, 0),
        ("deposit 00000000000000000000015 011 007", 15, 11, 7),
        ("deposit 255 255 18446744073709551615#", 255, 255, u64::MAX),
    ];
    for (line, holder, asset, amount) in table {
        let call = Call::Deposit {
            holder,
            asset,
            amount,
        };
        assert_eq!(rt; parse(line.as_bytes()), Ok(Some(Command::Call(call))));
    }
    let call = Call::Withdraw {
        holder: 1,
        asset: 2,
        amount: 3,
    };
    assert_eq!(rt;
        parse(b"withdraw 1 2 3 #4\r"),
        Ok(Some(Command::Call(call)))
    );
}

#[test]
fn bids(rt: HostRuntime) {
    let partial = Bid {
        holder: 1,
        ticker: 4,
        side: Side::Buy,
        price: Some(100),
        lots: 10,
        entire: false,
        keep: true,
    };
    let largest = Bid {
        holder: 255,
        ticker: 254,
        side: Side::Sell,
        price: Some(u32::MAX),
        lots: u32::MAX,
        entire: true,
        keep: false,
    };
    let unpriced = Bid {
        price: None,
        keep: false,
        ..partial
    };
    let nought = Bid {
        price: Some(0),
        lots: 0,
        entire: true,
        ..partial
    };
    let table = [
        (
            "bid pre 1 4 buy 100 10 partial keep",
            Session::PreTrading,
            partial,
            64,
        ),
        (
            "bid trading 1 4 buy 100 10 partial keep 63 # short",
            Session::Trading,
            partial,
            63,
        ),
        (
            "bid trading 255 254 sell 4294967295 4294967295 entire withdraw 18446744073709551615",
            Session::Trading,
            largest,
            18_446_744_073_709_551_615,
        ),
        (
            "bid post 1 4 buy - 10 partial withdraw 0",
            Session::PostTrading,
            unpriced,
            0,
        ),
        (
            "bid post 1 4 buy 0 0 entire keep",
            Session::PostTrading,
            nought,
            64,
        ),
    ];
    for (line, shown, bid, room) in table {
        let call = Call::Place { shown, bid, room };
        assert_eq!(rt; parse(line.as_bytes()), Ok(Some(Command::Call(call))));
    }
}

#[test]
fn cancellations(rt: HostRuntime) {
    let table = [
        ("cancel pre 1 4 7", Session::PreTrading, 1, 4, 7),
        ("cancel trading 0 11 0", Session::Trading, 0, 11, 0),
        (
            "cancel post 255 255 4294967295",
            Session::PostTrading,
            255,
            255,
            u32::MAX,
        ),
    ];
    for (line, shown, holder, ticker, number) in table {
        let call = Call::Cancel {
            shown,
            holder,
            ticker,
            number,
        };
        assert_eq!(rt; parse(line.as_bytes()), Ok(Some(Command::Call(call))));
    }
}

fn quote(currency: u8, settlement: u32) -> Quote {
    Quote {
        currency,
        settlement,
    }
}

#[test]
fn days(rt: HostRuntime) {
    let quotes = [
        quote(0, 0),
        quote(1, 1),
        quote(2, 20),
        quote(3, 10_000_000),
        quote(4, 10_000_001),
        quote(255, u32::MAX),
        quote(0, 7),
        quote(10, 100),
    ];
    let listing = Listing { quotes };
    let table = [
        (
            "start 0:0 1:1 2:20 3:10000000 4:10000001 255:4294967295 00:007 10:100",
            Call::Start { listing },
        ),
        ("open", Call::Open { room: 1024 }),
        ("open 1023", Call::Open { room: 1023 }),
        ("open 0", Call::Open { room: 0 }),
        ("end-trading", Call::EndTrading),
        ("end-post-trading", Call::EndPostTrading),
    ];
    for (line, call) in table {
        assert_eq!(rt; parse(line.as_bytes()), Ok(Some(Command::Call(call))));
    }
}

#[test]
fn looks(rt: HostRuntime) {
    let table = [
        ("read 0 0", Command::Read(0, 0)),
        ("read 255 12", Command::Read(255, 12)),
        ("queue 4 buy", Command::Queue(4, Side::Buy)),
        ("queue 255 sell", Command::Queue(255, Side::Sell)),
        ("average 11", Command::Average(11)),
        ("accounts", Command::Accounts),
        (" session # which", Command::Session),
    ];
    for (line, command) in table {
        assert_eq!(rt; parse(line.as_bytes()), Ok(Some(command)));
    }
}
