// Lines that are no call: the first thing wrong is told, read from the left.
use script::commands::parse;
use script::reading::LineFault;
use std::process::Abort;

// That every one of some lines has the fault.
fn all_have(rt: &impl Abort, lines: &[&str], fault: LineFault) {
    for line in lines {
        assert_eq!(rt; parse(line.as_bytes()), Err(fault));
    }
}

#[test]
fn first_words(rt: HostRuntime) {
    let lines = [
        "deposits 1 2 3",
        "deposi",
        "Deposit 1 2 3",
        "end",
        "end-trading-now",
        "end_trading",
        "bids",
        "-",
        "0:0",
    ];
    all_have(&rt, &lines, LineFault::UnknownCall);
    assert_eq!(rt; parse(b" \xff(\x80"), Err(LineFault::UnknownCall));
    assert_eq!(rt; parse(b"deposit \xff\xfe 0 1"), Err(LineFault::NotANumber));
}

#[test]
fn counts(rt: HostRuntime) {
    let few = [
        "deposit",
        "deposit 1 2",
        "withdraw 1",
        "bid",
        "bid pre",
        "bid pre 1 4",
        "bid pre 1 4 buy 100 10",
        "bid pre 1 4 buy 100 10 partial # keep",
        "cancel pre 1 4",
        "start",
        "start 0:0 0:0 0:0 0:0 0:0 0:0 0:0",
        "read 1",
        "queue 4",
        "average",
    ];
    all_have(&rt, &few, LineFault::TooFewWords);
    let many = [
        "deposit 1 2 3 4",
        "withdraw 1 2 3 x",
        "bid pre 1 4 buy 100 10 partial keep 64 64",
        "cancel pre 1 4 7 8",
        "start 0:0 0:0 0:0 0:0 0:0 0:0 0:0 0:0 0:0",
        "open 1024 1",
        "end-trading now",
        "end-post-trading 0",
        "read 1 2 3",
        "queue 4 buy sell",
        "average 4 5",
        "accounts 1",
        "session closed",
    ];
    all_have(&rt, &many, LineFault::TooManyWords);
}

#[test]
fn numbers(rt: HostRuntime) {
    let due = [
        "deposit x 2 3",
        "deposit 1 -2 3",
        "deposit 1 2 +3",
        "deposit 1 2 3x",
        "deposit 0x1 2 3",
        "bid pre one 4 buy 100 10 partial keep",
        "bid pre 1 4 buy -- 10 partial keep",
        "bid pre 1 4 buy 100 - partial keep",
        "bid pre 1 4 buy 100 10 partial keep all",
        "cancel pre 1 4 last",
        "open wide",
        "start x:0 0:0 0:0 0:0 0:0 0:0 0:0 0:0",
        "start :0 0:0 0:0 0:0 0:0 0:0 0:0 0:0",
        "start 0: 0:0 0:0 0:0 0:0 0:0 0:0 0:0",
        "start 0:1:2 0:0 0:0 0:0 0:0 0:0 0:0 0:0",
        "queue buy 4",
        "average -",
    ];
    all_have(&rt, &due, LineFault::NotANumber);
    let large = [
        "deposit 256 2 x",
        "deposit 1 256 3",
        "withdraw 1 1 18446744073709551616",
        "read 1 18446744073709551616",
        "bid pre 256 4 buy 100 10 partial keep",
        "bid pre 1 256 buy 100 10 partial keep",
        "bid pre 1 4 buy 4294967296 10 partial keep",
        "bid pre 1 4 buy 100 4294967296 partial keep",
        "bid pre 1 4 buy 100 10 partial keep 18446744073709551616",
        "cancel pre 1 4 4294967296",
        "open 18446744073709551616",
        "start 256:0 0:0 0:0 0:0 0:0 0:0 0:0 0:0",
        "start 0:0 0:0 0:0 0:0 0:0 0:0 0:0 0:4294967296",
        "queue 256 buy",
        "average 999999999999999999999999999999999999999999",
    ];
    all_have(&rt, &large, LineFault::TooLarge);
}

#[test]
fn choices(rt: HostRuntime) {
    let session = [
        "bid now 1 4 buy 100 10 partial keep",
        "bid pre-trading x",
        "bid 1 4 buy 100 10 partial keep",
        "cancel closed 1 4 7",
    ];
    all_have(&rt, &session, LineFault::NoSession);
    let side = [
        "bid pre 1 4 bought 100 10 partial keep",
        "bid pre 1 4 BUY 100 10 partial keep",
        "bid pre 1 4 100 10 partial keep",
        "queue 4 both",
    ];
    all_have(&rt, &side, LineFault::NoSide);
    let fill = [
        "bid pre 1 4 buy 100 10 whole keep",
        "bid pre 1 4 buy 100 10 keep partial",
    ];
    all_have(&rt, &fill, LineFault::NoFill);
    let rest = [
        "bid pre 1 4 buy 100 10 partial kept",
        "bid pre 1 4 buy 100 10 entire 64",
    ];
    all_have(&rt, &rest, LineFault::NoRest);
    let listing = [
        "start 0 0:0 0:0 0:0 0:0 0:0 0:0 0:0",
        "start 0:0 0=0 0:0 0:0 0:0 0:0 0:0 0:0",
        "start 0:0 0:0 0:0 0:0 0:0 0:0 0:0 x",
    ];
    all_have(&rt, &listing, LineFault::NoQuote);
}
