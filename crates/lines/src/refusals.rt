// Refusals and the lines that tell them.
use model::calls::{Answer, Call};
use model::faults::{CallKind, Cause, Fault, FloorRefusal};
use register::faults::{RegisterCause, RegisterFault};
use rules::RuleRefusal;
use std::process::Abort;
use std::test::Fail;
use telling::answers::CallLine;

fn floor(refusal: FloorRefusal) -> Cause {
    Cause::Floor(refusal)
}

fn register(cause: RegisterCause, tag: u32) -> Cause {
    Cause::Register(RegisterFault {
        cause,
        holder: 2,
        asset: 5,
        tag,
    })
}

// That each refusal is told by its line.
fn told(
    rt: &(impl Abort + AllocGlobal),
    table: &[(Cause, CallKind, u8, &str)],
) -> Result<(), Fail> {
    for (cause, call, ticker, expected) in table {
        let fault = Fault {
            cause: *cause,
            call: *call,
            ticker: *ticker,
        };
        let line = fault.to_string(rt.alloc())?;
        assert_eq!(rt; line.as_str(), *expected);
    }
    Ok(())
}

#[test]
fn floor_refusals(rt: HostRuntime) -> Result<(), Fail> {
    let table = [
        (
            floor(FloorRefusal::BadListing),
            CallKind::Start,
            0,
            "refused 1 start 0 floor: a currency is above 3 or a settlement price above 10000000",
        ),
        (
            floor(FloorRefusal::SomethingBlocked),
            CallKind::Start,
            0,
            "refused 2 start 0 floor: something is blocked",
        ),
        (
            floor(FloorRefusal::WrongSession),
            CallKind::EndTrading,
            0,
            "refused 3 end-trading 0 floor: not in this session",
        ),
        (
            floor(FloorRefusal::WrongSession),
            CallKind::EndPostTrading,
            0,
            "refused 3 end-post-trading 0 floor: not in this session",
        ),
        (
            floor(FloorRefusal::ShortStrip),
            CallKind::Open,
            0,
            "refused 4 open 0 floor: too little room for trades",
        ),
        (
            floor(FloorRefusal::NoHolderOrTicker),
            CallKind::Bid,
            255,
            "refused 5 bid 255 floor: no such holder or ticker",
        ),
        (
            floor(FloorRefusal::BeyondLimits),
            CallKind::Bid,
            4,
            "refused 6 bid 4 floor: the price or the lots are beyond the limits",
        ),
        (
            floor(FloorRefusal::FormNotTaken),
            CallKind::Bid,
            4,
            "refused 7 bid 4 floor: this session takes no such bid",
        ),
        (
            floor(FloorRefusal::NoAverage),
            CallKind::Bid,
            11,
            "refused 8 bid 11 floor: there is no average",
        ),
        (
            floor(FloorRefusal::NumbersSpent),
            CallKind::Bid,
            4,
            "refused 9 bid 4 floor: all numbers are given",
        ),
        (
            floor(FloorRefusal::QueueFull),
            CallKind::Bid,
            4,
            "refused 10 bid 4 floor: the queue is full",
        ),
        (
            floor(FloorRefusal::NoSuchBid),
            CallKind::Cancel,
            4,
            "refused 11 cancel 4 floor: no such standing bid",
        ),
    ];
    told(&rt, &table)
}

#[test]
fn rule_refusals(rt: HostRuntime) -> Result<(), Fail> {
    let table = [
        (
            Cause::Rule(RuleRefusal::NotWholeSteps),
            CallKind::Bid,
            4,
            "refused 21 bid 4 rule: the lots are not whole steps",
        ),
        (
            Cause::Rule(RuleRefusal::OffBest),
            CallKind::Bid,
            4,
            "refused 22 bid 4 rule: the price is too far from the best",
        ),
        (
            Cause::Rule(RuleRefusal::OffSettlement),
            CallKind::Bid,
            4,
            "refused 23 bid 4 rule: the price is too far from the settlement price",
        ),
        (
            Cause::Rule(RuleRefusal::OppositeBid),
            CallKind::Bid,
            4,
            "refused 24 bid 4 rule: the holder has a standing bid on the other side",
        ),
    ];
    told(&rt, &table)
}

#[test]
fn register_refusals(rt: HostRuntime) -> Result<(), Fail> {
    let table = [
        (
            register(RegisterCause::NoAccount, 0),
            CallKind::Read,
            0,
            "refused 31 read 0 register 2 5 0: no such holder or asset",
        ),
        (
            register(RegisterCause::BadAmount, 0),
            CallKind::Deposit,
            0,
            "refused 32 deposit 0 register 2 5 0: the amount is 0 or more than 10000000000000000",
        ),
        (
            register(RegisterCause::OverTotal, 0),
            CallKind::Deposit,
            0,
            "refused 33 deposit 0 register 2 5 0: all holders together would have more than 10000000000000000",
        ),
        (
            register(RegisterCause::TooLittleFree, 0),
            CallKind::Withdraw,
            0,
            "refused 34 withdraw 0 register 2 5 0: less than that is free",
        ),
        (
            register(RegisterCause::OverCap, 4_294_967_295),
            CallKind::Bid,
            5,
            "refused 35 bid 5 register 2 5 4294967295: more than the cap would be blocked",
        ),
        (
            register(RegisterCause::TooLittleBlocked, 0),
            CallKind::Cancel,
            5,
            "refused 36 cancel 5 register 2 5 0: less than that is blocked",
        ),
    ];
    told(&rt, &table)
}

// A refused call is answered by its refusal, whatever call it is.
#[test]
fn refused_calls(rt: HostRuntime) -> Result<(), Fail> {
    let fault = Fault {
        cause: floor(FloorRefusal::WrongSession),
        call: CallKind::Open,
        ticker: 0,
    };
    let line = CallLine {
        call: Call::Open { room: 1024 },
        answer: Answer::Refused(fault),
    }
    .to_string(rt.alloc())?;
    assert_eq!(rt;
        line.as_str(),
        "refused 3 open 0 floor: not in this session"
    );
    Ok(())
}
