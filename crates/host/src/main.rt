// The program: reads calls from standard input, one a line, and answers each.
#![tactic(auto)]

use floor::floors::Floor;
use floor::runner::run;
use layers::caps::{CapLayer, Caps};
use layers::splits::Split;
use register::registers::Register;
use registers::list::ListRegister;
use registers::table::TableRegister;
use replies::reply;
use rules::{Corporate, Government, MarketRule};
use script::options::{Options, RegisterKind, RuleKind};
use std::io::{BufRead, BufReader};
use std::{env, io};
use tapes::Tape;

mod calls;
mod looks;
mod replies;
mod tapes;
mod texts;

const HELP: &str =
    "host [--rule corporate|government] [--register table|list|split] [--cap ASSET=AMOUNT]..
Reads calls from standard input, one a line, and answers each. `#` starts a comment.

  --rule corporate|government   the market rule (corporate)
  --register table|list|split   how the accounts are kept (table)
  --cap ASSET=AMOUNT            the most that a holder may have blocked of an asset

start C:S C:S C:S C:S C:S C:S C:S C:S   starts a day: currency and settlement price of the tickers 4 to 11
deposit HOLDER ASSET AMOUNT             adds to what is free
withdraw HOLDER ASSET AMOUNT            takes from what is free
bid SESSION HOLDER TICKER buy|sell PRICE|- LOTS partial|entire keep|withdraw [ROOM]
                                        makes a bid; - is no price
cancel SESSION HOLDER TICKER NUMBER     takes out a standing bid
open [ROOM]                             opens trading
end-trading                             ends trading
end-post-trading                        ends post-trading, and the day
read HOLDER ASSET                       shows one account
accounts                                shows each account that has something free or blocked
queue TICKER buy|sell                   shows the standing bids of one side
average TICKER                          shows the average price of the ticker's trades
session                                 shows the session

SESSION is pre, trading or post: the session whose pass is shown. ROOM is how many records are lent for the trades.
Holders are 0 to 15. Assets 0 to 3 are currencies, 4 to 11 are tickers.";

// The tag by which the program's own caps name themselves.
const CAP_TAG: u32 = 1;

// Answers are written out in blocks of about this many bytes.
const BLOCK: usize = 65_536;

// Reads the next line, without its newline, where there is one.
fn read_line<'a, B: BufRead>(input: &mut B, line: &'a mut Vec<u8>) -> io::Result<Option<&'a [u8]>> {
    line.clear();
    if input.read_until(b'\n', line)? == 0 {
        return Ok(None);
    }
    if let Some(b'\n') = line.as_slice().last() {
        line.pop();
    }
    Ok(Some(line.as_slice()))
}

// Writes out what was told so far.
fn write_out(rt: &HostRuntime, text: &mut String) -> io::Result<()> {
    rt.write_all(text.as_bytes())?;
    text.clear();
    Ok(())
}

// Answers every line of the input. What was told is written out before more input is waited for.
fn serve<R: Register, M: MarketRule>(rt: &HostRuntime, floor: &mut Floor<R, M>) -> io::Result<()> {
    let heap = rt.alloc();
    let mut input = BufReader::new(heap, rt.stdin())?;
    let mut line = Vec::new(heap);
    let mut text = String::new(heap);
    let mut tape = Tape::new();
    for number in 1.. {
        if text.len() >= BLOCK || !input.buffer().contains(&b'\n') {
            write_out(rt, &mut text)?;
        }
        let Some(words) = read_line(&mut input, &mut line)? else {
            break;
        };
        reply(&mut text, floor, &mut tape, number, words)?;
    }
    write_out(rt, &mut text)
}

// Serves on a floor over this register, and hands the register back.
fn serve_floor<R: Register, M: MarketRule + Drop>(
    rt: &HostRuntime,
    register: R,
    rule: M,
) -> (io::Result<()>, R) {
    let mut floor = run(register, rule, &[], &mut [], &mut []);
    let served = serve(rt, &mut floor);
    let (register, _rule) = floor.take_apart();
    (served, register)
}

// Serves under the rule and the caps that were asked for. Kept as a match, here and below: each rule and each register is of a type of
// its own.
fn serve_over<R: Register>(
    rt: &HostRuntime,
    register: R,
    options: &Options,
) -> (io::Result<()>, R) {
    let amounts = options.caps;
    let caps = Caps {
        amounts,
        tag: CAP_TAG,
    };
    let capped = CapLayer::new(register, caps);
    let (served, capped) = match options.rule {
        RuleKind::Corporate => serve_floor(rt, capped, Corporate),
        RuleKind::Government => serve_floor(rt, capped, Government),
    };
    (served, capped.into_below())
}

// Serves from the kind of register that was asked for.
fn serve_from(rt: &HostRuntime, options: &Options) -> io::Result<()> {
    match options.register {
        RegisterKind::Table => {
            let (served, _register) = serve_over(rt, TableRegister::empty(), options);
            served
        }
        RegisterKind::List => {
            let (served, _register) = serve_over(rt, ListRegister::empty(), options);
            served
        }
        RegisterKind::Split => {
            let split = Split::new(TableRegister::empty(), ListRegister::empty());
            let (served, split) = serve_over(rt, split, options);
            let (_first, _second) = split.into_parts();
            served
        }
    }
}

fn read_options(rt: &HostRuntime) -> anyhow::Result<Options> {
    let options = env::args(rt)?
        .skip(1)
        .try_fold(Options::none(), |options, word| {
            options.with_word(word.as_str().as_bytes())
        })?;
    Ok(options.complete()?)
}

fn answer(rt: &HostRuntime) -> anyhow::Result<()> {
    let options = read_options(rt)?;
    if options.help {
        rt.println(HELP)?;
    } else {
        serve_from(rt, &options)?;
    }
    Ok(())
}

fn main(rt: HostRuntime) -> anyhow::Result<()> {
    answer(&rt)
}
