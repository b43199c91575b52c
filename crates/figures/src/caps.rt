// Caps: free is asked before the cap, and the uppermost exceeded cap names itself.
use layers::caps::{CapLayer, Caps};
use layers::piles::Pile;
use register::registers::Register;
use registers::list::ListRegister;
use registers::table::TableRegister;
use std::process::Abort;
use std::test::Fail;

const MOST: u64 = 10_000_000_000_000_000;

// Blocks and keeps it blocked; the refusal's number and tag, or 0.
fn block<R: Register>(register: &mut R, holder: u8, asset: u8, amount: u64) -> (u8, u32) {
    match register.block(holder, asset, amount) {
        Ok(slip) => {
            slip.into_parts();
            (0, 0)
        }
        Err(fault) => (fault.cause.number(), fault.tag),
    }
}

fn deposit<R: Register>(register: &mut R, holder: u8, asset: u8, amount: u64) -> u8 {
    match register.deposit(holder, asset, amount) {
        Ok(()) => 0,
        Err(fault) => fault.cause.number(),
    }
}

fn account<R: Register>(register: &R, holder: u8, asset: u8) -> (u64, u64, u64) {
    match register.read(holder, asset) {
        Ok(account) => (account.free, account.blocked, account.limit),
        Err(_) => (0, 0, 0),
    }
}

#[test]
fn free_before_cap(rt: HostRuntime) {
    let caps = Caps {
        amounts: [1000; 12],
        tag: 7,
    };
    let mut register = CapLayer::new(TableRegister::empty(), caps);
    let first = deposit(&mut register, 0, 0, 900);
    let held = block(&mut register, 0, 0, 600);
    let shown = account(&register, 0, 0);
    let short = block(&mut register, 0, 0, 500);
    let second = deposit(&mut register, 0, 0, 200);
    let over = block(&mut register, 0, 0, 401);
    let within = block(&mut register, 0, 0, 400);
    let full = account(&register, 0, 0);
    let below = register.into_below();
    assert_eq!(rt; (first, second), (0, 0));
    assert_eq!(rt; held, (0, 0));
    assert_eq!(rt; shown, (300, 600, 1000));
    assert_eq!(rt; short, (34, 0));
    assert_eq!(rt; over, (35, 7));
    assert_eq!(rt; within, (0, 0));
    assert_eq!(rt; full, (100, 1000, 1000));
    assert_eq!(rt; account(&below, 0, 0), (100, 1000, MOST));
}

// Lower caps of 100 and 50, upper caps of 50 and 100, on assets `a` and `b`.
fn two_layers<R: Register>(rt: &impl Abort, register: &mut R, a: u8, b: u8) -> Result<(), Fail> {
    assert_eq!(rt; deposit(register, 3, a, 1000), 0);
    assert_eq!(rt; deposit(register, 3, b, 1000), 0);
    assert_eq!(rt; account(register, 3, a), (1000, 0, 50));
    assert_eq!(rt; account(register, 3, b), (1000, 0, 50));
    assert_eq!(rt; block(register, 3, a, 60), (35, 2));
    assert_eq!(rt; block(register, 3, a, 101), (35, 2));
    assert_eq!(rt; block(register, 3, a, 1001), (34, 0));
    assert_eq!(rt; block(register, 3, b, 60), (35, 1));
    assert_eq!(rt; block(register, 3, b, 101), (35, 2));
    assert_eq!(rt; block(register, 3, a, 50), (0, 0));
    assert_eq!(rt; block(register, 3, b, 50), (0, 0));
    assert_eq!(rt; block(register, 3, b, 1), (35, 1));
    assert_eq!(rt; block(register, 3, b, 0), (32, 0));
    assert_eq!(rt; block(register, 16, b, 0), (31, 0));
    assert_eq!(rt; account(register, 3, b), (950, 50, 50));
    Ok(())
}

// Asset 0 is kept by the first register, asset 4 by the second.
#[test]
fn uppermost_names_itself(rt: HostRuntime) -> Result<(), Fail> {
    let lower = Caps {
        amounts: [
            100, MOST, MOST, MOST, 50, MOST, MOST, MOST, MOST, MOST, MOST, MOST,
        ],
        tag: 1,
    };
    let upper = Caps {
        amounts: [
            50, MOST, MOST, MOST, 100, MOST, MOST, MOST, MOST, MOST, MOST, MOST,
        ],
        tag: 2,
    };
    let mut register = <CapLayer<CapLayer<layers::splits::Split<_, _>>> as Pile<_, _>>::pile(
        TableRegister::empty(),
        ListRegister::empty(),
        lower,
        upper,
    );
    let result = two_layers(&rt, &mut register, 0, 4);
    let (first, second) = register.into_below().into_below().into_parts();
    result?;
    assert_eq!(rt; account(&first, 3, 0), (950, 50, MOST));
    assert_eq!(rt; account(&first, 3, 4), (0, 0, MOST));
    assert_eq!(rt; account(&second, 3, 4), (950, 50, MOST));
    Ok(())
}
