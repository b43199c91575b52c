// One list of calls on a table, a list and two splits: the same answers and readings.
use layers::splits::Split;
use register::faults::{Account, RegisterCause, RegisterFault};
use register::registers::Register;
use register::slips::Slip;
use registers::list::ListRegister;
use registers::table::TableRegister;
use std::process::Abort;
use std::test::Fail;

const MOST: u64 = 10_000_000_000_000_000;

// The refusal's number and place, or 0 where the call is made.
fn told(answer: Result<(), RegisterFault>) -> (u8, u8, u8) {
    match answer {
        Ok(()) => (0, 0, 0),
        Err(fault) => (fault.cause.number(), fault.holder, fault.asset),
    }
}

fn balance<R: Register>(register: &R, holder: u8, asset: u8) -> (u64, u64) {
    match register.read(holder, asset) {
        Ok(account) => (account.free, account.blocked),
        Err(_) => (u64::MAX, u64::MAX),
    }
}

// Amounts 0, 1, 10^16 and 10^16 + 1; holders 15 and 16, assets 11 and 12.
fn bounds<R: Register>(rt: &impl Abort, register: &mut R) {
    assert_eq!(rt; told(register.deposit(15, 11, 0)), (32, 15, 11));
    assert_eq!(rt; told(register.deposit(15, 11, MOST + 1)), (32, 15, 11));
    assert_eq!(rt; told(register.deposit(16, 11, 1)), (31, 16, 11));
    assert_eq!(rt; told(register.deposit(15, 12, 1)), (31, 15, 12));
    assert_eq!(rt; told(register.deposit(16, 12, 0)), (31, 16, 12));
    assert_eq!(rt; told(register.deposit(15, 11, 1)), (0, 0, 0));
    assert_eq!(rt; told(register.deposit(15, 11, MOST)), (33, 15, 11));
    assert_eq!(rt; told(register.deposit(14, 10, MOST)), (0, 0, 0));
    assert_eq!(rt; told(register.withdraw(15, 11, 0)), (32, 15, 11));
    assert_eq!(rt; told(register.withdraw(15, 11, 2)), (34, 15, 11));
    assert_eq!(rt; told(register.withdraw(15, 11, MOST + 1)), (32, 15, 11));
    assert_eq!(rt; told(register.withdraw(255, 11, 1)), (31, 255, 11));
    assert_eq!(rt; told(register.withdraw(14, 10, MOST)), (0, 0, 0));
    assert_eq!(rt; told(register.withdraw(15, 11, 1)), (0, 0, 0));
    assert_eq!(rt; balance(register, 15, 11), (0, 0));
}

// 10^16 of an asset spread over all holders, and one more.
fn full<R: Register>(rt: &impl Abort, register: &mut R, asset: u8) {
    for holder in 0..16 {
        assert_eq!(rt; told(register.deposit(holder, asset, MOST / 16)), (0, 0, 0));
    }
    assert_eq!(rt; told(register.deposit(7, asset, 1)), (33, 7, asset));
    assert_eq!(rt; told(register.withdraw(3, asset, 1)), (0, 0, 0));
    assert_eq!(rt; told(register.deposit(7, asset, 2)), (33, 7, asset));
    assert_eq!(rt; told(register.deposit(7, asset, 1)), (0, 0, 0));
    assert_eq!(rt; balance(register, 7, asset), (MOST / 16 + 1, 0));
    for holder in 0..16 {
        let (free, _) = balance(register, holder, asset);
        assert_eq!(rt; told(register.withdraw(holder, asset, free)), (0, 0, 0));
    }
}

// Ends a slip that nothing can be done with any more.
fn give_up(slip: Slip) {
    slip.into_parts();
}

fn released<R: Register>(register: &mut R, slip: Slip) -> (u8, u8, u8) {
    match register.release(slip) {
        Ok(()) => (0, 0, 0),
        Err((fault, back)) => {
            give_up(back);
            told(Err(fault))
        }
    }
}

fn paid<R: Register>(register: &mut R, slip: Slip, payee: u8) -> (u8, u8, u8) {
    match register.pay(slip, payee) {
        Ok(()) => (0, 0, 0),
        Err((fault, back)) => {
            give_up(back);
            told(Err(fault))
        }
    }
}

// Blocks, and pays the first part of the slip and releases the rest.
fn block_and_split<R: Register>(rt: &impl Abort, register: &mut R) -> Result<(), Fail> {
    let slip = match register.block(0, 0, 300) {
        Ok(slip) => slip,
        Err(fault) => {
            assert_eq!(rt; fault.cause, RegisterCause::BadAmount);
            return Ok(())
        },
    };
    let (part, rest) = slip.cut(120);
    let withdrawn = told(register.withdraw(0, 0, 201));
    let taken = told(register.withdraw(0, 0, 50));
    let part = match register.pay(part, 16) {
        Ok(()) => Slip::new(0, 0, 0),
        Err((_, back)) => back,
    };
    let amount = part.amount();
    let given = paid(register, part, 5);
    let freed = released(register, rest);
    assert_eq!(rt; withdrawn, (34, 0, 0));
    assert_eq!(rt; taken, (0, 0, 0));
    assert_eq!(rt; amount, 120);
    assert_eq!(rt; given, (0, 0, 0));
    assert_eq!(rt; freed, (0, 0, 0));
    Ok(())
}

fn calls<R: Register>(rt: &impl Abort, register: &mut R) -> Result<(), Fail> {
    assert_eq!(rt; told(register.deposit(0, 0, 500)), (0, 0, 0));
    assert_eq!(rt; told(register.deposit(5, 4, 40)), (0, 0, 0));
    assert_eq!(rt; told(register.deposit(15, 11, 7)), (0, 0, 0));
    assert_eq!(rt; told(register.withdraw(0, 0, 501)), (34, 0, 0));
    block_and_split(rt, register)?;
    let given = match register.block(5, 4, 40) {
        Ok(slip) => paid(register, slip, 0),
        Err(fault) => told(Err(fault)),
    };
    assert_eq!(rt; given, (0, 0, 0));
    assert_eq!(rt; told(register.withdraw(15, 11, 7)), (0, 0, 0));
    assert_eq!(rt; released(register, Slip::new(0, 0, 1)), (36, 0, 0));
    assert_eq!(rt; released(register, Slip::new(16, 0, 1)), (31, 16, 0));
    assert_eq!(rt; paid(register, Slip::new(0, 0, 1), 16), (31, 16, 0));
    assert_eq!(rt; released(register, Slip::new(0, 0, 0)), (0, 0, 0));
    assert_eq!(rt; balance(register, 0, 0), (330, 0));
    assert_eq!(rt; balance(register, 0, 4), (40, 0));
    assert_eq!(rt; balance(register, 5, 0), (120, 0));
    assert_eq!(rt; balance(register, 5, 4), (0, 0));
    assert_eq!(rt; balance(register, 15, 11), (0, 0));
    Ok(())
}

fn all<R: Register>(rt: &impl Abort, register: &mut R) -> Result<(), Fail> {
    bounds(rt, register);
    full(rt, register, 3);
    full(rt, register, 4);
    calls(rt, register)?;
    let account = register.read(5, 0);
    match account {
        Ok(account) => {
            assert_eq!(rt;
                account,
                Account {
                    free: 120,
                    blocked: 0,
                    limit: MOST,
                }
            );
            Ok(())
        },
        Err(fault) => {
            assert_eq!(rt; fault.cause.number(), 0);
            Ok(())
        },
    }
}

#[test]
fn table(rt: HostRuntime) -> Result<(), Fail> {
    all(&rt, &mut TableRegister::empty())
}

#[test]
fn list(rt: HostRuntime) -> Result<(), Fail> {
    all(&rt, &mut ListRegister::empty())
}

#[test]
fn split_table_list(rt: HostRuntime) -> Result<(), Fail> {
    let mut register = Split::new(TableRegister::empty(), ListRegister::empty());
    let result = all(&rt, &mut register);
    let (_first, _second) = register.into_parts();
    result
}

#[test]
fn split_list_table(rt: HostRuntime) -> Result<(), Fail> {
    let mut register = Split::new(ListRegister::empty(), TableRegister::empty());
    let result = all(&rt, &mut register);
    let (_first, _second) = register.into_parts();
    result
}
