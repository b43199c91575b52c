// Lines that deposit, withdraw and look at accounts, and the options of the register.
use model::calls::Call;
use script::commands::{Command, parse};
use script::options::{OptionFault, Options, RegisterKind};
use script::reading::LineFault;
use std::test::Fail;

#[test]
fn calls(rt: HostRuntime) {
    assert_eq!(rt; parse(b""), Ok(None));
    assert_eq!(rt; parse(b" \t\r# deposit 1 2 3"), Ok(None));
    assert_eq!(rt;
        parse(b"deposit 1 2 3"),
        Ok(Some(Command::Call(Call::Deposit {
            holder: 1,
            asset: 2,
            amount: 3,
        })))
    );
    assert_eq!(rt;
        parse(b"\twithdraw 255  011\t18446744073709551615#"),
        Ok(Some(Command::Call(Call::Withdraw {
            holder: 255,
            asset: 11,
            amount: u64::MAX,
        })))
    );
    assert_eq!(rt; parse(b"read 0 0\r"), Ok(Some(Command::Read(0, 0))));
    assert_eq!(rt; parse(b"accounts"), Ok(Some(Command::Accounts)));
}

#[test]
fn faults(rt: HostRuntime) {
    assert_eq!(rt; parse(b"deposits 1 2 3"), Err(LineFault::UnknownCall));
    assert_eq!(rt; parse(b"deposi"), Err(LineFault::UnknownCall));
    assert_eq!(rt; parse(b"deposit 1 2"), Err(LineFault::TooFewWords));
    assert_eq!(rt; parse(b"deposit 1 2 3 4"), Err(LineFault::TooManyWords));
    assert_eq!(rt; parse(b"deposit 1 2 3x"), Err(LineFault::NotANumber));
    assert_eq!(rt; parse(b"deposit 1 -2 3"), Err(LineFault::NotANumber));
    assert_eq!(rt; parse(b"deposit 256 2 x"), Err(LineFault::TooLarge));
    assert_eq!(rt;
        parse(b"read 1 18446744073709551616"),
        Err(LineFault::TooLarge)
    );
    assert_eq!(rt;
        parse(b"withdraw 1 1 18446744073709551616"),
        Err(LineFault::TooLarge)
    );
}

#[test]
fn options(rt: HostRuntime) -> Result<(), Fail> {
    let options = Options::none()
        .with_word(b"--register")?
        .with_word(b"list")?;
    let options = options
        .with_word(b"--cap")?
        .with_word(b"4=1000")?
        .complete()?;
    assert_eq!(rt; options.register, RegisterKind::List);
    assert_eq!(rt; options.caps[4], 1000);
    assert_eq!(rt; options.caps[5], 10_000_000_000_000_000);
    assert_eq!(rt; options.help, false);
    Ok(())
}

fn fault_of(first: &[u8], second: &[u8]) -> OptionFault {
    match Options::none().with_word(first) {
        Err(fault) => fault,
        Ok(options) => match options.with_word(second) {
            Err(fault) => fault,
            Ok(_) => OptionFault::ValueMissing,
        },
    }
}

#[test]
fn bad_options(rt: HostRuntime) {
    assert_eq!(rt;
        fault_of(b"--registers", b"list"),
        OptionFault::UnknownOption
    );
    assert_eq!(rt;
        fault_of(b"--register", b"tree"),
        OptionFault::UnknownRegister
    );
    assert_eq!(rt; fault_of(b"--cap", b"12=1"), OptionFault::BadCap);
    assert_eq!(rt; fault_of(b"--cap", b"4"), OptionFault::BadCap);
    assert_eq!(rt; fault_of(b"--cap", b"4="), OptionFault::BadCap);
    assert_eq!(rt; fault_of(b"--cap", b"=4"), OptionFault::BadCap);
}
