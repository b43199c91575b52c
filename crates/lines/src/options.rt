// The words of the program's command line.
use script::options::{OptionFault, Options, RegisterKind, RuleKind};
use std::process::Abort;
use std::test::Fail;

const MOST: u64 = 10_000_000_000_000_000;

// The options that a command line asks for.
fn asked(words: &[&str]) -> Result<Options, OptionFault> {
    let mut options = Options::none();
    for word in words {
        options = options.with_word(word.as_bytes())?;
    }
    options.complete()
}

#[test]
fn no_options(rt: HostRuntime) -> Result<(), Fail> {
    let options = Options::none().complete()?;
    assert_eq!(rt; options.register, RegisterKind::Table);
    assert_eq!(rt; options.rule, RuleKind::Corporate);
    assert_eq!(rt; options.caps[0], MOST);
    assert_eq!(rt; options.caps[11], MOST);
    assert_eq!(rt; options.help, false);
    Ok(())
}

#[test]
fn options(rt: HostRuntime) -> Result<(), Fail> {
    let options = asked(&[
        "--rule",
        "government",
        "--cap",
        "4=1000",
        "--register",
        "list",
        "--cap",
        "11=0",
        "--cap",
        "4=18446744073709551615",
        "--help",
    ])?;
    assert_eq!(rt; options.register, RegisterKind::List);
    assert_eq!(rt; options.rule, RuleKind::Government);
    assert_eq!(rt; options.caps[3], MOST);
    assert_eq!(rt; options.caps[4], u64::MAX);
    assert_eq!(rt; options.caps[11], 0);
    assert_eq!(rt; options.help, true);
    let options = asked(&["--register", "split", "--rule", "corporate"])?;
    assert_eq!(rt; options.register, RegisterKind::Split);
    assert_eq!(rt; options.rule, RuleKind::Corporate);
    Ok(())
}

// That every one of some command lines of two words has the fault.
fn all_have(rt: &impl Abort, lines: &[[&str; 2]], fault: OptionFault) -> Result<(), Fail> {
    for words in lines {
        match asked(words) {
            Ok(_) => return Err(Fail::new("taken")),
            Err(found) => assert_eq!(rt; found, fault),
        }
    }
    Ok(())
}

#[test]
fn bad_options(rt: HostRuntime) -> Result<(), Fail> {
    all_have(
        &rt,
        &[["--registers", "list"], ["list", "--help"]],
        OptionFault::UnknownOption,
    )?;
    all_have(
        &rt,
        &[["--register", "tree"], ["--register", "--help"]],
        OptionFault::UnknownRegister,
    )?;
    all_have(
        &rt,
        &[["--rule", "Corporate"], ["--rule", "list"]],
        OptionFault::UnknownRule,
    )?;
    all_have(
        &rt,
        &[
            ["--cap", "12=1"],
            ["--cap", "4"],
            ["--cap", "4="],
            ["--cap", "=4"],
            ["--cap", "4=1=1"],
            ["--cap", "4=18446744073709551616"],
        ],
        OptionFault::BadCap,
    )?;
    all_have(
        &rt,
        &[
            ["--help", "--register"],
            ["--help", "--rule"],
            ["--help", "--cap"],
        ],
        OptionFault::ValueMissing,
    )
}
