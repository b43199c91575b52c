// The program's options, word by word of its command line.
ghost use Rattle.std.specs.Prelude.{◌≡◌, Some};
ghost use Rattle.script.specs.Faults.{option_text};
ghost use Rattle.script.specs.Options.{cap_of, register_of_lem, rule_of_lem, flag_of, with_word_lem, complete, no_options_lem};

use crate::reading::number;
use crate::words::{cut_at, one_of};
use register::registers::MOST;
use std::error::Error;
use std::fmt;

// The kinds of register that the program can keep accounts in.
#[derive(Clone, Copy, PartialEq, Eq, Debug)]
pub enum RegisterKind {
    Table,
    List,
    Split,
}

// The market rules that the program can serve under.
#[derive(Clone, Copy, PartialEq, Eq, Debug)]
pub enum RuleKind {
    Corporate,
    Government,
}

// What the value behind an option says.
#[derive(Clone, Copy, PartialEq, Eq, Debug)]
pub enum Due {
    Register,
    Rule,
    Cap,
}

// What the command line has asked for so far, and the value that its last option still wants.
#[derive(Clone, Copy)]
pub struct Options {
    pub register: RegisterKind,
    pub rule: RuleKind,
    pub caps: [u64; 12],
    pub help: bool,
    pub due: Option<Due>,
}

#[derive(Clone, Copy, PartialEq, Eq, Debug)]
pub enum OptionFault {
    UnknownOption,
    UnknownRegister,
    UnknownRule,
    BadCap,
    ValueMissing,
}

impl fmt::Display for OptionFault {
    ghost output = { λ fault. Some (option_text fault) };

    fn fmt<W: fmt::Write>(&self, f: &mut fmt::Formatter<W>) -> fmt::Result {
        f.write_str(match self {
            OptionFault::UnknownOption => "no such option: see --help",
            OptionFault::UnknownRegister => "--register takes table, list or split",
            OptionFault::UnknownRule => "--rule takes corporate or government",
            OptionFault::BadCap => "--cap takes ASSET=AMOUNT, an asset from 0 to 11",
            OptionFault::ValueMissing => "the last option wants a value",
        })
    }
}

impl Error for OptionFault {}

// An option by its word: one that wants a value, or a plain one.
#[derive(Clone, Copy)]
enum Flag {
    Wants(Due),
    Help,
}

impl TryFrom<&[u8]> for RegisterKind {
    type Error = OptionFault;

    ghost try_from_gives = { λ word kind. kind ≡ register_of_lem word.now };

    fn try_from(word: &[u8]) -> Result<RegisterKind, OptionFault> {
        one_of(
            word,
            &[
                (b"table", RegisterKind::Table),
                (b"list", RegisterKind::List),
                (b"split", RegisterKind::Split),
            ],
            OptionFault::UnknownRegister,
        )
    }
}

impl TryFrom<&[u8]> for RuleKind {
    type Error = OptionFault;

    ghost try_from_gives = { λ word kind. kind ≡ rule_of_lem word.now };

    fn try_from(word: &[u8]) -> Result<RuleKind, OptionFault> {
        one_of(
            word,
            &[
                (b"corporate", RuleKind::Corporate),
                (b"government", RuleKind::Government),
            ],
            OptionFault::UnknownRule,
        )
    }
}

fn flag_of(word: &[u8]) -> Result<Flag, OptionFault>
    ensures { result ≡ flag_of word.now }
{
    one_of(
        word,
        &[
            (b"--register", Flag::Wants(Due::Register)),
            (b"--rule", Flag::Wants(Due::Rule)),
            (b"--cap", Flag::Wants(Due::Cap)),
            (b"--help", Flag::Help),
        ],
        OptionFault::UnknownOption,
    )
}

// An asset and its cap, as in 4=1000.
fn cap_of(word: &[u8]) -> Result<(u8, u64), OptionFault>
    ensures { result ≡ cap_of word.now }
{
    let (asset, amount) = cut_at(word, b'=').ok_or(OptionFault::BadCap)?;
    let asset = number(asset, 11).map_err(|_| OptionFault::BadCap)?;
    let amount = number(amount, u64::MAX).map_err(|_| OptionFault::BadCap)?;
    Ok((asset as u8, amount))
}

impl Options {
    // A table register, the corporate rule, and every cap at the most.
    pub fn none() -> Options
        ensures { result ≡ no_options_lem }
    {
        Options {
            register: RegisterKind::Table,
            rule: RuleKind::Corporate,
            caps: [MOST; 12],
            help: false,
            due: None,
        }
    }

    // The options with one word more of the command line.
    // Kept as it is: the new form is no plainer. `env::args` hands out its words one by one, which this step takes in a `try_fold`; a reader
    // of slices would need them all held first.
    pub fn with_word(mut self, word: &[u8]) -> Result<Options, OptionFault>
        ensures { result ≡ with_word_lem self word.now }
    {
        match self.due.take() {
            None => match flag_of(word)? {
                Flag::Wants(due) => self.due = Some(due),
                Flag::Help => self.help = true,
            },
            Some(Due::Register) => self.register = RegisterKind::try_from(word)?,
            Some(Due::Rule) => self.rule = RuleKind::try_from(word)?,
            Some(Due::Cap) => {
                let (asset, amount) = cap_of(word)?;
                self.caps[asset as usize] = amount;
            }
        }
        Ok(self)
    }

    // The options at the end of the command line.
    pub fn complete(self) -> Result<Options, OptionFault>
        ensures { result ≡ complete self }
    {
        match self.due {
            None => Ok(self),
            Some(_) => Err(OptionFault::ValueMissing),
        }
    }
}
