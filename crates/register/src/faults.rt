ghost use Rattle.std.specs.Prelude.{◌≡◌, Some};
ghost use Rattle.register.specs.Faults.{cause_number, cause_text, fault_text};

use std::error::Error;
use std::fmt;

// One account as it is read: what is free, what is blocked, and the cap on what may be blocked.
#[derive(Clone, Copy, PartialEq, Eq, Debug)]
pub struct Account {
    pub free: u64,
    pub blocked: u64,
    pub limit: u64,
}

// Why a register refuses, with the number by which a terminal knows the refusal.
#[derive(Clone, Copy, PartialEq, Eq, Debug)]
pub enum RegisterCause {
    NoAccount = 31,
    BadAmount = 32,
    OverTotal = 33,
    TooLittleFree = 34,
    OverCap = 35,
    TooLittleBlocked = 36,
}

impl RegisterCause {
    // Kept, here and for the refusals of the rules and the floor: a trait for the three would say no more than the cast.
    pub fn number(self) -> u8
        ensures { result ≡ cause_number self }
    {
        self as u8
    }
}

impl fmt::Display for RegisterCause {
    ghost output = { λ cause. Some (cause_text cause) };

    fn fmt<W: fmt::Write>(&self, f: &mut fmt::Formatter<W>) -> fmt::Result {
        f.write_str(match self {
            RegisterCause::NoAccount => "no such holder or asset",
            RegisterCause::BadAmount => "the amount is 0 or more than 10000000000000000",
            RegisterCause::OverTotal =>
                "all holders together would have more than 10000000000000000",
            RegisterCause::TooLittleFree => "less than that is free",
            RegisterCause::OverCap => "more than the cap would be blocked",
            RegisterCause::TooLittleBlocked => "less than that is blocked",
        })
    }
}

// A refusal with its place. The tag names the cap layer that refuses; every other refusal has 0. Kept as a number: a refusal is told with
// it, and with an Option a layer of tag 0 would be told as none is.
#[derive(Clone, Copy, PartialEq, Eq, Debug)]
pub struct RegisterFault {
    pub cause: RegisterCause,
    pub holder: u8,
    pub asset: u8,
    pub tag: u32,
}

impl RegisterFault {
    // A refusal that is no cap layer's own.
    pub fn untagged(cause: RegisterCause, holder: u8, asset: u8) -> RegisterFault
        ensures { result ≡ record { cause = cause; holder = holder; asset = asset; tag = 0 } }
    {
        RegisterFault {
            cause,
            holder,
            asset,
            tag: 0,
        }
    }
}

impl fmt::Display for RegisterFault {
    ghost output = { λ fault. Some (fault_text fault) };

    fn fmt<W: fmt::Write>(&self, f: &mut fmt::Formatter<W>) -> fmt::Result {
        let RegisterFault {
            cause,
            holder,
            asset,
            tag,
        } = self;
        write!(f, "register {holder} {asset} {tag}: {cause}")
    }
}

impl Error for RegisterFault {}
