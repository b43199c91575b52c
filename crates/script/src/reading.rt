// Reading a line from the left, word by word.
ghost use Rattle.std.specs.Prelude.{◌≡◌, ℕ, List, Some, Ok, Err, Result};
ghost use Rattle.script.specs.Reading.{is_number, number_of, most8, most32, most64, Reads, taken, take_account_lem, ended, last_or};
ghost use Rattle.script.specs.Faults.{line_text};
ghost use Rattle.script.specs.declared.reading.LineFault.{LineFault};

use crate::words::Words;
use std::error::Error;
use std::fmt;

// Why a line is no call. From `NoSession` on: another word stands where one of a few, or a quote, is due.
#[derive(Clone, Copy, PartialEq, Eq, Debug)]
pub enum LineFault {
    UnknownCall,
    TooFewWords,
    TooManyWords,
    NotANumber,
    TooLarge,
    NoSession,
    NoSide,
    NoFill,
    NoRest,
    NoQuote,
}

impl fmt::Display for LineFault {
    ghost output = { λ fault. Some (line_text fault) };

    fn fmt<W: fmt::Write>(&self, f: &mut fmt::Formatter<W>) -> fmt::Result {
        f.write_str(match self {
            LineFault::UnknownCall => "no such call",
            LineFault::TooFewWords => "too few words",
            LineFault::TooManyWords => "too many words",
            LineFault::NotANumber => "a number is due",
            LineFault::TooLarge => "a number is too large",
            LineFault::NoSession => "pre, trading or post is due",
            LineFault::NoSide => "buy or sell is due",
            LineFault::NoFill => "partial or entire is due",
            LineFault::NoRest => "keep or withdraw is due",
            LineFault::NoQuote => "CURRENCY:PRICE is due",
        })
    }
}

impl Error for LineFault {}

// What one word of a line can write. `reads` says which value each word writes, or what is wrong with it. Kept in place of `TryFrom`: a
// side, a session and an Option are types of other crates, for which this one can't implement a trait of the library.
pub(crate) trait Word: Sized {
    ghost reads: { List ℕ → Result Self LineFault };

    fn read(word: &[u8]) -> Result<Self, LineFault>
        ensures { result ≡ reads word.now };
}

fn is_number(word: &[u8]) -> bool
    ensures { result ≡ is_number word.now }
{
    !word.is_empty() && word.iter().all(|byte| byte.is_ascii_digit())
}

// The number that a word writes in decimal, if it is one and no larger than `most`.
pub fn number(word: &[u8], most: u64) -> Result<u64, LineFault>
    ensures { result ≡ number_of most word.now }
{
    if !is_number(word) {
        return Err(LineFault::NotANumber);
    }
    let mut total = 0u64;
    for byte in word {
        let next = 10 * u128::from(total) + u128::from(byte.saturating_sub(b'0'));
        if next > u128::from(most) {
            return Err(LineFault::TooLarge);
        }
        total = next as u64;
    }
    Ok(total)
}

// Kept as it is: the new form is no plainer. One reading for all three would need a trait that states the limit and the cast for each.
impl Word for u8 {
    ghost reads = { number_of most8 };

    fn read(word: &[u8]) -> Result<u8, LineFault> {
        Ok(number(word, u64::from(u8::MAX))? as u8)
    }
}

impl Word for u32 {
    ghost reads = { number_of most32 };

    fn read(word: &[u8]) -> Result<u32, LineFault> {
        Ok(number(word, u64::from(u32::MAX))? as u32)
    }
}

impl Word for u64 {
    ghost reads = { number_of most64 };

    fn read(word: &[u8]) -> Result<u64, LineFault> {
        number(word, u64::MAX)
    }
}

impl<'a> Words<'a> {
    // What the next word writes.
    pub(crate) fn take<W: Word>(&mut self) -> Result<W, LineFault>
        ensures { Reads (taken W.Word.reads) self.old result self.new }
    {
        let word = self.next_word().ok_or(LineFault::TooFewWords)?;
        W::read(word)
    }

    // A holder, and an asset or a ticker.
    pub(crate) fn take_account(&mut self) -> Result<(u8, u8), LineFault>
        ensures { Reads take_account_lem self.old result self.new }
    {
        let holder = self.take()?;
        let asset = self.take()?;
        Ok((holder, asset))
    }

    // Nothing may follow.
    pub(crate) fn end(&mut self) -> Result<(), LineFault>
        ensures { result ≡ ended self.old }
    {
        match self.next_word() {
            None => Ok(()),
            Some(_) => Err(LineFault::TooManyWords),
        }
    }

    // The last number of a line, which may be left out.
    pub(crate) fn last_or(&mut self, number: usize) -> Result<usize, LineFault>
        ensures { result ≡ last_or number self.old }
    {
        let Some(word) = self.next_word() else {
            return Ok(number);
        };
        let number = u64::read(word)?;
        self.end()?;
        Ok(number as usize)
    }
}
