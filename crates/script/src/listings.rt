// The words behind `start`: a listing.
ghost use Rattle.std.specs.Prelude.{◌≡◌};
ghost use Rattle.script.specs.Reading.{Reads};
ghost use Rattle.script.specs.Listings.{quote_of, take_quotes_lem, start_of};

use crate::reading::{LineFault, Word};
use crate::words::{Words, cut_at};
use model::calls::Call;
use model::words::{Listing, Quote};

// A currency and a settlement price, as in 1:5000.
impl Word for Quote {
    ghost reads = { quote_of };

    fn read(word: &[u8]) -> Result<Quote, LineFault> {
        let (currency, settlement) = cut_at(word, b':').ok_or(LineFault::NoQuote)?;
        Ok(Quote {
            currency: u8::read(currency)?,
            settlement: u32::read(settlement)?,
        })
    }
}

fn take_quotes(words: &mut Words) -> Result<[Quote; 8], LineFault>
    ensures { Reads (take_quotes_lem 8) words.old result words.new }
{
    let mut quotes = [Quote::default(); 8];
    for quote in quotes.iter_mut() {
        *quote = words.take()?;
    }
    Ok(quotes)
}

pub(crate) fn start_call(words: &mut Words) -> Result<Call, LineFault>
    ensures { result ≡ start_of words.old }
{
    let quotes = take_quotes(words)?;
    words.end()?;
    Ok(Call::Start {
        listing: Listing { quotes },
    })
}
