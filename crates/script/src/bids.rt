// The words behind `bid` and `cancel`.
ghost use Rattle.std.specs.Prelude.{◌≡◌};
ghost use Rattle.script.specs.Reading.{Reads};
ghost use Rattle.script.specs.Bids.{session_of, side_of, price_of_lem, fill_of, rest_of, take_place_lem, bid_of, cancel_of};

use crate::reading::{LineFault, Word};
use crate::words::{Words, one_of};
use model::calls::Call;
use model::words::{Bid, Session};
use rules::Side;

// The length of the strip that is lent for a bid, where the line states none.
const BID_ROOM: usize = 64;

// Whether a bid is filled whole or not at all.
#[derive(Clone, Copy, PartialEq, Eq)]
pub(crate) enum Fill {
    Partial,
    Entire,
}

// Whether a bid leaves its rest standing.
#[derive(Clone, Copy, PartialEq, Eq)]
pub(crate) enum Rest {
    Keep,
    Withdraw,
}

impl Word for Session {
    ghost reads = { session_of };

    fn read(word: &[u8]) -> Result<Session, LineFault> {
        one_of(
            word,
            &[
                (b"pre", Session::PreTrading),
                (b"trading", Session::Trading),
                (b"post", Session::PostTrading),
            ],
            LineFault::NoSession,
        )
    }
}

impl Word for Side {
    ghost reads = { side_of };

    fn read(word: &[u8]) -> Result<Side, LineFault> {
        one_of(
            word,
            &[(b"buy", Side::Buy), (b"sell", Side::Sell)],
            LineFault::NoSide,
        )
    }
}

// A price, or - for none.
impl Word for Option<u32> {
    ghost reads = { price_of_lem };

    #[tactic(auto, using(crate::proofs::Choices::same_is))]
    fn read(word: &[u8]) -> Result<Option<u32>, LineFault> {
        if word == b"-".as_slice() {
            return Ok(None);
        }
        Ok(Some(u32::read(word)?))
    }
}

impl Word for Fill {
    ghost reads = { fill_of };

    fn read(word: &[u8]) -> Result<Fill, LineFault> {
        one_of(
            word,
            &[(b"partial", Fill::Partial), (b"entire", Fill::Entire)],
            LineFault::NoFill,
        )
    }
}

impl Word for Rest {
    ghost reads = { rest_of };

    fn read(word: &[u8]) -> Result<Rest, LineFault> {
        one_of(
            word,
            &[(b"keep", Rest::Keep), (b"withdraw", Rest::Withdraw)],
            LineFault::NoRest,
        )
    }
}

// The session of the pass that is shown, the holder and the ticker.
fn take_place(words: &mut Words) -> Result<(Session, u8, u8), LineFault>
    ensures { Reads take_place_lem words.old result words.new }
{
    let session = words.take()?;
    let (holder, ticker) = words.take_account()?;
    Ok((session, holder, ticker))
}

pub(crate) fn bid_call(words: &mut Words) -> Result<Call, LineFault>
    ensures { result ≡ bid_of words.old }
{
    let (shown, holder, ticker) = take_place(words)?;
    let bid = Bid {
        holder,
        ticker,
        side: words.take()?,
        price: words.take()?,
        lots: words.take()?,
        entire: words.take::<Fill>()? == Fill::Entire,
        keep: words.take::<Rest>()? == Rest::Keep,
    };
    let room = words.last_or(BID_ROOM)?;
    Ok(Call::Place { shown, bid, room })
}

pub(crate) fn cancel_call(words: &mut Words) -> Result<Call, LineFault>
    ensures { result ≡ cancel_of words.old }
{
    let (shown, holder, ticker) = take_place(words)?;
    let number = words.take()?;
    words.end()?;
    Ok(Call::Cancel {
        shown,
        holder,
        ticker,
        number,
    })
}
