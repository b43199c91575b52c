// Bids, trades and listings. Side is the market rules' word.
ghost use Rattle.std.specs.Prelude.{Some};
ghost use Rattle.model.specs.Texts.{session_text, receipt_line, trade_line, standing_line};

use rules::Side;
use std::fmt;

// The hours of a floor.
#[derive(Clone, Copy, PartialEq, Eq, Debug)]
pub enum Session {
    Closed,
    PreTrading,
    Trading,
    PostTrading,
}

impl fmt::Display for Session {
    ghost output = { λ session. Some (session_text session) };

    fn fmt<W: fmt::Write>(&self, f: &mut fmt::Formatter<W>) -> fmt::Result {
        f.write_str(match self {
            Session::Closed => "closed",
            Session::PreTrading => "pre-trading",
            Session::Trading => "trading",
            Session::PostTrading => "post-trading",
        })
    }
}

// A bid as its holder states it. An entire bid is filled whole or not at all, any other is partial. A keep bid leaves its rest
// standing where the session allows it, any other has its rest withdrawn. Kept as flags: no value stands beside them, and each is asked
// for as it is.
#[derive(Clone, Copy, PartialEq, Eq, Debug)]
pub struct Bid {
    pub holder: u8,
    pub ticker: u8,
    pub side: Side,
    pub price: Option<u32>,
    pub lots: u32,
    pub entire: bool,
    pub keep: bool,
}

// A bid that stands in a queue, with the lots it has left. In post-trading its price is the average.
#[derive(Clone, Copy, PartialEq, Eq, Debug, Default)]
pub struct Standing {
    pub number: u32,
    pub holder: u8,
    pub price: u32,
    pub lots: u32,
}

impl fmt::Display for Standing {
    ghost output = { λ bid. Some (standing_line bid) };

    fn fmt<W: fmt::Write>(&self, f: &mut fmt::Formatter<W>) -> fmt::Result {
        let Standing {
            number,
            holder,
            price,
            lots,
        } = self;
        write!(f, "standing {number} {holder} {price} {lots}")
    }
}

// Who bought from whom, the registration numbers of the buy and of the sell, and at which price a lot.
#[derive(Clone, Copy, PartialEq, Eq, Debug, Default)]
pub struct Trade {
    pub ticker: u8,
    pub buyer: u8,
    pub seller: u8,
    pub buy: u32,
    pub sell: u32,
    pub price: u32,
    pub lots: u32,
}

impl fmt::Display for Trade {
    ghost output = { λ trade. Some (trade_line trade) };

    fn fmt<W: fmt::Write>(&self, f: &mut fmt::Formatter<W>) -> fmt::Result {
        let Trade {
            ticker,
            buyer,
            seller,
            buy,
            sell,
            price,
            lots,
        } = self;
        write!(
            f,
            "trade {ticker} {buyer} {seller} {buy} {sell} {price} {lots}"
        )
    }
}

// A ticker's line of the listing. A settlement price of 0 means that there is none. Kept as a number, as a line of the listing writes it:
// with an Option there would be a `Some(0)` to refuse.
#[derive(Clone, Copy, PartialEq, Eq, Debug, Default)]
pub struct Quote {
    pub currency: u8,
    pub settlement: u32,
}

// The lines of the tickers 4 to 11.
#[derive(Clone, Copy, PartialEq, Eq, Debug, Default)]
pub struct Listing {
    pub quotes: [Quote; 8],
}

// What an accepted bid is told: its number, the lots it traded, the lots that stand, and the count of its trades.
#[derive(Clone, Copy, PartialEq, Eq, Debug, Default)]
pub struct Receipt {
    pub number: u32,
    pub traded: u32,
    pub standing: u32,
    pub count: usize,
}

impl fmt::Display for Receipt {
    ghost output = { λ receipt. Some (receipt_line receipt) };

    fn fmt<W: fmt::Write>(&self, f: &mut fmt::Formatter<W>) -> fmt::Result {
        let Receipt {
            number,
            traded,
            standing,
            count,
        } = self;
        write!(f, "ok bid {number} {traded} {standing} {count}")
    }
}
