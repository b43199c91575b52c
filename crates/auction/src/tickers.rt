// The opening of a ticker, and of all tickers.
ghost use Rattle.std.specs.Prelude.{◌≡◌, ◌+◌, ◌≤◌, length};
ghost use Rattle.model.specs.Market.{opening_room};
ghost use Rattle.queues.specs.Sheets.{sheet_of, sheets_of};
ghost use Rattle.auction.specs.Openings.{opening_of, opening_at_price, opening_world, Openable, Made, ReadyToOpen, OpenedAll};

use crate::pairs::Auction;
use crate::prices::opening_price;
use matching::listings::asset_of;
use model::words::{Listing, Trade};
use queues::books::TickerBook;
use register::registers::Register;
use rules::Side;

impl Auction {
    // Trades as long as the best remaining buy and the best remaining sell both reach the price. The trades are written to the front of
    // the strip; answers how many there are. Kept as a strip and a count, here and for tickers together: no plainer as a struct, which each
    // caller would make of the strip that it is lent and take apart again.
    fn run<R: Register>(
        &self,
        register: &mut R,
        book: &mut TickerBook,
        strip: &mut [Trade],
    ) -> usize
        requires ready { Openable self.now.currency (sheet_of book.old) (opening_at_price self.now.ticker self.now.price (sheet_of book.old)) (R.Register.means register.old) }
        requires room { length (opening_at_price self.now.ticker self.now.price (sheet_of book.old)).deals ≤ length strip.old }
        ensures { Made self.now.currency (opening_at_price self.now.ticker self.now.price (sheet_of book.old)) (sheet_of book.old) (R.Register.means register.old) strip.old (sheet_of book.new) (R.Register.means register.new) strip.new result }
    {
        // Kept as a loop with a count: the queues say when it ends, and a loop over the strip would have an end that never comes.
        let mut count = 0;
        while let Some(trade) = self.next_trade(register, book) {
            strip[count] = trade;
            count += 1;
        }
        count
    }
}

// Opens a ticker: all its trades are at its opening price, and nothing trades where there is none. They are written to the front of the
// strip.
pub fn open_ticker<R: Register>(
    register: &mut R,
    book: &mut TickerBook,
    strip: &mut [Trade],
    ticker: u8,
    currency: u8,
) -> usize
    requires ready { Openable currency (sheet_of book.old) (opening_of ticker (sheet_of book.old)) (R.Register.means register.old) }
    requires room { length (opening_of ticker (sheet_of book.old)).deals ≤ length strip.old }
    ensures { Made currency (opening_of ticker (sheet_of book.old)) (sheet_of book.old) (R.Register.means register.old) strip.old (sheet_of book.new) (R.Register.means register.new) strip.new result }
{
    let Some(price) = opening_price(book.buys.bids(), book.sells.bids()) else {
        return 0;
    };
    let auction = Auction {
        ticker,
        currency,
        price,
    };
    auction.run(register, book, strip)
}

// Opens the tickers 4 to 11 in rising order. A ticker has at most 128 trades, so 1,024 records of the strip suffice.
pub fn open_books<R: Register>(
    register: &mut R,
    books: &mut [TickerBook],
    listing: &Listing,
    strip: &mut [Trade],
) -> usize
    requires eight { length books.old ≡ 8 }
    requires room { opening_room ≤ length strip.old }
    requires ready { ReadyToOpen (opening_world (R.Register.means register.old) listing.now (sheets_of books.old)) }
    ensures { OpenedAll (opening_world (R.Register.means register.old) listing.now (sheets_of books.old)) strip.old result strip.new (R.Register.means register.new) (sheets_of books.new) }
{
    let mut count = 0;
    for (i, book) in books.iter_mut().enumerate() {
        let ticker = 4 + i as u8;
        let currency = asset_of(listing, ticker, Side::Buy);
        count += open_ticker(register, book, &mut strip[count..], ticker, currency);
    }
    count
}
