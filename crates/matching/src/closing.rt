// Standing bids are void: they leave their queues, and what they oblige to is released.
ghost use Rattle.std.specs.Prelude.{◌≡◌, ℕ, true, [], ◌++◌, map, length, Some};
ghost use Rattle.rules.specs.declared.bid.Side.TheVariants.{Buy, Sell};
ghost use Rattle.rules.specs.Bids.{obligation_of};
ghost use Rattle.model.specs.Movements.{Granted, moved_all};
ghost use Rattle.model.specs.Calls.{void_sheet};
ghost use Rattle.queues.specs.Entries.{entries};
ghost use Rattle.queues.specs.Sheets.{sheet_of, sheets_of};
ghost use Rattle.matching.specs.Closings.{freeing_by, sheet_freed, all_freed};

use crate::listings::asset_of;
use crate::settling::release;
use model::words::{Listing, Standing};
use queues::books::TickerBook;
use queues::queue::Queue;
use register::registers::Register;
use register::slips::Slip;
use rules::{Side, obligation};

// What a standing bid of this side obliges to comes back as a slip.
pub fn slip_of(bid: Standing, side: Side, asset: u8) -> Slip
    ensures { result ≡ record { holder = bid.holder; asset = asset; amount = obligation_of side (Some bid.price) bid.lots } }
{
    Slip::new(
        bid.holder,
        asset,
        obligation(side, Some(bid.price), bid.lots),
    )
}

fn void_queue<R: Register>(register: &mut R, queue: &mut Queue, side: Side, asset: u8)
    requires { Granted (map (freeing_by side asset) (entries queue.old)) (R.Register.means register.old) }
    ensures book { R.Register.means register.new ≡ moved_all (map (freeing_by side asset) (entries queue.old)) (R.Register.means register.old) }
    ensures queue { entries queue.new ≡ [] }
{
    while let Some(bid) = queue.pop() {
        release(register, slip_of(bid, side, asset));
    }
}

fn void_book<R: Register>(register: &mut R, book: &mut TickerBook, listing: &Listing, ticker: u8)
    requires { Granted (sheet_freed listing.now ticker (sheet_of book.old)) (R.Register.means register.old) }
    ensures book { R.Register.means register.new ≡ moved_all (sheet_freed listing.now ticker (sheet_of book.old)) (R.Register.means register.old) }
    ensures sheet { sheet_of book.new ≡ void_sheet (sheet_of book.old) }
{
    let money = asset_of(listing, ticker, Side::Buy);
    void_queue(register, &mut book.buys, Side::Buy, money);
    void_queue(register, &mut book.sells, Side::Sell, ticker);
}

// Every standing bid of every ticker is void. The books are those of the tickers 4 to 11.
pub fn void_books<R: Register>(register: &mut R, books: &mut [TickerBook], listing: &Listing)
    requires eight { length books.old ≡ 8 }
    requires granted { Granted (all_freed listing.now (sheets_of books.old)) (R.Register.means register.old) }
    ensures book { R.Register.means register.new ≡ moved_all (all_freed listing.now (sheets_of books.old)) (R.Register.means register.old) }
    ensures sheets { sheets_of books.new ≡ (λ (t : ℕ). void_sheet (sheets_of books.old t)) }
{
    for (i, book) in books.iter_mut().enumerate() {
        void_book(register, book, listing, 4 + i as u8);
    }
}
