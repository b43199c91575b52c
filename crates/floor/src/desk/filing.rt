ghost use Rattle.std.specs.Prelude.{◌≡◌, ℕ, ◌<◌, ◌==◌, true};
ghost use Rattle.register.specs.Books.{Book, sum_to};
ghost use Rattle.model.specs.Words.{all_of};
ghost use Rattle.model.specs.Checks.{nothing_blocked};
ghost use Rattle.model.specs.World.{made};
ghost use Rattle.model.specs.Market.{ticker_known};
ghost use Rattle.model.specs.Calls.{new_day, with_sheet};
ghost use Rattle.queues.specs.Sheets.{sheet_of, sheets_of};
ghost use Rattle.floor.specs.Desks.{world_of, valid_quote};

use super::Desk;
use model::words::{Listing, Quote, Session};
use queues::books::TickerBook;
use register::registers::Register;
use rules::MOST_PRICE;
use std::array;

impl Desk {
    // The desk of a floor that is made: closed, with no day behind it.
    pub fn closed() -> Desk
        ensures { (book : Book) → world_of book result ≡ made book }
    {
        Desk {
            session: Session::Closed,
            listing: Listing {
                quotes: [Quote::default(); 8],
            },
            given: 0,
            books: array::from_fn(|_| TickerBook::blank()),
        }
    }

    // Puts another book in its place; nothing else changes.
    pub(crate) fn set_book(&mut self, ticker: u8, book: TickerBook)
        requires { ticker_known ticker ≡ true }
        ensures sheets { sheets_of self.new.books ≡ with_sheet (sheets_of self.old.books) ticker (sheet_of book) }
        ensures session { self.new.session ≡ self.old.session }
        ensures listing { self.new.listing ≡ self.old.listing }
        ensures given { self.new.given ≡ self.old.given }
    {
        self.books[(ticker - 4) as usize] = book;
    }
}

// Whether each line has a currency and, where it has one, a settlement price within the limits.
pub fn are_valid(quotes: &[Quote]) -> bool
    ensures { result ≡ all_of valid_quote quotes.now }
{
    quotes.iter().all(is_valid)
}

fn is_valid(quote: &Quote) -> bool
    ensures { result ≡ valid_quote quote.now }
{
    quote.currency <= 3 && u64::from(quote.settlement) <= MOST_PRICE
}

// What a holder has blocked of an asset.
fn blocked<R: Register>(register: &R, holder: u8, asset: u8) -> u64
    requires { (holder < 16) × (asset < 12) }
    ensures { result ≡ (R.Register.means register.now).blocked holder asset }
{
    match register.read(holder, asset) {
        Ok(account) => account.blocked,
        Err(_) => unreachable(),
    }
}

// Whether a holder has nothing blocked.
fn is_free<R: Register>(register: &R, holder: u8) -> bool
    requires { holder < 16 }
    ensures { result ≡ (sum_to 12 (λ a. (R.Register.means register.now).blocked holder a) == 0) }
{
    (0..12).all(|asset| blocked(register, holder, asset) == 0)
}

// Whether nothing is blocked at a register.
pub fn is_quiet<R: Register>(register: &R) -> bool
    ensures { result ≡ nothing_blocked (R.Register.means register.now) }
{
    (0..16).all(|holder| is_free(register, holder))
}

// A new day for every ticker: no trade counts yet.
pub fn start_books(books: &mut [TickerBook])
    ensures { sheets_of books.new ≡ (λ (t : ℕ). new_day (sheets_of books.old t)) }
{
    for book in books.iter_mut() {
        book.start_day();
    }
}
