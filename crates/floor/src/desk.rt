// What a floor keeps beside its register and its rule.
ghost use Rattle.std.specs.Prelude.{◌≡◌, length};

use model::words::{Listing, Session};
use queues::books::TickerBook;

mod admitting;
pub(crate) mod asking;
pub(crate) mod filing;

// `given` counts the registration numbers of the day; the books are those of the tickers 4 to 11. Kept beside the listing, which has a
// line for each of the same tickers: it comes whole at the start of a day and is only read, and the books change with each bid.
#[derive(Clone, Copy)]
pub struct Desk {
    pub session: Session,
    pub listing: Listing,
    pub given: u32,
    pub books: [TickerBook; 8],
    ghost eight: { length books ≡ 8 },
}
