// What a bid that is taken, and one that is taken out, make of the desk.
ghost use Rattle.std.specs.Prelude.{◌≡◌, true, length};
ghost use Rattle.register.specs.Books.{Book};
ghost use Rattle.model.specs.Market.{ticker_known, other};
ghost use Rattle.model.specs.World.{queue_of};
ghost use Rattle.model.specs.Calls.{with_sheet};
ghost use Rattle.queues.specs.Sheets.{sheets_of, sheet_named, sheet_less};
ghost use Rattle.matching.specs.Enterings.{foreseen, Enters};
ghost use Rattle.floor.specs.Blocking.{Admitted};
ghost use Rattle.floor.specs.Desks.{world_of};

use super::Desk;
use matching::entering::{Outlook, enter};
use matching::newcomers::Newcomer;
use model::words::{Receipt, Standing, Trade};
use register::registers::Register;
use register::slips::Slip;
use rules::Side;

impl Desk {
    // A bid that is taken: it has its number, trades, and its rest stands or is released.
    pub(crate) fn admit<R: Register>(
        &mut self,
        register: &mut R,
        newcomer: &Newcomer,
        outlook: Outlook,
        slip: Slip,
        strip: &mut [Trade],
    ) -> Receipt
        requires known { ticker_known newcomer.now.bid.ticker ≡ true }
        requires enters { Enters self.old.session newcomer.now (foreseen outlook.trades newcomer.now (queue_of (sheets_of self.old.books newcomer.now.bid.ticker) (other newcomer.now.bid.side))) outlook (sheets_of self.old.books newcomer.now.bid.ticker) (R.Register.means register.old) slip (length strip.old) }
        ensures { Admitted newcomer.now outlook (R.Register.means register.old) self.old (R.Register.means register.new) self.new strip.old strip.new result }
    {
        let session = self.session;
        let books = &mut self.books[..];
        let book = &mut books[(newcomer.bid.ticker - 4) as usize];
        let count = enter(register, book, slip, strip, session, newcomer, outlook);
        self.given = newcomer.number;
        Receipt {
            number: newcomer.number,
            traded: newcomer.bid.lots - outlook.left,
            standing: newcomer.rest(outlook.left),
            count,
        }
    }

    // Takes the bid of this ticker, holder and number out of its queue, if it stands, and says on which side.
    pub(crate) fn take_named(
        &mut self,
        holder: u8,
        ticker: u8,
        number: u32,
    ) -> Option<(Side, Standing)>
        requires { ticker_known ticker ≡ true }
        ensures taken { result ≡ sheet_named holder number (sheets_of self.old.books ticker) }
        ensures left { (b : Book) → world_of b self.new ≡ record { book = b; session = self.old.session; listing = self.old.listing; given = self.old.given; sheets = with_sheet (sheets_of self.old.books) ticker (sheet_less holder number (sheets_of self.old.books ticker)) } }
    {
        let books = &mut self.books[..];
        books[(ticker - 4) as usize].take_named(holder, number)
    }
}
