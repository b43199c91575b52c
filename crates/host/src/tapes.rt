// The records that the program lends for the trades of a call.
ghost use Rattle.std.specs.Prelude.{◌≡◌, length};

use model::words::Trade;

// The most trades that one call can make.
const TAPE: usize = 1024;

// It is long enough for every call.
#[derive(Drop)]
pub(crate) struct Tape {
    pub(crate) records: [Trade; TAPE],
    ghost long: { length records ≡ 1024 },
}

impl Tape {
    pub(crate) fn new() -> Tape {
        Tape {
            records: [Trade::default(); TAPE],
        }
    }
}
