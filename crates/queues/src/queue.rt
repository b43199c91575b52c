// The standing bids of one ticker and side.
ghost use Rattle.std.specs.Prelude.{◌≡◌, ◌≤◌, length, Some};
ghost use Rattle.queues.specs.Texts.{full_text};

use model::words::Standing;
use std::error::Error;
use std::fmt;

mod serving;

// Served from the front; the first `len` places count, what stands behind them means nothing. Kept as a row of places with a length: the
// library's ArrayVec is not Copy, and a queue, a book and a desk are.
#[derive(Clone, Copy)]
pub struct Queue {
    bids: [Standing; 64],
    len: usize,
    ghost room: { length bids ≡ 64 },
    ghost within: { len ≤ 64 },
}

// Why a bid is not put into a queue: all 64 places are taken.
#[derive(Clone, Copy, PartialEq, Eq, Debug)]
pub struct QueueFull;

impl fmt::Display for QueueFull {
    ghost output = { λ full. Some full_text };

    fn fmt<W: fmt::Write>(&self, f: &mut fmt::Formatter<W>) -> fmt::Result {
        f.write_str("the queue is full")
    }
}

impl Error for QueueFull {}
