// How an inner step's cause becomes a call's fault.
ghost use Rattle.std.specs.Prelude.{◌≡◌};
ghost use Rattle.floor.specs.Replies.{raised};

use model::faults::{CallKind, Cause, Fault};

// Adds which call it was and the ticker as it was given.
pub(crate) fn raise<T>(res: Result<T, Cause>, call: CallKind, ticker: u8) -> Result<T, Fault>
    ensures { result ≡ raised call ticker res }
{
    res.map_err(|cause| Fault {
        cause,
        call,
        ticker,
    })
}
