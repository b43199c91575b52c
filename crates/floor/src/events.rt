// What may run in which session.
ghost use Rattle.std.specs.Prelude.{◌≡◌};
ghost use Rattle.floor.specs.Events.{allowed_in, EventsAgree};

use crate::passes::Pass;
use model::faults::FloorRefusal;
use model::words::Session;

// What can befall a floor and asks for a session. Bids and cancellations have the session of the pass that is shown.
#[derive(Clone, Copy)]
pub enum Event {
    Start,
    Bid(Session),
    Cancel(Session),
    Open,
    EndTrading,
    EndPostTrading,
}

// A bid with a pass that its caller shows.
pub fn bid_event<P: Pass>(pass: &P) -> Event
    ensures { result ≡ Event.Bid P.Pass.serving }
{
    Event::Bid(pass.session())
}

// A cancellation with a pass that its caller shows.
pub fn cancel_event<P: Pass>(pass: &P) -> Event
    ensures { result ≡ Event.Cancel P.Pass.serving }
{
    Event::Cancel(pass.session())
}

// The session that follows where the event may run, the refusal where it may not. This is the one place that decides it.
pub fn allowed(session: Session, event: Event) -> Result<Session, FloorRefusal>
    ensures { result ≡ allowed_in session event }
{
    match (session, event) {
        (Session::Closed, Event::Start) => Ok(Session::PreTrading),
        (
            Session::PreTrading,
            Event::Bid(Session::PreTrading) | Event::Cancel(Session::PreTrading),
        ) => Ok(session),
        (Session::PreTrading, Event::Open) => Ok(Session::Trading),
        (Session::Trading, Event::Bid(Session::Trading) | Event::Cancel(Session::Trading)) => Ok(
            session,
        ),
        (Session::Trading, Event::EndTrading) => Ok(Session::PostTrading),
        (
            Session::PostTrading,
            Event::Bid(Session::PostTrading) | Event::Cancel(Session::PostTrading),
        ) => Ok(session),
        (Session::PostTrading, Event::EndPostTrading) => Ok(Session::Closed),
        _ => Err(FloorRefusal::WrongSession),
    }
}

// The events' table is that of the calls' definitions: the first check of each, and the session that it leads to.
pub fn events_agree()
    ensures { EventsAgree }
{}
