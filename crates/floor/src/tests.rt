use crate::events::*;
use model::words::Session;

#[test]
fn sessions(rt: HostRuntime) {
    let table = [
        (Session::Closed, Event::Start, 0),
        (Session::Trading, Event::Start, 3),
        (Session::PreTrading, Event::Bid(Session::PreTrading), 0),
        (Session::Trading, Event::Bid(Session::PreTrading), 3),
        (Session::Closed, Event::Cancel(Session::Closed), 3),
        (Session::PostTrading, Event::EndTrading, 3),
    ];
    for (session, event, number) in table {
        let answer = match allowed(session, event) {
            Ok(_) => 0,
            Err(refusal) => refusal.number(),
        };
        assert_eq!(rt; answer, number);
    }
}
