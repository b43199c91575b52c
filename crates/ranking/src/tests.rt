ghost use Rattle.std.specs.Prelude.{nat_lt};
ghost use Rattle.std.proofs.Common.{rules};

use super::{Ranking, find, insert, place, remove};

#[derive(Clone, Copy)]
struct Ticket {
    rank: u8,
    number: u8,
}

struct Ranks;

// Lower ranks first, whatever the numbers: tickets of one rank tie.
impl Ranking for Ranks {
    type Entry = Ticket;

    ghost before = { λ a b. nat_lt a.rank b.rank };

    ghost irreflexive = { Prim.search rules };

    ghost transitive = { Prim.search rules };

    ghost negative = { Prim.search rules };

    fn is_before(a: &Ticket, b: &Ticket) -> bool {
        a.rank < b.rank
    }
}

fn numbered(rank: u8, number: u8) -> Ticket {
    Ticket { rank, number }
}

fn numbers(slots: &[Ticket; 6]) -> [u8; 6] {
    [
        slots[0].number,
        slots[1].number,
        slots[2].number,
        slots[3].number,
        slots[4].number,
        slots[5].number,
    ]
}

// Tickets of one rank stand in the order in which they came, and the spare slot stays.
#[test]
fn insertion_goes_behind_ties(rt: HostRuntime) {
    let mut slots = [numbered(0, 9); 6];
    assert_eq!(rt; insert::<Ranks>(&mut slots, 0, numbered(2, 1)), 0);
    assert_eq!(rt; insert::<Ranks>(&mut slots, 1, numbered(1, 2)), 0);
    assert_eq!(rt; insert::<Ranks>(&mut slots, 2, numbered(2, 3)), 2);
    assert_eq!(rt; insert::<Ranks>(&mut slots, 3, numbered(3, 4)), 3);
    assert_eq!(rt; insert::<Ranks>(&mut slots, 4, numbered(1, 5)), 1);
    assert_eq!(rt; numbers(&slots), [2, 5, 1, 3, 4, 9]);
}

// The last slot of the list keeps its ticket, and is spare from then on.
#[test]
fn removal_closes_the_gap(rt: HostRuntime) {
    let mut slots = [
        numbered(1, 2),
        numbered(1, 5),
        numbered(2, 1),
        numbered(2, 3),
        numbered(3, 4),
        numbered(0, 9),
    ];
    assert_eq!(rt; remove::<Ranks>(&mut slots, 5, 1).number, 5);
    assert_eq!(rt; numbers(&slots), [2, 1, 3, 4, 4, 9]);
    assert_eq!(rt; remove::<Ranks>(&mut slots, 4, 3).number, 4);
    assert_eq!(rt; numbers(&slots), [2, 1, 3, 4, 4, 9]);
    assert_eq!(rt; remove::<Ranks>(&mut slots, 3, 0).number, 2);
    assert_eq!(rt; numbers(&slots), [1, 3, 3, 4, 4, 9]);
}

#[test]
fn places_and_ties(rt: HostRuntime) {
    let slots = [
        numbered(1, 2),
        numbered(1, 5),
        numbered(2, 1),
        numbered(4, 3),
    ];
    assert_eq!(rt; place::<Ranks>(&slots, &numbered(0, 0)), 0);
    assert_eq!(rt; place::<Ranks>(&slots, &numbered(1, 0)), 2);
    assert_eq!(rt; place::<Ranks>(&slots, &numbered(3, 0)), 3);
    assert_eq!(rt; place::<Ranks>(&slots, &numbered(4, 0)), 4);
    assert_eq!(rt; place::<Ranks>(&[], &numbered(4, 0)), 0);
    assert_eq!(rt; find::<Ranks>(&slots, &numbered(1, 0)), Some(0));
    assert_eq!(rt; find::<Ranks>(&slots, &numbered(4, 0)), Some(3));
    assert_eq!(rt; find::<Ranks>(&slots, &numbered(3, 0)), None);
}
