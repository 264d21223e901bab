//! Accesses to one cell, each row by hand: the first race, and the kept access that shows it. The
//! dag has the columns 0, 1 and 2 with three, three and two instances. Besides the edges down each
//! column and between the heads, an edge leads from (0, 1) to (1, 1) and from there to (2, 1).

ghost use Rattle.std.specs.Prelude.{◌≡◌};
ghost use Rattle.access_history.specs.KeptInstances.{KeptAreIn, nothing_kept};
ghost use Rattle.pipe_model.specs.Orders.GrowingLists.{AreIn};

use crate::listed_orders::ListedOrders;
use access_history::history::{Found, History, MarkedNode, Verdict};
use pipe_model::access::AccessKind;
use pipe_model::access::AccessKind::{Read, Write};
use pipe_model::marks::{Marks, Placeholder};
use pipe_model::node::NodeId;

// The instances, by iteration and index. Each has the element of its number in both lists.
const INSTANCES: [(u32, u32); 8] = [
    (0, 0),
    (0, 1),
    (0, 2),
    (1, 0),
    (1, 1),
    (1, 2),
    (2, 0),
    (2, 1),
];

// Column after column.
const DOWN_FIRST: [u32; 8] = [0, 1, 2, 3, 4, 5, 6, 7];

// The heads, then the instances 1, then the others from right to left.
const RIGHT_FIRST: [u32; 8] = [0, 3, 6, 1, 4, 7, 5, 2];

// For each instance the last index of the column to its left that precedes it; 0 in column 0.
const JOINED: [u32; 8] = [0, 0, 0, 0, 1, 1, 0, 1];

// Accesses by the number of the instance.
type Accesses = &'static [(u32, AccessKind)];

// The number of the access that races, and the earlier access.
type Race = (usize, u32, AccessKind);

const RACES: [(Accesses, Race); 10] = [
    // With the last writer.
    (&[(1, Write), (3, Read)], (1, 1, Write)),
    (&[(2, Write), (4, Write)], (1, 2, Write)),
    (&[(0, Write), (2, Write), (3, Read)], (2, 2, Write)),
    // The writer comes before the readers.
    (&[(3, Write), (6, Read), (1, Write)], (2, 3, Write)),
    // The first race is kept.
    (
        &[(1, Write), (3, Read), (2, Write), (6, Read)],
        (1, 1, Write),
    ),
    // With the rightmost reader.
    (&[(1, Read), (3, Read), (2, Write)], (2, 3, Read)),
    (&[(1, Write), (4, Read), (2, Write)], (2, 4, Read)),
    // The rightmost reader comes before the downmost one.
    (&[(4, Read), (6, Read), (2, Write)], (2, 6, Read)),
    // With the downmost reader.
    (&[(1, Read), (3, Read), (6, Write)], (2, 1, Read)),
    (&[(3, Read), (1, Read), (6, Write)], (2, 1, Read)),
];

const NO_RACES: [Accesses; 10] = [
    &[],
    &[(1, Read), (3, Read), (2, Read), (6, Read)],
    &[(0, Write), (1, Read), (3, Read)],
    &[(1, Write), (1, Read), (1, Write)],
    &[(0, Write), (1, Write), (4, Write), (7, Write)],
    &[(1, Read), (3, Read), (4, Write)],
    &[(0, Read), (3, Read), (6, Read), (7, Write)],
    &[(1, Read), (4, Read), (7, Write), (7, Read)],
    &[(0, Write), (3, Read), (1, Read), (4, Write), (5, Read)],
    &[(0, Read), (0, Write), (2, Read), (2, Write)],
];

fn name(number: u32) -> NodeId {
    let (iteration, index) = match INSTANCES.get(number as usize) {
        Some(x) => *x,
        None => (0, 0),
    };
    NodeId { iteration, index }
}

fn who(number: u32) -> MarkedNode {
    let unused = Placeholder {
        down_first: 0,
        right_first: 0,
    };
    MarkedNode {
        node: name(number),
        marks: Marks {
            down_first: number,
            right_first: number,
            down: unused,
            right: unused,
        },
    }
}

// The first access that races, by its number, with the earlier access.
type First = (usize, NodeId, AccessKind);

// Notes an access, with the joined index if it is known. Returns the earlier access, if it races.
fn note(
    history: &mut History,
    orders: &mut ListedOrders<'_>,
    new: MarkedNode,
    kind: AccessKind,
    joined: Option<Option<u32>>,
) -> Option<(NodeId, AccessKind)>
    requires kept { KeptAreIn orders.old.down.now orders.old.right.now history.old }
    requires new { AreIn orders.old.down.now orders.old.right.now new.marks }
    ensures kept { KeptAreIn orders.new.down.now orders.new.right.now history.new }
{
    let verdict = match joined {
        Some(joined) => history.note_joined(new, joined, kind, orders),
        None => history.note(new, kind, orders),
    };
    match verdict {
        Verdict::Race(x, earlier) => Some((x, earlier)),
        Verdict::Clean => None,
    }
}

// Notes the accesses, with the joined indices if they are known. Returns the first access that races, if
// there is one; nothing at all if an instance is in no list.
fn noted(history: &mut History, accesses: Accesses, known: bool) -> Option<Option<First>>
    requires { history.old ≡ nothing_kept }
{
    let mut orders = ListedOrders {
        down: &DOWN_FIRST,
        right: &RIGHT_FIRST,
    };
    let mut first = None;
    for (n, (number, kind)) in accesses.iter().enumerate() {
        let new = who(*number);
        if !orders.has(&new.marks) {
            return None;
        }
        let joined = if known {
            Some(JOINED.get(*number as usize).copied())
        } else {
            None
        };
        if let (None, Some((x, earlier))) = (
            first,
            note(history, &mut orders, new, *kind, joined),
        ) {
            first = Some((n, x, earlier));
        }
    }
    Some(first)
}

// The report of a race among the accesses.
fn report_of(accesses: Accesses, race: Race) -> Option<Found> {
    let (racing, number, earlier_kind) = race;
    let (later, later_kind) = accesses.get(racing)?;
    Some(Found {
        earlier: name(number),
        earlier_kind,
        later: name(*later),
        later_kind: *later_kind,
    })
}

// Whether the first race of the accesses is this, or there is none, and the history reports it.
fn has_first_race(accesses: Accesses, known: bool, race: Option<Race>) -> bool {
    let mut history = History::new();
    let first = noted(&mut history, accesses, known);
    match race {
        Some((racing, number, kind)) => {
            let report = report_of(accesses, (racing, number, kind));
            first == Some(Some((racing, name(number), kind)))
                && report.is_some()
                && history.report == report
        }
        None => first == Some(None) && history.report.is_none(),
    }
}

// Whether this is so with and without the joined indices.
fn has_first_race_twice(accesses: Accesses, race: Option<Race>) -> bool {
    has_first_race(accesses, false, race) && has_first_race(accesses, true, race)
}

// The first row of `RACES` with another first race.
fn first_other_race() -> Option<usize> {
    for (k, (accesses, race)) in RACES.iter().enumerate() {
        if !has_first_race_twice(accesses, Some(*race)) {
            return Some(k);
        }
    }
    None
}

// The first row of `NO_RACES` with a race.
fn first_race_of_none() -> Option<usize> {
    for (k, accesses) in NO_RACES.iter().enumerate() {
        if !has_first_race_twice(accesses, None) {
            return Some(k);
        }
    }
    None
}

#[test]
fn first_races_are_found(rt: HostRuntime) {
    let other = first_other_race();
    assert!(rt; other.is_none(), "{other:?}");
}

#[test]
fn ordered_accesses_do_not_race(rt: HostRuntime) {
    let other = first_race_of_none();
    assert!(rt; other.is_none(), "{other:?}");
}
