// The reader's rules that are tested item by item, on a graph in columns, each up to the first item that breaks it. It relies on
// the words of a track and on marks.
#![tactic(auto)]

ghost use Rattle.std.specs.Prelude.{◌≡◌, ◌+◌, ◌≤◌, eqb};
ghost use Rattle.control.specs.words.Views.{pairs, meetings_of};
ghost use Rattle.graphs.specs.Shape.{every, ascends, from_on};
ghost use Rattle.links.specs.words.Columns.{at};
ghost use Rattle.shape_rules.specs.code.Tests as of;
ghost use Rattle.rules.specs.Run.{arc_room, meeting_room};
ghost use Rattle.control.specs.words.Words.{meetings_from};

use columns::{Payloads, payload_of};
use control::{MEETINGS_FROM, Track, track_word};
use links::{Column, reference_word};
use marks::{is_event, term_of};

// Whether the walk has given each node the number that it has.
pub fn in_order(nodes: usize, numbers: &Column) -> bool
    ensures { result ≡ every (λ k. eqb (at numbers.now k) (k + 1)) (from_on 0 nodes) }
{
    (0..nodes).all(|k| reference_word(k, numbers) == k + 1)
}

// Whether each node has a mark.
pub fn all_marked(nodes: usize, labels: &Column) -> bool
    ensures { result ≡ of.all_marked labels.now nodes }
{
    (0..nodes).all(|k| reference_word(k, labels) != 0)
}

// Whether so many pairs, from a word on, ascend by their first number, then their second.
pub fn ascend(base: usize, count: usize, graph: &Track) -> bool
    requires { (base ≤ meetings_from) × (count ≤ arc_room) }
    ensures { result ≡ ascends (pairs base graph.now 0 count) }
{
    (1..count).all(|i| {
        let at = base + 2 * i;
        let before = (track_word(at - 2, graph), track_word(at - 1, graph));
        let pair = (track_word(at, graph), track_word(at + 1, graph));
        before < pair
    })
}

// Whether so many meetings join event nodes of one event, the lower number first. The graph is lent by column, since the one that a
// reader tests stands in the work's own.
pub fn join_events(meetings: usize, labels: &Column, graph: &Track, payloads: &Payloads) -> bool
    requires { meetings ≤ meeting_room }
    ensures { result ≡ of.meetings_fit payloads.now labels.now
        (meetings_of graph.now meetings) }
{
    (0..meetings).all(|i| {
        let at = MEETINGS_FROM + 2 * i;
        let first = track_word(at, graph);
        let second = track_word(at + 1, graph);
        let one = reference_word(first, labels);
        let other = reference_word(second, labels);
        first < second && of_one_event(one, other, payloads)
    })
}

// Whether two marks are of events, and of one.
fn of_one_event(first: usize, second: usize, payloads: &Payloads) -> bool
    ensures { result ≡ of.one_event payloads.now first second }
{
    is_event(first)
        && is_event(second)
        && payload_of(term_of(first), payloads) == payload_of(term_of(second), payloads)
}
