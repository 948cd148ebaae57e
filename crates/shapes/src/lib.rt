// All the reader's rules, tested on a graph in columns. It relies on the rules that are tested item by item, on arcs linked to
// their sides, and on the numbering walk.
#![tactic(auto)]

ghost use Rattle.std.specs.Prelude.{◌≡◌, replicate};
ghost use Rattle.shapes.specs.code.Rules as of;
ghost use Rattle.control.specs.words.Words.{reference_room};
ghost use Rattle.links.specs.code.Linked.{side_words};

use columns::Table;
use control::{MEETINGS_FROM, REFERENCES, Track};
use links::{Column, GraphCounts, SIDE_WORDS, SideWords, link};
use rules::{ARC_ROOM, MEETING_ROOM};
use shape_rules::{all_marked, ascend, in_order, join_events};
use walks::walk;

// Whether a graph has the shape of a saved track: all rules are tested, whichever is broken. The last four are scratch, and
// all 0 afterwards. Columns are lent one by one, so that no caller has to own the graph, which is only read.
pub fn has_shape(
    counts: GraphCounts,
    labels: &Column,
    graph: &Track,
    table: &Table,
    sides: &mut SideWords,
    pending: &mut SideWords,
    numbers: &mut Column,
    walked: &mut Column,
) -> bool
    ensures value { result ≡ of.has_shape table.now.kinds table.now.payloads table.now.after
        labels.now graph.now counts.nodes counts.arcs counts.meetings }
    ensures sides_after { sides.new ≡ replicate side_words 0 }
    ensures pending_after { pending.new ≡ replicate side_words 0 }
    ensures numbers_after { numbers.new ≡ replicate reference_room 0 }
    ensures walked_after { walked.new ≡ replicate reference_room 0 }
{
    let GraphCounts {
        nodes,
        arcs,
        meetings,
    } = counts;
    let fits = link(arcs, labels, graph, table, sides);
    let reached = walk(labels, sides, numbers, walked, pending);
    let ordered = in_order(nodes, numbers);
    *sides = [0u16; SIDE_WORDS];
    *numbers = [0u16; REFERENCES];
    *walked = [0u16; REFERENCES];
    let count = meetings.min(MEETING_ROOM);
    all_marked(nodes, labels)
        & ascend(0, arcs.min(ARC_ROOM), graph)
        & fits
        & (reached == nodes)
        & ordered
        & ascend(MEETINGS_FROM, count, graph)
        & join_events(count, labels, graph, &table.payloads)
}
