// A track's graph by the numbers of the walk: the walk numbers the nodes, and marks, arcs and meetings go to columns by
// those numbers, arcs and meetings sorted.
#![tactic(auto)]

ghost use Rattle.std.specs.Prelude.{◌≡◌, ℕ, ◌+◌, ◌*◌, ◌≤◌, length, replicate};
ghost use Rattle.control.specs.words.Views.{pairs};
ghost use Rattle.links.specs.words.Columns.{at};
ghost use Rattle.pairing.specs.code.Renumbered.{renumbered, with_count, pairs_put};
ghost use Rattle.sorting.specs.code.Sorted.{sorted};
ghost use Rattle.numbering.specs.code.Numbered as of;
ghost use Rattle.rules.specs.Run.{arc_room};
ghost use Rattle.control.specs.words.Words.{reference_room, track_words};
ghost use Rattle.links.specs.code.Linked.{side_words};

use columns::Table;
use control::{MEETINGS_FROM, REFERENCES, TRACK_WORDS, Track};
use links::{Column, Graph, GraphCounts, SIDE_WORDS, SideWords, link};
use pairing::renumber;
use rules::{ARC_ROOM, MEETING_ROOM};
use sorting::sort;
use walks::walk;

// Numbers the graph of a track with so many arcs and meetings, whose references have these marks: it goes to `graph`. The other
// four are scratch, and all 0 afterwards. Columns are lent one by one, so that no caller has to own what is only read.
pub fn number(
    arcs: usize,
    meetings: usize,
    marks: &Column,
    track: &Track,
    table: &Table,
    graph: &mut Graph,
    sides: &mut SideWords,
    pending: &mut SideWords,
    numbers: &mut Column,
    spare: &mut Track,
) -> GraphCounts
    ensures graph_after { of.with_counts result graph.new.labels graph.new.track
        ≡ of.graph_numbered marks.now table.now.kinds table.now.after track.now
        arcs meetings }
    ensures sides_after { sides.new ≡ replicate side_words 0 }
    ensures pending_after { pending.new ≡ replicate side_words 0 }
    ensures numbers_after { numbers.new ≡ replicate reference_room 0 }
    ensures spare_after { spare.new ≡ replicate track_words 0 }
{
    link(arcs, marks, track, table, sides);
    let nodes = walk(marks, sides, numbers, &mut graph.labels, pending);
    graph.track = [0u16; TRACK_WORDS];
    *spare = [0u16; TRACK_WORDS];
    let arcs = number_pairs(
        nodes,
        0,
        arcs.min(ARC_ROOM),
        false,
        track,
        numbers,
        &mut graph.track,
        spare,
        pending,
    );
    let count = meetings.min(MEETING_ROOM);
    let meetings = number_pairs(
        nodes,
        MEETINGS_FROM,
        count,
        true,
        track,
        numbers,
        &mut graph.track,
        spare,
        pending,
    );
    *sides = [0u16; SIDE_WORDS];
    *numbers = [0u16; REFERENCES];
    *spare = [0u16; TRACK_WORDS];
    GraphCounts {
        nodes,
        arcs,
        meetings,
    }
}

// Puts the numbers of so many pairs of a track, from a word on, to the same words of another, sorted; the lower one first
// where either order will do. Tells how many there are. The last two are scratch, and `starts` is all 0 afterwards.
fn number_pairs(
    nodes: usize,
    base: usize,
    count: usize,
    either: bool,
    track: &Track,
    numbers: &Column,
    graph: &mut Track,
    spare: &mut Track,
    starts: &mut SideWords,
) -> usize
    requires nodes_le_reference_room { (nodes ≤ reference_room) × (count ≤ arc_room) × (base + 2 * count ≤ track_words) }
    requires graph_len { (length graph.old ≡ track_words) × (length spare.old ≡ track_words) }
    requires by_index { (n : ℕ) → at numbers.now n ≤ nodes }
    ensures graph_after { with_count result graph.new ≡ pairs_put graph.old base (sorted nodes
        (renumbered either numbers.now (pairs base track.now 0 count))) }
    ensures spare_len { length spare.new ≡ track_words }
    ensures starts_after { starts.new ≡ replicate side_words 0 }
{
    let kept = renumber(base, count, either, track, numbers, graph);
    sort(nodes, base, kept, graph, spare, starts);
    kept
}
