// Saved tracks read: a text's lines are read into columns, the reader's rules are tested on them, and an accepted graph is
// handed over. It relies on the parts of the line reading and on the test of a graph's shape.
#![tactic(auto)]

ghost use Rattle.std.specs.Prelude.{◌≡◌, replicate};
ghost use Rattle.graphs.specs.Parsed.{parsed};
ghost use Rattle.reading.specs.Answers.{read_told};
ghost use Rattle.reading.specs.code.Outcome as of;
ghost use Rattle.columns.specs.words.Held.{read_from};
ghost use Rattle.reading.specs.words.Kept.{Reads};
ghost use Rattle.control.specs.words.Words.{reference_room, track_words};
ghost use Rattle.links.specs.words.Cleared.{cleared, all_but};

use columns::Table;
use control::{MEETINGS_FROM, REFERENCES, TRACK_WORDS, Track};
use graphs::{ARC_FRAME, MEETING_FRAME};
use lines::{Refusal, RefusedAt};
use links::{Column, Graph, GraphCounts, SIDE_WORDS, Work};
use node_lines::read_nodes;
use opening::{TrackOpening, first_line, last_lines};
use pair_lines::read_pairs;
use shapes::has_shape;

// Reads a saved text against a table of so many definitions: its graph goes to `found`, and how many nodes, arcs and meetings it
// has is the answer; a refusal leaves `found` as it was. The work is scratch: its own track stays, and the rest is all 0 afterwards.
pub fn read_track(
    text: &[u8],
    definitions: usize,
    table: &Table,
    found: &mut Graph,
    work: &mut Work,
) -> Result<GraphCounts, RefusedAt>
    ensures graph_after { of.with_graph (read_told result) found.new.labels found.new.track
        ≡ of.track_read table.now.kinds table.now.payloads table.now.after table.now.roots
        definitions text.now found.old.labels found.old.track }
    ensures reads { Reads definitions (read_from table.now) text.now found.old.labels found.old.track
        (read_told result) found.new.labels found.new.track }
    ensures work_after { work.new ≡ cleared work.old.graph.track }
{
    let judged = judge(text, definitions, table, work);
    hand_over(judged, found, &mut work.marks, &mut work.spare);
    judged
}

// Hands an accepted graph over, and leaves the reader's own columns all 0.
fn hand_over(
    judged: Result<GraphCounts, RefusedAt>,
    found: &mut Graph,
    marks: &mut Column,
    track: &mut Track,
)
    ensures labels_after { found.new.labels ≡ of.handed (read_told judged) marks.old found.old.labels }
    ensures graph_after { found.new.track ≡ of.handed (read_told judged) track.old found.old.track }
    ensures marks_after { marks.new ≡ replicate reference_room 0 }
    ensures track_after { track.new ≡ replicate track_words 0 }
{
    if judged.is_ok() {
        found.labels = *marks;
        found.track = *track;
    }
    *marks = [0u16; REFERENCES];
    *track = [0u16; TRACK_WORDS];
}

// Judges a text: its lines first, which put the marks of its graph's nodes into the work's `marks`, and its arcs and meetings into
// `spare`; and then the graph's shape. The work's own track stays, and the rest is all 0 afterwards.
fn judge(
    text: &[u8],
    definitions: usize,
    table: &Table,
    work: &mut Work,
) -> Result<GraphCounts, RefusedAt>
    ensures held { of.Held table.now.kinds table.now.after table.now.roots
        (of.outcome table.now.kinds table.now.payloads table.now.after table.now.roots
        definitions text.now) (read_told result) work.new.marks work.new.spare }
    ensures work_after { work.new ≡ all_but work.new.marks work.new.spare work.old.graph.track }
{
    let read = read_lines(text, definitions, table, &mut work.marks, &mut work.spare);
    let Ok(counts) = read else {
        work.sides = [0u16; SIDE_WORDS];
        work.pending = [0u16; SIDE_WORDS];
        work.numbers = [0u16; REFERENCES];
        work.graph.labels = [0u16; REFERENCES];
        return read;
    };
    let fits = has_shape(
        counts,
        &work.marks,
        &work.spare,
        table,
        &mut work.sides,
        &mut work.pending,
        &mut work.numbers,
        &mut work.graph.labels,
    );
    if !fits {
        return Err(Refusal::ShapeBroken.at(0));
    }
    Ok(counts)
}

// Reads all lines: the marks and pairs that they say go to columns that are all 0 before, which are the work's own and no `Graph`.
fn read_lines(
    text: &[u8],
    definitions: usize,
    table: &Table,
    labels: &mut Column,
    graph: &mut Track,
) -> Result<GraphCounts, RefusedAt>
    ensures { of.Held table.now.kinds table.now.after table.now.roots
        (parsed definitions text.now) (read_told result) labels.new graph.new }
{
    *labels = [0u16; REFERENCES];
    *graph = [0u16; TRACK_WORDS];
    let first = first_line(text);
    let Ok(opening) = first else {
        return Err(first.unwrap_err().at(1));
    };
    let TrackOpening {
        nodes,
        arcs,
        meetings,
        next,
    } = opening;
    let behind_nodes = read_nodes(text, next, nodes, definitions, table, labels)?;
    let behind_arcs = read_pairs(
        ARC_FRAME,
        0,
        text,
        behind_nodes,
        nodes + 2,
        arcs,
        nodes,
        graph,
    )?;
    let line = nodes + arcs + 2;
    let behind_meetings = read_pairs(
        MEETING_FRAME,
        MEETINGS_FROM,
        text,
        behind_arcs,
        line,
        meetings,
        nodes,
        graph,
    )?;
    last_lines(text, behind_meetings, line + meetings)?;
    Ok(GraphCounts {
        nodes,
        arcs,
        meetings,
    })
}
