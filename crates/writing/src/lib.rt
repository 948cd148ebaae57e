// Graphs written: a graph in columns becomes lines of hexadecimal in a lent slice. Its length is told first, so that a slice
// that is too short is left as it was.
#![tactic(auto)]

ghost use Rattle.std.specs.Prelude.{◌≡◌};
ghost use Rattle.columns.specs.words.Held.{placing};
ghost use Rattle.graphs.specs.Saved.{graph_text};
ghost use Rattle.framing.specs.words.Told.{graph_told};
ghost use Rattle.lines.specs.Refusal.{met};
ghost use Rattle.writing.specs.Answers.{saved_told};
ghost use Rattle.writing.specs.words.Slice.{with_slice, written, refusal};

use columns::Table;
use control::{MEETINGS_FROM, REFERENCES};
use framing::{nodes_length, put_last, put_nodes, put_opening, put_pairs};
use graphs::{ARC_FRAME, MEETING_FRAME};
use lines::Refusal;
use links::{Graph, GraphCounts};
use rules::{ARC_ROOM, MEETING_ROOM};

// Bytes of the first and the last line, and of an arc's or a meeting's.
const FRAME_LINES: usize = 20;

const PAIR_LINE: usize = 11;

// A slice that is too short for a text, refusal 12: the length that the text would have.
#[derive(Clone, Copy, PartialEq, Eq)]
pub struct TooShort {
    pub length: usize,
}

// Writes a graph with these counts, by the marks of its nodes; the answer is the text's length. A slice that is too short is left
// as it was, and bytes past the text keep their content.
pub fn write(
    counts: GraphCounts,
    graph: &Graph,
    table: &Table,
    text: &mut [u8],
) -> Result<usize, TooShort>
    ensures { with_slice (saved_told result) text.new ≡ written (graph_text (graph_told
        (placing table.now)
        graph.now.labels graph.now.track counts)) text.old }
{
    let n = counts.nodes.min(REFERENCES);
    let a = counts.arcs.min(ARC_ROOM);
    let s = counts.meetings.min(MEETING_ROOM);
    let size = nodes_length(n, &graph.labels, table) + PAIR_LINE * a + PAIR_LINE * s + FRAME_LINES;
    if text.len() < size {
        return Err(TooShort { length: size });
    }
    let behind_opening = put_opening(n, a, s, text);
    let behind_nodes = put_nodes(n, &graph.labels, table, behind_opening, text);
    let behind_arcs = put_pairs(ARC_FRAME, 0, a, &graph.track, behind_nodes, text);
    let behind_meetings = put_pairs(
        MEETING_FRAME,
        MEETINGS_FROM,
        s,
        &graph.track,
        behind_arcs,
        text,
    );
    put_last(behind_meetings, text);
    Ok(size)
}

// The refusal that an answer is, where it is one.
pub fn refusal_of(saved: Result<usize, TooShort>) -> Option<Refusal>
    ensures { met result ≡ refusal (saved_told saved) }
{
    match saved {
        Ok(_) => None,
        Err(_) => Some(Refusal::SliceTooShort),
    }
}
