// Tracks saved: a run's track becomes lines of hexadecimal in a lent slice, numbered by the walk.
#![tactic(auto)]

ghost use Rattle.std.specs.Prelude.{◌≡◌, ◌≤◌, replicate};
ghost use Rattle.walks.specs.code.Walked.{laid};
ghost use Rattle.writing.specs.Answers.{saved_told};
ghost use Rattle.writing.specs.words.Slice.{with_slice, written};
ghost use Rattle.saving.specs.code.Saving as of;
ghost use Rattle.columns.specs.words.Held.{placing};
ghost use Rattle.runs.specs.words.Held.{words_of};
ghost use Rattle.saving.specs.words.Kept.{Saves};
ghost use Rattle.control.specs.words.Words.{reference_room, track_words};
ghost use Rattle.links.specs.words.Cleared.{cleared};

use columns::Table;
use control::{LABEL, Nodes, REFERENCE_WORDS, REFERENCES, Run, TRACK_WORDS};
use counting::{ARCS, FRESH, MEETINGS};
use links::{Column, Work};
use numbering::number;
use writing::{TooShort, write};

// Saves a run into a slice: the text's length, or refusal 12 with the length that it would have. A slice that is too short is left
// as it was, and bytes past the text keep their content. The work is scratch, and all 0 afterwards.
pub fn save(table: &Table, run: &Run, work: &mut Work, text: &mut [u8]) -> Result<usize, TooShort>
    ensures text_after { with_slice (saved_told result) text.new ≡ written (of.text_of table.now.kinds table.now.owners
        table.now.after table.now.roots run.now.words.nodes run.now.words.track run.now.counters)
        text.old }
    ensures work_after { work.new ≡ cleared (replicate track_words 0) }
    ensures saves { Saves (placing table.now)
        (words_of run.now) text.old
        (saved_told result) text.new }
{
    let fresh = usize::from(run.counters[FRESH]);
    take_marks(fresh.min(REFERENCES), &run.words.nodes, &mut work.marks);
    let counts = number(
        usize::from(run.counters[ARCS]),
        usize::from(run.counters[MEETINGS]),
        &work.marks,
        &run.words.track,
        table,
        &mut work.graph,
        &mut work.sides,
        &mut work.pending,
        &mut work.numbers,
        &mut work.spare,
    );
    let saved = write(counts, &work.graph, table, text);
    work.graph.labels = [0u16; REFERENCES];
    work.graph.track = [0u16; TRACK_WORDS];
    work.marks = [0u16; REFERENCES];
    saved
}

// Takes the marks of the first so many references from a run's nodes into a column.
fn take_marks(count: usize, nodes: &Nodes, column: &mut Column)
    requires { count ≤ reference_room }
    ensures { column.new ≡ laid (of.marks_from nodes.now 0 count) }
{
    *column = [0u16; REFERENCES];
    for n in 0..count {
        column[n] = nodes[REFERENCE_WORDS * n + LABEL];
    }
}
