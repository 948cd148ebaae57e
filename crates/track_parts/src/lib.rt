// Tracks by the parts of blocks: a run's track saved, a saved text read into a track's block, and written again. A block that was
// never filled is refused, by its stamp; what a door answers is told as a number.
#![tactic(auto)]

ghost use Rattle.std.specs.Prelude.{◌≡◌, length};
ghost use Rattle.track_parts.specs.code.TrackTold as host;

use answers::{
    DONE, Head, NO_TABLE, NO_TRACK, NumberAt, TABLE_STAMP, TRACK_STAMP, length_of, line_of,
    of_judged, of_saved, unready,
};
use columns::Table;
use control::Run;
use links::{Graph, GraphCounts, Work};
use reading::read_track;
use saving::save;
use writing::write;

// Saves a run's track as its text, in front of a slice, and tells its length; or refusal 12.
pub fn save_parts<'s, 'n, 'b>(
    text: &'s mut [u8],
    length: &'n mut usize,
    head: &'b Head,
    table: &'b Table,
    stamp: &'b usize,
    run: &'b Run,
    work: &'b mut Work,
) -> u32
    ensures text_after { host.with_text result length.new text.new
        ≡ host.saved head.now stamp.now table.now.kinds table.now.owners
        table.now.after table.now.roots run.now.words.nodes run.now.words.track run.now.counters
        length.old text.old }
    ensures work_after { work.new ≡ host.work_after_saving head.now stamp.now work.old }
{
    let unready = unready(head[0], *stamp);
    if unready != DONE {
        return unready;
    }
    let saved = save(table, run, work, text);
    *length = length_of(saved);
    of_saved(saved)
}

// Reads a saved text against a table, and fills a track's block with it; or tells the refusal and its line.
pub fn read_parts<'s, 'n, 'b>(
    text: &'s [u8],
    line: &'n mut usize,
    head: &'b Head,
    table: &'b Table,
    found: &'b mut Head,
    graph: &'b mut Graph,
    work: &'b mut Work,
) -> u32
    ensures graph_after { host.with_track result line.new found.new graph.new.labels graph.new.track
        ≡ host.read head.now table.now.kinds table.now.payloads table.now.after
        table.now.roots text.now line.old found.old graph.old.labels
        graph.old.track }
    ensures work_after { work.new ≡ host.work_after_reading head.now work.old }
{
    if head[0] != TABLE_STAMP {
        return NO_TABLE;
    }
    let definitions = head[1];
    let read = read_track(text, definitions, table, graph, work).map_err(NumberAt::of);
    *line = line_of(read);
    let Ok(counts) = read else {
        return of_judged(read);
    };
    *found = [TRACK_STAMP, counts.nodes, counts.arcs, counts.meetings];
    DONE
}

// Writes a track that was read as its text, in front of a slice, and tells its length; or refusal 12.
pub fn write_parts<'s, 'n, 'b>(
    text: &'s mut [u8],
    length: &'n mut usize,
    head: &'b Head,
    table: &'b Table,
    found: &'b Head,
    graph: &'b Graph,
) -> u32
    ensures { host.with_text result length.new text.new
        ≡ host.written_again head.now table.now.kinds table.now.owners table.now.after
        table.now.roots found.now graph.now.labels graph.now.track
        length.old text.old }
{
    if head[0] != TABLE_STAMP {
        return NO_TABLE;
    }
    if found[0] != TRACK_STAMP {
        return NO_TRACK;
    }
    let counts = GraphCounts {
        nodes: found[1],
        arcs: found[2],
        meetings: found[3],
    };
    let written = write(counts, graph, table, text);
    *length = length_of(written);
    of_saved(written)
}
