// The rereading program: reads a table and then a saved track from standard input, and writes the track again, or tells the
// refusal. All that it tells comes from the proved libraries; here it is only read and written.
#![tactic(auto)]

use columns::Table;
use inputs::table_and_script;
use lines::{Refusal, RefusedAt, part_of};
use links::{Graph, GraphCounts, Work};
use reading::read_track;
use standard_input::read_full;
use std::io;
use tables::check;
use writing::write;

// A table and a saved track, and one byte more, so that an input over this program's room is seen to be.
const REREAD_ROOM: usize = 262145;

// No text that is written again is longer than the input.
const TRACK_ROOM: usize = 262144;

fn main(rt: HostRuntime) -> io::Result<()> {
    let mut buffer = [0u8; REREAD_ROOM];
    let count = read_full(&mut rt.stdin(), &mut buffer)?;
    if TRACK_ROOM < count {
        return tell_refusal(&rt, Refusal::TextOverRoom.at(0));
    }
    reread_input(&rt, &buffer[..count])
}

// Checks the table's text, and reads the saved track behind it.
fn reread_input(rt: &impl Print, input: &[u8]) -> io::Result<()> {
    let (text, saved) = table_and_script(input);
    let mut table = Table::new();
    match check(text, &mut table) {
        Err(refused) => tell_refusal(rt, refused),
        Ok(counts) => reread_track(rt, saved, counts.definitions, &table),
    }
}

// Reads a saved track against a table, and writes it again.
fn reread_track(
    rt: &impl Print,
    saved: &[u8],
    definitions: usize,
    table: &Table,
) -> io::Result<()> {
    let mut graph = Graph::new();
    let mut work = Work::new();
    match read_track(saved, definitions, table, &mut graph, &mut work) {
        Err(refused) => tell_refusal(rt, refused),
        Ok(counts) => write_track(rt, counts, &graph, table),
    }
}

// Writes a track that was read.
fn write_track(
    rt: &impl Print,
    counts: GraphCounts,
    graph: &Graph,
    table: &Table,
) -> io::Result<()> {
    let mut text = [0u8; TRACK_ROOM];
    match write(counts, graph, table, &mut text) {
        Err(_) => tell_refusal(rt, Refusal::SliceTooShort.at(0)),
        Ok(length) => rt.write_all(part_of(&text, 0, length)),
    }
}

// `4e rr llll`: the refusal that ends the work.
fn tell_refusal(rt: &impl Print, refused: RefusedAt) -> io::Result<()> {
    let number = refused.refusal.number();
    let line = refused.line;
    println!(rt; "4e{number:02x}{line:04x}")
}
