// The library as a host links it: functions under plain names, for C, Rust and whatever else calls C. A host keeps a table, a
// run, a track that was read and room to work in as blocks of its own; each function hands the parts of its blocks on, and
// promises what the function over these parts does. The header and the Rust crate in `hosts` say the same to a host.
#![tactic(auto)]

ghost use Rattle.std.specs.Prelude.{◌≡◌, drop, length};
ghost use Rattle.std.proofs.lemmas.List.Edits.{sets as put};
ghost use Rattle.lines.specs.Line.{lines};
ghost use Rattle.tables.specs.Table.{judged};
ghost use Rattle.columns.specs.words.Held.{held};
ghost use Rattle.listing.specs.Listing.{listing};
ghost use Rattle.table_parts.specs.code.TableTold as table_told;
ghost use Rattle.run_parts.specs.code.RunTold as run_told;
ghost use Rattle.track_parts.specs.code.TrackTold as track_told;

use answers::Head;
use control::Run;
use links::{Graph, Work};
use listing::list;
use plans::Show;
use run_parts::{offers_parts, play_parts, start_parts, status_parts, step_parts};
use scripts::Digits;
use table_parts::check_parts;
use track_parts::{read_parts, save_parts, write_parts};

// A table: its head, the columns of its terms and definitions, and its plan.
#[repr(C)]
#[derive(Drop)]
pub struct TableBlock {
    pub head: Head,
    pub show: Show,
}

// A run: its stamp, room for an address, its counters and its words.
#[repr(C)]
#[derive(Drop)]
pub struct RunBlock {
    pub stamp: usize,
    pub digits: Digits,
    pub run: Run,
}

// A track that was read: its head, the marks of its nodes by number, and its arcs and meetings.
#[repr(C)]
#[derive(Drop)]
pub struct TrackBlock {
    pub head: Head,
    pub graph: Graph,
}

// Room to work in, for saving and reading. What stands there does not matter, and it is all 0 afterwards, but for the track of its
// graph behind a read.
pub type WorkBlock = Work;

// The listing of an input, in front of a slice as far as it goes; tells how long it is.
pub fn peashuttle_proved_list(input: &[u8], out: &mut [u8]) -> usize
    ensures value { result ≡ length (listing input.now) }
    ensures out_after { out.new ≡ put out.old 0 (listing input.now) }
{
    list(input, out)
}

// Checks a table's text, and fills a table's block with it and its plan; or tells the refusal and its line.
pub fn peashuttle_proved_check(text: &[u8], line: &mut usize, table: &mut TableBlock) -> u32
    ensures { table_told.with_table result line.new table.new.head
        (held table.new.show.table) table.new.show.plan
        ≡ table_told.checked table.old.head (held table.old.show.table) table.old.show.plan (judged text.now) }
{
    check_parts(text, line, &mut table.head, &mut table.show)
}

// Starts a run in a run's block.
pub fn peashuttle_proved_start(run: &mut RunBlock)
    ensures { (run_told.with_start run.new.stamp run.new.run.words.nodes run.new.run.words.track
        run.new.run.counters ≡ run_told.started)
        × (run.new.digits ≡ run.old.digits) }
{
    start_parts(&mut run.stamp, &mut run.run)
}

// Steps a run by the digits of an address; tells the event or the refusal.
pub fn peashuttle_proved_step(address: &[u8], table: &TableBlock, run: &mut RunBlock) -> u32
    ensures { (run_told.with_run result run.new.digits run.new.run.words.nodes run.new.run.words.track
        run.new.run.counters
        ≡ run_told.stepped table.now.head run.old.stamp table.now.show.plan
        table.now.show.table.payloads run.old.digits run.old.run.words.nodes run.old.run.words.track
        run.old.run.counters address.now)
        × (run.new.stamp ≡ run.old.stamp) }
{
    step_parts(
        address,
        &table.head,
        &table.show,
        &run.stamp,
        &mut run.digits,
        &mut run.run,
    )
}

// Plays the line of a script that begins at the cursor, which goes behind an accepted one; tells the event, the refusal, or
// that there is no further line.
pub fn peashuttle_proved_play(
    script: &[u8],
    at: &mut usize,
    table: &TableBlock,
    run: &mut RunBlock,
) -> u32
    ensures { (run_told.with_line result at.new run.new.digits run.new.run.words.nodes
        run.new.run.words.track run.new.run.counters
        ≡ run_told.played table.now.head run.old.stamp table.now.show.plan
        table.now.show.table.payloads run.old.digits run.old.run.words.nodes run.old.run.words.track
        run.old.run.counters at.old (lines (drop at.old script.now)))
        × (run.new.stamp ≡ run.old.stamp) }
{
    play_parts(
        script,
        at,
        &table.head,
        &table.show,
        &run.stamp,
        &mut run.digits,
        &mut run.run,
    )
}

// What a run offers: the events as the bits of a number; tells whether τ and ✓ are.
pub fn peashuttle_proved_offers(events: &mut u64, table: &TableBlock, run: &RunBlock) -> u32
    ensures { run_told.with_events result events.new
        ≡ run_told.offers table.now.head run.now.stamp table.now.show.plan
        table.now.show.table.payloads run.now.run.words.nodes run.now.run.counters events.old }
{
    offers_parts(events, &table.head, &table.show, &run.stamp, &run.run)
}

// Tells the status of a run.
pub fn peashuttle_proved_status(table: &TableBlock, run: &RunBlock) -> u32
    ensures { result ≡ run_told.status table.now.head run.now.stamp
        table.now.show.plan table.now.show.table.payloads run.now.run.words.nodes
        run.now.run.counters }
{
    status_parts(&table.head, &table.show, &run.stamp, &run.run)
}

// Saves a run's track as its text, in front of a slice, and tells its length; or refusal 12.
pub fn peashuttle_proved_save(
    text: &mut [u8],
    length: &mut usize,
    table: &TableBlock,
    run: &RunBlock,
    work: &mut WorkBlock,
) -> u32
    ensures { (track_told.with_text result length.new text.new
        ≡ track_told.saved table.now.head run.now.stamp table.now.show.table.kinds
        table.now.show.table.owners table.now.show.table.after table.now.show.table.roots run.now.run.words.nodes
        run.now.run.words.track run.now.run.counters length.old text.old)
        × (work.new ≡ track_told.work_after_saving table.now.head run.now.stamp work.old) }
{
    save_parts(
        text,
        length,
        &table.head,
        &table.show.table,
        &run.stamp,
        &run.run,
        work,
    )
}

// Reads a saved text against a table, and fills a track's block with it; or tells the refusal and its line.
pub fn peashuttle_proved_read(
    text: &[u8],
    line: &mut usize,
    table: &TableBlock,
    found: &mut TrackBlock,
    work: &mut WorkBlock,
) -> u32
    ensures { (track_told.with_track result line.new found.new.head found.new.graph.labels
        found.new.graph.track
        ≡ track_told.read table.now.head table.now.show.table.kinds table.now.show.table.payloads
        table.now.show.table.after table.now.show.table.roots text.now line.old
        found.old.head found.old.graph.labels found.old.graph.track)
        × (work.new ≡ track_told.work_after_reading table.now.head work.old) }
{
    read_parts(
        text,
        line,
        &table.head,
        &table.show.table,
        &mut found.head,
        &mut found.graph,
        work,
    )
}

// Writes a track that was read as its text, in front of a slice, and tells its length; or refusal 12.
pub fn peashuttle_proved_write(
    text: &mut [u8],
    length: &mut usize,
    table: &TableBlock,
    found: &TrackBlock,
) -> u32
    ensures { track_told.with_text result length.new text.new
        ≡ track_told.written_again table.now.head table.now.show.table.kinds table.now.show.table.owners
        table.now.show.table.after table.now.show.table.roots found.now.head found.now.graph.labels
        found.now.graph.track length.old text.old }
{
    write_parts(
        text,
        length,
        &table.head,
        &table.show.table,
        &found.head,
        &found.graph,
    )
}
