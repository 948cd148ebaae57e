// The tracking program's listing: from the bytes of an input to the bytes of its output. The table is judged whole, the
// script is played line by line, and each accepted step, the status, the refusal that ended the script and the saved
// track are put behind one another. It relies on the doors below for all that is told.
#![tactic(auto)]

ghost use Rattle.std.specs.Prelude.{◌≡◌, ◌≤◌, length};
ghost use Rattle.std.proofs.lemmas.List.Edits.{sets as put};
ghost use Rattle.lines.specs.Refusal.{met};
ghost use Rattle.spelling.specs.words.Puts.{Puts, line_cursor};
ghost use Rattle.saving.specs.code.Saving.{text_of};
ghost use Rattle.listing.specs.Listing.{listing, within_room, script_room};
ghost use Rattle.listing.specs.code.Told as of;

use columns::Table;
use control::Run;
use counting::REFERENCE;
use inputs::table_end;
use lines::Refusal;
use links::Work;
use plans::{Show, lay_out};
use playing::play;
use runs::start;
use saving::save;
use scripts::{DIGIT_ROOM, SCRIPT_TEXT_ROOM};
use status::status_at;
use tables::check;
use telling::{put_copy, put_event, put_refusal, put_status};

// Room for a saved track, as large as document 01 has it.
const SAVE_ROOM: usize = 65536;

// Puts the listing of an input in front of a slice, as far as the slice goes, and tells how long it is. 131,086 bytes are
// enough for any.
pub fn list(input: &[u8], out: &mut [u8]) -> usize
    ensures value { result ≡ length (listing input.now) }
    ensures out_after { out.new ≡ put out.old 0 (listing input.now) }
{
    let mut show = Show::new();
    let end = table_end(input);
    match check(&input[..end], &mut show.table) {
        Err(refused) => put_refusal(refused.refusal.number(), refused.line, 0, out),
        Ok(counts) => list_script(&input[end..], counts.terms, &mut show, out),
    }
}

// The listing of a script, over a table of so many terms, which is laid out for it.
fn list_script(script: &[u8], terms: usize, show: &mut Show, out: &mut [u8]) -> usize
    ensures { Puts 0 (of.script_text terms show.old.table.kinds show.old.table.payloads show.old.table.owners
        show.old.table.after show.old.table.roots script.now) out.old out.new result }
{
    if SCRIPT_TEXT_ROOM < script.len() {
        return put_refusal(Refusal::TextOverRoom.number(), 0, 0, out);
    }
    lay_out(terms, &show.table, &mut show.plan);
    list_run(script, show, out)
}

// The listing of a script within its room: its steps, the status, its refusal and the track.
fn list_run(script: &[u8], show: &Show, out: &mut [u8]) -> usize
    requires { length script.now ≤ script_room }
    ensures { Puts 0 (of.run_text show.now.plan show.now.table.payloads show.now.table.kinds
        show.now.table.owners show.now.table.after show.now.table.roots script.now)
        out.old out.new result }
{
    let mut run = Run::new();
    start(&mut run);
    let stop = put_steps(script, show, &mut run, out);
    let reference = usize::from(run.counters[REFERENCE]);
    let status = status_at(reference, show, &run.words.nodes);
    let behind_status = put_status(status, stop.end, out);
    let behind_stop = put_stop(stop.refusal, stop.line, behind_status, out);
    put_track(&show.table, &run, behind_stop, out)
}

// Where a script's steps have stopped: at the refusal of a line or at the end, at which line, and where their lines end in the
// listing.
#[derive(Clone, Copy)]
struct Stop {
    refusal: Option<Refusal>,
    line: usize,
    end: usize,
}

// Plays a script from its first line on, and puts each accepted step's line, up to the first that is refused.
fn put_steps(script: &[u8], show: &Show, run: &mut Run, out: &mut [u8]) -> Stop
    requires { length script.now ≤ script_room }
    ensures { of.StepsPut (of.from_words show.now.plan show.now.table.payloads script.now
        run.old.words.nodes run.old.words.track run.old.counters)
        run.new.words.nodes run.new.words.track run.new.counters out.old out.new
        (met result.refusal) result.line result.end }
{
    let mut digits = [0u8; DIGIT_ROOM];
    let mut at = 0;
    let mut line: usize = 1;
    let mut end = 0;
    // Lines go by a cursor, up to the first that is no step: no range has their number.
    loop {
        match play(script, at, &mut digits, show, run) {
            Ok(Some(step)) => {
                end = put_event(step.event, end, out);
                at = step.next;
                line += 1;
            }
            Ok(None) => {
                return Stop {
                    refusal: None,
                    line,
                    end,
                };
            }
            Err(refusal) => {
                return Stop {
                    refusal: Some(refusal),
                    line,
                    end,
                };
            }
        }
    }
}

// Puts the refusal that ended a script, where there was one.
fn put_stop(refusal: Option<Refusal>, line: usize, at: usize, out: &mut [u8]) -> usize
    requires { at ≤ line_cursor }
    ensures { Puts at (of.stop_text (met refusal) line) out.old out.new result }
{
    match refusal {
        None => at,
        Some(met) => put_refusal(met.number(), line, at, out),
    }
}

// Puts a run's saved track, or the refusal 12 where it passes its room.
fn put_track(table: &Table, run: &Run, at: usize, out: &mut [u8]) -> usize
    requires { at ≤ line_cursor }
    ensures { Puts at (within_room (text_of table.now.kinds table.now.owners table.now.after
        table.now.roots run.now.words.nodes run.now.words.track run.now.counters))
        out.old out.new result }
{
    let mut work = Work::new();
    let mut text = [0u8; SAVE_ROOM];
    match save(table, run, &mut work, &mut text) {
        Err(_) => put_refusal(Refusal::SliceTooShort.number(), 0, at, out),
        Ok(length) => put_copy(&text, length, at, out),
    }
}
