// The lines of a table judged, each by what the lines before it have said: its frame, or the lowest number of refusal that it
// meets. It relies on the line reader and on the frames.
#![tactic(auto)]

ghost use Rattle.std.specs.Prelude.{◌≡◌, drop, leb, ltb, eqb, not};
ghost use Rattle.frames.specs.TableFrame as table;
ghost use Rattle.refusals.specs.code.Said.{said, opened, first_told, line_told};
ghost use Rattle.lines.specs.Line.{lines};
ghost use Rattle.lines.specs.Refusal.{told};
ghost use Rattle.frames.specs.declared.Frame.TheVariants.{Opening, Definition, Term, Closing};

use frames::{
    EVENT_ROOM, Frame, MOST_DEFINITIONS, MOST_EVENTS, PATH_ROOM, Seen, TABLE_EDITION, TERM_ROOM,
    read_frame,
};
use kinds::{CALL, PARALLEL, PREFIX};
use line_reader::{Spelling, characters, next_line};
use lines::{Line, Refusal, wanted};

// What line 1 opens: a table of so many definitions and events, with the next line from `next` on.
#[derive(Clone, Copy)]
pub struct TableOpening {
    pub definitions: usize,
    pub events: usize,
    pub next: usize,
}

// What a line says: its frame, with the next line from `next` on.
#[derive(Clone, Copy)]
pub struct FrameLine {
    pub frame: Frame,
    pub next: usize,
}

// Line 1 of a table.
pub fn first_line(text: &[u8]) -> Result<TableOpening, Refusal>
    ensures { first_told result ≡ opened (lines text.now) }
{
    let line = next_line(text, 0, Spelling::Desk);
    let Line::Found { end, next } = line else {
        return Err(wanted(line).unwrap_err());
    };
    let Frame::Opening {
        edition,
        definitions,
        events,
    } = read_frame(characters(text, 0, end))
    else {
        return Err(Refusal::WrongFrame);
    };
    if opening_outside(edition, definitions, events) {
        return Err(Refusal::OutOfRange);
    }
    Ok(TableOpening {
        definitions: usize::from(definitions),
        events: usize::from(events),
        next,
    })
}

// An edition other than 01, or a count out of its range.
fn opening_outside(edition: u8, definitions: u8, events: u8) -> bool
    ensures { result ≡ not (eqb (table.first_refusal (Opening edition definitions events)) 0) }
{
    edition != TABLE_EDITION
        || definitions < 1
        || MOST_DEFINITIONS < definitions
        || MOST_EVENTS < events
}

// The line at a cursor behind line 1.
pub fn table_line(text: &[u8], at: usize, s: Seen) -> Result<FrameLine, Refusal>
    ensures { line_told result ≡ said (λ f. table.refusal f s) at (lines (drop at text.now)) }
{
    let line = next_line(text, at, Spelling::Desk);
    let Line::Found { end, next } = line else {
        return Err(wanted(line).unwrap_err());
    };
    let frame = read_frame(characters(text, at, end));
    refusal(frame, s)?;
    Ok(FrameLine { frame, next })
}

// The refusal that a frame behind line 1 meets, the one of the lowest number where there are several.
fn refusal(frame: Frame, s: Seen) -> Result<(), Refusal>
    ensures { told result ≡ table.refusal frame s }
{
    match frame {
        Frame::Term { kind, payload } => term_refusal(kind, payload, s),
        Frame::Definition(n) => definition_refusal(n, s),
        Frame::Closing(count) => closing_refusal(count, s),
        Frame::Opening { .. } | Frame::Wrong => Err(Refusal::WrongFrame),
    }
}

fn definition_refusal(n: u8, s: Seen) -> Result<(), Refusal>
    ensures { told result ≡ table.refusal (Definition n) s }
{
    let number = usize::from(n);
    if number != s.begun || s.definitions <= number {
        return Err(Refusal::OutOfRange);
    }
    if s.due != 0 {
        return Err(Refusal::Incomplete);
    }
    Ok(())
}

fn closing_refusal(count: u64, s: Seen) -> Result<(), Refusal>
    ensures { told result ≡ table.refusal (Closing count) s }
{
    // No `From` makes a usize a u64.
    if count != s.terms as u64 {
        return Err(Refusal::OutOfRange);
    }
    if 0 < s.due || s.begun < s.definitions {
        return Err(Refusal::Incomplete);
    }
    Ok(())
}

fn term_refusal(kind: u8, payload: u64, s: Seen) -> Result<(), Refusal>
    ensures { told result ≡ table.refusal (Term kind payload) s }
{
    if s.begun == 0 {
        return Err(Refusal::WrongFrame);
    }
    if over_limit(kind, payload, s) {
        return Err(Refusal::OutOfRange);
    }
    if s.due == 0 {
        return Err(Refusal::Incomplete);
    }
    if TERM_ROOM <= s.terms || too_deep(kind, s) {
        return Err(Refusal::TermOverRoom);
    }
    Ok(())
}

// A payload that names no definition, no event, or a set with an event that the table does not have. No `From` makes a usize a u64.
fn over_limit(kind: u8, payload: u64, s: Seen) -> bool
    ensures { result ≡ leb (table.limit s kind) payload }
{
    match kind {
        CALL => s.definitions as u64 <= payload,
        PREFIX => s.events as u64 <= payload,
        PARALLEL => s.events < EVENT_ROOM && (1u64 << s.events) <= payload,
        _ => 1 <= payload,
    }
}

// A term with a literal below the longest path: a prefix's event stands one digit further down.
fn too_deep(kind: u8, s: Seen) -> bool
    ensures { result ≡ ltb table.path_room (table.longest s kind) }
{
    match kind {
        PREFIX => PATH_ROOM <= s.depth,
        _ => PATH_ROOM < s.depth,
    }
}
