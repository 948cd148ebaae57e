// What a host is told, as numbers: an event, a status, what is offered, and what a step, a script's line, a table's text, a
// saved text and a written track come to. A number below REFUSED tells that something was done; from REFUSED on, which
// refusal it is. A host keeps a table, a run and a track that was read in blocks of its own; each has a stamp where it is
// filled, and one that is not is told too.
#![tactic(auto)]

ghost use Rattle.std.specs.Prelude.{◌≡◌};
ghost use Rattle.writing.specs.Answers.{saved_told};
ghost use Rattle.answers.specs.Numbered.{numbered, answer_numbered, played_numbered};
ghost use Rattle.answers.specs.Numbers as told;
ghost use Rattle.answers.specs.words.Blocks as blocks;

use lines::{Refusal, RefusedAt};
use offering::Offered;
use playing::PlayedStep;
use rules::{Event, Status};
use runs::Shown;
use writing::TooShort;

// What was asked for has been done.
pub const DONE: u32 = 0;

// The first of the refusals' numbers: document 01's number is added to it.
pub const REFUSED: u32 = 0x1_0000;

// The script has no further line.
pub const END: u32 = 0x2_0000;

// The stamps of blocks that are filled: of a table, a run and a track.
pub const TABLE_STAMP: usize = 0x5045_4154_4142_3031;

pub const RUN_STAMP: usize = 0x5045_4152_554e_3031;

pub const TRACK_STAMP: usize = 0x5045_4154_524b_3031;

// What is told of a block that was never filled.
pub const NO_TABLE: u32 = 0x3_0001;

pub const NO_RUN: u32 = 0x3_0002;

pub const NO_TRACK: u32 = 0x3_0003;

// The head of a table's or a track's block: its stamp and three counts, of definitions, events and terms, or of nodes, arcs
// and meetings.
// An array, as C has it.
pub type Head = [usize; 4];

// A refusal by its number, whatever number that is, and the line of the text that it is of.
#[derive(Clone, Copy, PartialEq, Eq)]
pub struct NumberAt {
    pub number: u8,
    pub line: usize,
}

impl NumberAt {
    // A text's refusal, by document 01's number.
    pub fn of(refused: RefusedAt) -> NumberAt
        ensures { result ≡ numbered refused }
    {
        NumberAt {
            number: refused.refusal.number(),
            line: refused.line,
        }
    }
}

// 0 τ, 1 ✓, 2 + e event e.
pub fn of_event(event: Event) -> u32
    ensures { result ≡ told.of_event event }
{
    match event {
        Event::Tau => 0,
        Event::Tick => 1,
        Event::Visible(e) => 2 + u32::from(e),
    }
}

// 0 live, 1 ended, 2 stuck.
pub fn of_status(status: Status) -> u32
    ensures { result ≡ told.of_status status }
{
    match status {
        Status::Live => 0,
        Status::Ended => 1,
        Status::Stuck => 2,
    }
}

// 1 where τ is offered, and 2 more where ✓ is.
pub fn of_offers(offered: Offered) -> u32
    ensures { result ≡ told.of_offers offered.tau offered.tick }
{
    match (offered.tau, offered.tick) {
        (true, true) => 3,
        (true, false) => 1,
        (false, true) => 2,
        (false, false) => 0,
    }
}

// A refusal, by document 01's number: whatever number it is given, here and below, since the enum would ask more of callers.
pub fn of_refusal(number: u8) -> u32
    ensures { result ≡ told.of_refusal number }
{
    REFUSED + u32::from(number)
}

// A step's event, or its refusal.
pub fn of_step(answer: Result<Shown, u8>) -> u32
    ensures { result ≡ told.of_step (answer_numbered answer) }
{
    match answer {
        Ok(shown) => of_event(shown.event),
        Err(number) => of_refusal(number),
    }
}

// A script's line: its step's event, its refusal, or that there is none.
pub fn of_played(played: Result<Option<PlayedStep>, u8>) -> u32
    ensures { result ≡ told.of_played (played_numbered played) }
{
    match played {
        Ok(Some(step)) => of_event(step.event),
        Ok(None) => END,
        Err(number) => of_refusal(number),
    }
}

// Where a script goes on: behind a line that was stepped, and else where it stood.
pub fn cursor_behind(played: Result<Option<PlayedStep>, u8>, at: usize) -> usize
    ensures { result ≡ told.cursor_behind at (played_numbered played) }
{
    match played {
        Ok(Some(step)) => step.next,
        Ok(None) => at,
        Err(_) => at,
    }
}

// Whether a text was accepted, or its refusal.
pub fn of_judged<T: Copy>(judged: Result<T, NumberAt>) -> u32
    ensures { result ≡ told.of_judged judged }
{
    match judged {
        Ok(_) => DONE,
        Err(refused) => of_refusal(refused.number),
    }
}

// The line of a text's refusal, 0 where there is none.
pub fn line_of<T: Copy>(judged: Result<T, NumberAt>) -> usize
    ensures { result ≡ told.line_of judged }
{
    match judged {
        Ok(_) => 0,
        Err(refused) => refused.line,
    }
}

// Whether a track was written, or the refusal of a slice that is too short for it.
pub fn of_saved(saved: Result<usize, TooShort>) -> u32
    ensures { result ≡ told.of_saved (saved_told saved) }
{
    match saved {
        Ok(_) => DONE,
        Err(_) => of_refusal(Refusal::SliceTooShort.number()),
    }
}

// How long a track's text is, written or not.
pub fn length_of(saved: Result<usize, TooShort>) -> usize
    ensures { result ≡ told.length_of (saved_told saved) }
{
    match saved {
        Ok(length) => length,
        Err(short) => short.length,
    }
}

// 0 where a table's and a run's block are filled, else the number of the one that is not: a number, as C is told it.
pub fn unready(table: usize, run: usize) -> u32
    ensures { result ≡ blocks.unready table run }
{
    if table != TABLE_STAMP {
        return NO_TABLE;
    }
    if run != RUN_STAMP {
        return NO_RUN;
    }
    DONE
}
