// The first and the last line of a saved track: the counts of line 1, and that nothing stands behind the last. It relies on the
// line reader, and on the bytes of a line.
#![tactic(auto)]

ghost use Rattle.std.specs.Prelude.{◌≡◌, ◌&&◌, not, ◌≤◌, drop, leb, eqb};
ghost use Rattle.lines.specs.Line.{lines};
ghost use Rattle.opening.specs.Answers.{lines_told, opened_told};
ghost use Rattle.opening.specs.code.Ends as of;
ghost use Rattle.rules.specs.Run.{arc_room, meeting_room, node_room};

use graphs::{TRACK_EDITION, TRACK_END_FRAME, TRACK_FRAME};
use line_reader::{Spelling, characters, next_line};
use lines::{Line, Refusal, RefusedAt, wanted};
use numbers::{byte, number_at};
use rules::{ARC_ROOM, MEETING_ROOM, NODE_ROOM};

// Line 1: the counts of a track, with the next line from `next` on.
#[derive(Clone, Copy)]
pub struct TrackOpening {
    pub nodes: usize,
    pub arcs: usize,
    pub meetings: usize,
    pub next: usize,
}

// Reads line 1.
pub fn first_line(text: &[u8]) -> Result<TrackOpening, Refusal>
    ensures { opened_told result ≡ of.opened (lines text.now) }
{
    let line = next_line(text, 0, Spelling::Strict);
    let Line::Found { end, next } = line else {
        return Err(wanted(line).unwrap_err());
    };
    let chars = characters(text, 0, end);
    if chars.len() / 2 != 8 {
        return Err(Refusal::WrongFrame);
    }
    if byte(chars, 0) != TRACK_FRAME {
        return Err(Refusal::WrongFrame);
    }
    let nodes = number_at(chars, 2);
    let arcs = number_at(chars, 4);
    let meetings = number_at(chars, 6);
    if counts_outside(byte(chars, 1), nodes, arcs, meetings) {
        return Err(Refusal::OutOfRange);
    }
    Ok(TrackOpening {
        nodes,
        arcs,
        meetings,
        next,
    })
}

// An edition other than 01, or a count over the run's room.
fn counts_outside(edition: u8, nodes: usize, arcs: usize, meetings: usize) -> bool
    ensures { result ≡ not (eqb edition 1 && (leb nodes node_room && (leb arcs arc_room && leb meetings meeting_room))) }
{
    edition != TRACK_EDITION || NODE_ROOM < nodes || ARC_ROOM < arcs || MEETING_ROOM < meetings
}

// Reads the last line, behind which nothing may stand, up to where the text ends; a refusal is told with its line. `line` has to
// be small enough for the number of the line behind it.
pub fn last_lines(text: &[u8], at: usize, line: usize) -> Result<usize, RefusedAt>
    requires { line ≤ 20000 }
    ensures { lines_told result ≡ of.last_read line at (lines (drop at text.now)) }
{
    let found = next_line(text, at, Spelling::Strict);
    let Line::Found { end, next } = found else {
        return Err(wanted(found).unwrap_err().at(line));
    };
    let chars = characters(text, at, end);
    if chars.len() / 2 != 1 {
        return Err(Refusal::WrongFrame.at(line));
    }
    if byte(chars, 0) != TRACK_END_FRAME {
        return Err(Refusal::WrongFrame.at(line));
    }
    behind_last(text, next, line + 1)
}

// Behind the last line any line is a frame out of place.
fn behind_last(text: &[u8], at: usize, line: usize) -> Result<usize, RefusedAt>
    ensures { lines_told result ≡ of.none_read line at (lines (drop at text.now)) }
{
    match next_line(text, at, Spelling::Strict) {
        Line::End => Ok(at),
        Line::NoLine => Err(Refusal::NotALine.at(line)),
        Line::Found { end: _, next: _ } => Err(Refusal::WrongFrame.at(line)),
    }
}
