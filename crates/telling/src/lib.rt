// Lines of the listing: each function puts its line from a cursor on, and tells where it ends. Past the end of the slice
// nothing is put.
#![tactic(auto)]

ghost use Rattle.std.specs.Prelude.{[], ◌∷◌, ◌≤◌, length, take};
ghost use Rattle.lines.specs.Line.{text};
ghost use Rattle.spelling.specs.words.Puts.{Puts, number_cursor, line_cursor};
ghost use Rattle.telling.specs.ListingFrame.{step_frame, status_frame, alone};

use rules::{Event, Status};
use spelling::{put_byte, put_end, put_number};

// First bytes of frames.
const SHOWN_FRAME: u8 = 0x40;

const STATUS_FRAME: u8 = 0x41;

const REFUSAL_FRAME: u8 = 0x4e;

// `40 00` τ, `40 01` ✓, `40 02 ee` event ee.
pub fn put_event(event: Event, at: usize, out: &mut [u8]) -> usize
    requires { at ≤ line_cursor }
    ensures { Puts at (text (step_frame event ∷ [])) out.old out.new result }
{
    let a = put_byte(at, SHOWN_FRAME, out);
    let (b, last) = match event {
        Event::Tau => (a, 0),
        Event::Tick => (a, 1),
        Event::Visible(e) => (put_byte(a, 2, out), e),
    };
    put_last(last, b, out)
}

// `41 ss`: 00 live, 01 ended, 02 stuck.
pub fn put_status(status: Status, at: usize, out: &mut [u8]) -> usize
    requires { at ≤ line_cursor }
    ensures { Puts at (text (status_frame status ∷ [])) out.old out.new result }
{
    let a = put_byte(at, STATUS_FRAME, out);
    let told = match status {
        Status::Live => 0,
        Status::Ended => 1,
        Status::Stuck => 2,
    };
    put_last(told, a, out)
}

// `4e rr llll`: a refusal's number and line, whatever number it is given: the enum would ask more of callers.
pub fn put_refusal(number: u8, line: usize, at: usize, out: &mut [u8]) -> usize
    requires { at ≤ line_cursor }
    ensures { Puts at (alone number line) out.old out.new result }
{
    let a = put_byte(at, REFUSAL_FRAME, out);
    let b = put_byte(a, number, out);
    let c = put_number(b, line, out);
    put_end(c, out)
}

// The last byte of a line.
fn put_last(byte: u8, at: usize, out: &mut [u8]) -> usize
    requires { at ≤ number_cursor }
    ensures { Puts at (text ((byte ∷ []) ∷ [])) out.old out.new result }
{
    let a = put_byte(at, byte, out);
    put_end(a, out)
}

// The first characters of a text, as they stand.
pub fn put_copy(characters: &[u8], count: usize, from: usize, out: &mut [u8]) -> usize
    requires { (count ≤ length characters.now) × (from ≤ line_cursor) × (count ≤ 65536) }
    ensures { Puts from (take count characters.now) out.old out.new result }
{
    let end = from + count;
    let room = end.min(out.len());
    if from < room {
        out[from..room].copy_from_slice(&characters[..room - from]);
    }
    end
}
