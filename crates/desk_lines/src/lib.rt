// Lines of tables and scripts, which desks write: capitals and CR LF are taken too. It finds where the next line of such a text
// ends; its characters are handed out as they stand. It relies on nothing but the line finder's words.
#![tactic(auto)]

ghost use Rattle.std.specs.Prelude.{◌≡◌, map, ◌+◌, ◌≤◌, length, drop, ltb};
ghost use Rattle.lines.specs.Line.{digit, lines};
ghost use Rattle.lines.specs.code.Characters.{run};
ghost use Rattle.desk_lines.specs.DeskLine.{small, desk_answer};
ghost use Rattle.desk_lines.specs.code.Ends.{behind};

use lines::{LF, Line};

// The carriage return.
const CR: u8 = 13;

// Which characters are digits: bit k tells it of character 48 + k, bits 0 to 9 of 0 to 9, 17 to 22 of A to F, 49 to 54 of a to f.
const DIGITS: u64 = 0x007e_0000_007e_03ff;

// The line finder of tables and scripts: the next line of a text from a cursor.
pub fn find_desk_line(text: &[u8], at: usize) -> Line
    ensures { result ≡ desk_answer at (lines (drop at text.now)) }
{
    if text.len() <= at {
        return Line::End;
    }
    let end = digits_end(text, at);
    let Some(next) = behind_end(text, end) else {
        return Line::NoLine;
    };
    let count = end - at;
    if count == 0 || count % 2 != 0 {
        return Line::NoLine;
    }
    Line::Found { end, next }
}

// The first place at or after `from` that holds no digit.
fn digits_end(text: &[u8], from: usize) -> usize
    requires { from ≤ length text.now }
    ensures { (result ≡ from + run (map small (drop from text.now)))
        × (result ≤ length text.now) }
{
    let rest = &text[from..];
    from + rest
        .iter()
        .position(|c| !is_digit(*c))
        .unwrap_or(rest.len())
}

// Where the next line begins, behind the LF or CR LF at the end of a line's digits; none where neither stands there.
fn behind_end(text: &[u8], end: usize) -> Option<usize>
    ensures { result ≡ behind end (drop end text.now) }
{
    match *text.get(end)? {
        LF => Some(end + 1),
        CR if text.get(end + 1) == Some(&LF) => Some(end + 2),
        _ => None,
    }
}

// Whether a character is a digit, a capital too. What is below 48 has no place among the 64 either.
fn is_digit(c: u8) -> bool
    ensures { result ≡ ltb (digit (small c)) 16 }
{
    // For speed: one bit of a number, and no test of each range, as a table's every character is asked.
    let place = c.wrapping_sub(b'0');
    place < 64 && (DIGITS >> place) % 2 == 1
}
