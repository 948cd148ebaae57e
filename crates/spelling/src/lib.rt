// Bytes spelled as hexadecimal in a lent slice: each function puts its characters from a cursor on, and tells
// where they end. Past the end of the slice nothing is put. It relies on the definitions of `lines` alone.
#![tactic(auto)]

ghost use Rattle.std.specs.Prelude.{◌≡◌, [], ◌∷◌, ◌<◌, ◌≤◌, set};
ghost use Rattle.lines.specs.Line.{hex, character, two};
ghost use Rattle.lines.specs.Line as line;
ghost use Rattle.spelling.specs.words.Puts.{Puts, byte_cursor, number_cursor};

use lines::LF;

// A number of two bytes.
pub fn put_number(at: usize, n: usize, out: &mut [u8]) -> usize
    requires { at ≤ number_cursor }
    ensures { Puts at (hex (two n)) out.old out.new result }
{
    let high = put_byte(at, (n / 256 % 256) as u8, out);
    put_byte(high, (n % 256) as u8, out)
}

// A byte, by its two digits.
pub fn put_byte(at: usize, byte: u8, out: &mut [u8]) -> usize
    requires { at ≤ byte_cursor }
    ensures { Puts at (hex (byte ∷ [])) out.old out.new result }
{
    put(at, digit_of(byte / 16), out);
    put(at + 1, digit_of(byte % 16), out);
    at + 2
}

// The LF behind a line.
pub fn put_end(at: usize, out: &mut [u8]) -> usize
    requires { at ≤ byte_cursor }
    ensures { Puts at (line.LF ∷ []) out.old out.new result }
{
    put(at, LF, out);
    at + 1
}

// A character, where the slice has room for it.
fn put(at: usize, c: u8, out: &mut [u8])
    ensures { out.new ≡ set out.old at c }
{
    // A slice's `get_mut` tells a proof nothing of the elements once its borrow is over.
    if at < out.len() {
        out[at] = c;
    }
}

// The character of a digit.
fn digit_of(d: u8) -> u8
    requires { d < 16 }
    ensures { result ≡ character d }
{
    if d < 10 { b'0' + d } else { b'a' + d - 10 }
}
