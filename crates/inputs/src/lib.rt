// Where a table's text ends in a program's input, and its script begins.
#![tactic(auto)]

ghost use Rattle.std.specs.Prelude.{◌≡◌, replicate};
ghost use Rattle.lines.specs.Line.{lines};
ghost use Rattle.inputs.specs.Cut.{table_length, table_text, script_text, starts_1f};
ghost use Rattle.inputs.specs.code.Lengths.{line_length};

use lines::LF;

// Bytes of an input that are enough: the rooms of a table's text and of a script's, and one byte more.
pub const INPUT_ROOM: usize = 98305;

// An input's two parts: the table's text, and the script behind it.
pub fn table_and_script(input: &[u8]) -> (&[u8], &[u8])
    ensures table { result.0.now ≡ table_text input.now }
    ensures script { result.1.now ≡ script_text input.now }
{
    input.split_at(table_end(input))
}

// The table's text runs through the first line that starts `1f` or `1F`, or to the end.
pub fn table_end(text: &[u8]) -> usize
    ensures { result ≡ table_length (lines text.now) }
{
    let mut at = 0;
    // No plainer form: the cursor goes by lines, and stops at the first that starts so.
    while at < text.len() {
        let rest = &text[at..];
        let next = at + line_length(rest);
        if starts_1f(rest) {
            return next;
        }
        at = next;
    }
    at
}

// Room for an input, all 0: a function, since docs/DOORS.md names it, for whoever writes a program of their own.
pub fn input_room() -> [u8; INPUT_ROOM]
    ensures { result ≡ replicate 98305 0 }
{
    [0; INPUT_ROOM]
}

// How many bytes a text's first line is, its line feed with it.
fn line_length(text: &[u8]) -> usize
    ensures { result ≡ line_length text.now }
{
    match text.iter().position(|c| *c == LF) {
        Some(feed) => feed + 1,
        None => text.len(),
    }
}

// Whether a text starts `1f` or `1F`.
fn starts_1f(text: &[u8]) -> bool
    ensures { result ≡ starts_1f text.now }
{
    matches!(text, [b'1', b'f' | b'F', ..])
}
