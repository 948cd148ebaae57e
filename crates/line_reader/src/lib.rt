// The line reader: a text, how its lines are spelled, and a cursor in it. It says what stands at the cursor, and hands out the
// line's own characters as they stand in the text. It relies on the two line finders, and promises in their words.
#![tactic(auto)]

ghost use Rattle.std.specs.Prelude.{◌≡◌, drop};
ghost use Rattle.lines.specs.Line.{lines};
ghost use Rattle.lines.specs.code.Characters.{part};
ghost use Rattle.line_reader.specs.Spelling.{answer_by};

use desk_lines::find_desk_line;
use lines::{Line, find_line, part_of};

// How the lines of a text are spelled: strictly, as in a saved track, or as desks write them, as in a table or a script.
#[derive(Clone, Copy)]
pub enum Spelling {
    Strict,
    Desk,
}

// A text, where in it the next line is looked for, and how its lines are spelled.
#[derive(Drop)]
pub struct LineReader<'a> {
    pub text: &'a [u8],
    pub at: usize,
    pub spelling: Spelling,
}

impl<'a> LineReader<'a> {
    // What stands at the cursor: a line, something that is no line, or the end of the text.
    pub fn line(self) -> Line
        ensures { result ≡ answer_by self.entry.spelling self.entry.at
            (lines (drop self.entry.at self.entry.text.now)) }
    {
        find(self.text, self.at, self.spelling)
    }

    // The characters from the cursor up to `end` as they stand in the text; none where there is no such part.
    pub fn characters(self, end: usize) -> &'a [u8]
        ensures { result.now ≡ part self.entry.text.now self.entry.at end }
    {
        part_of(self.text, self.at, end)
    }
}

// What stands at a place of a text, by the finder of its lines: a line for each, which a trait or a closure would make no plainer.
fn find(text: &[u8], from: usize, spelling: Spelling) -> Line
    ensures { result ≡ answer_by spelling from (lines (drop from text.now)) }
{
    match spelling {
        Spelling::Strict => find_line(text, from),
        Spelling::Desk => find_desk_line(text, from),
    }
}

// The next line of a text from a cursor, by the line reader: for callers that keep the parts of a reader apart.
pub fn next_line(text: &[u8], at: usize, spelling: Spelling) -> Line
    ensures { result ≡ answer_by spelling at (lines (drop at text.now)) }
{
    LineReader { text, at, spelling }.line()
}

// The characters of the line at a cursor, up to `end`, by the line reader: they stand there however lines are spelled.
pub fn characters(text: &[u8], at: usize, end: usize) -> &[u8]
    ensures { result.now ≡ part text.now at end }
{
    LineReader {
        text,
        at,
        spelling: Spelling::Strict,
    }
    .characters(end)
}
