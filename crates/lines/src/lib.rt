// Lines of hexadecimal, strictly spelled, as a saved track has them: where the next line of a text ends, and its characters. It
// relies on nothing; every reader of a text above stands on it.
#![tactic(auto)]

ghost use Rattle.std.specs.Prelude.{◌≡◌, ◌+◌, ◌≤◌, length, drop};
ghost use Rattle.lines.specs.Line.{digit, lines, answer};
ghost use Rattle.lines.specs.Refusal.{number, wanted};
ghost use Rattle.lines.specs.code.Characters.{run, part};

// The line feed.
pub const LF: u8 = 10;

// Document 01's refusals, each by its number there.
#[derive(Clone, Copy, PartialEq, Eq)]
pub enum Refusal {
    NotALine = 1,
    WrongFrame,
    OutOfRange,
    Incomplete,
    TermOverRoom,
    TextOverRoom,
    NoDerivation,
    CellsOverRoom,
    NodesOverRoom,
    ArcsOverRoom,
    MeetingsOverRoom,
    SliceTooShort,
    ShapeBroken,
}

impl Refusal {
    // Document 01's number of a refusal.
    pub fn number(self) -> u8
        ensures { result ≡ number self }
    {
        self as u8
    }

    // A refusal, at a line of a text.
    pub fn at(self, line: usize) -> RefusedAt
        ensures { (result.refusal ≡ self) × (result.line ≡ line) }
    {
        RefusedAt {
            refusal: self,
            line,
        }
    }
}

// A refusal, and the line of the text that it is of; line 0 where it is of the whole text.
#[derive(Clone, Copy, PartialEq, Eq)]
pub struct RefusedAt {
    pub refusal: Refusal,
    pub line: usize,
}

// What stands at a cursor: a line, whose characters run from the cursor up to `end`, with the next line from
// `next` on; something that is no line; or the end of the text.
#[derive(Clone, Copy)]
pub enum Line {
    Found { end: usize, next: usize },
    NoLine,
    End,
}

// Where a line's characters end, and where the next line begins.
#[derive(Clone, Copy, PartialEq, Eq)]
pub struct Span {
    pub end: usize,
    pub next: usize,
}

// The line finder: the next line of a text from a cursor.
pub fn find_line(text: &[u8], at: usize) -> Line
    ensures { result ≡ answer at (lines (drop at text.now)) }
{
    if text.len() <= at {
        return Line::End;
    }
    let end = digits_end(text, at);
    let count = end - at;
    if text.get(end) != Some(&LF) || count == 0 || count % 2 != 0 {
        return Line::NoLine;
    }
    Line::Found { end, next: end + 1 }
}

// The characters from `at` up to `end` as they stand in the text; none where there is no such part.
pub fn part_of(text: &[u8], at: usize, end: usize) -> &[u8]
    ensures { result.now ≡ part text.now at end }
{
    let n = text.len();
    if end < at {
        return &text[n..];
    }
    if n < end {
        return &text[n..];
    }
    &text[at..end]
}

// Where a line is wanted: its end and the next line's beginning, or the refusal where there is none.
pub fn wanted(line: Line) -> Result<Span, Refusal>
    ensures { result ≡ wanted line }
{
    match line {
        Line::Found { end, next } => Ok(Span { end, next }),
        Line::NoLine => Err(Refusal::NotALine),
        Line::End => Err(Refusal::WrongFrame),
    }
}

// The first place at or after `from` that holds no digit.
fn digits_end(text: &[u8], from: usize) -> usize
    requires { from ≤ length text.now }
    ensures { (result ≡ from + run (drop from text.now)) × (result ≤ length text.now) }
{
    let rest = &text[from..];
    from + rest
        .iter()
        .position(|c| 16 <= digit_value(*c))
        .unwrap_or(rest.len())
}

// What a character counts as a digit, 16 where it is none.
fn digit_value(c: u8) -> u8
    ensures { result ≡ digit c }
{
    match c {
        b'0'..=b'9' => c - b'0',
        b'a'..=b'f' => c - b'a' + 10,
        _ => 16,
    }
}
