// Tables of terms: a table's text is judged, and a good one becomes columns: for each term its kind, its
// payload, the definition that it stands in and the term behind it, and for each definition its root. It
// relies on the line reader for where a line ends and what its bytes are.
#![tactic(auto)]

ghost use Rattle.std.specs.Prelude.{◌≡◌, ◌≤◌, drop};
ghost use Rattle.lines.specs.Line.{lines};
ghost use Rattle.lines.specs.Judging.{judged_from};
ghost use Rattle.tables.specs.Table as of;
ghost use Rattle.tables.specs.Table.{Sofar, judged, seen, table_lines, within};
ghost use Rattle.columns.specs.words.Held.{held};
ghost use Rattle.tables.specs.Checked.{checked_told};
ghost use Rattle.tables.specs.words.Columns.{answer, with_columns, outcome};
ghost use Rattle.tables.specs.words.Filled.{begins, Fills};

use columns::Table;
use filling::{LEVEL_ROOM, take, walk};
use frames::{Seen, closes};
use line_reader::{Spelling, next_line};
use lines::{Line, Refusal, RefusedAt};
use refusals::{FrameLine, TableOpening, first_line, table_line};

// The room of a table's text.
pub const TABLE_TEXT_ROOM: usize = 32768;

// How much a table holds.
#[derive(Clone, Copy)]
pub struct TableCounts {
    pub definitions: usize,
    pub events: usize,
    pub terms: usize,
}

// Checks a table's text. Where it is accepted, the columns hold the table: `kinds`, `payloads` and `owners`,
// the definition that each term stands in, `after`, the term behind each term and its subterms, and `roots`,
// each definition's first term; zeros stand behind. A refusal leaves every column as it was.
pub fn check(text: &[u8], table: &mut Table) -> Result<TableCounts, RefusedAt>
    ensures { with_columns (checked_told result) (held table.new)
        ≡ outcome (held table.old) (judged text.now) }
{
    if TABLE_TEXT_ROOM < text.len() {
        return Err(Refusal::TextOverRoom.at(0));
    }
    let first = first_line(text);
    let Ok(opening) = first else {
        return Err(first.unwrap_err().at(1));
    };
    let mut own = Table::new();
    let counts = body(text, opening, &mut own)?;
    walk(&own.kinds, counts.terms, &mut own.after);
    *table = own;
    Ok(counts)
}

// The lines behind line 1, which opened the table, into a table of the caller's own.
fn body(text: &[u8], opening: TableOpening, table: &mut Table) -> Result<TableCounts, RefusedAt>
    requires { opening.definitions ≤ 64 }
    ensures fills { Fills
        (judged_from table_lines (within (begins opening.definitions opening.events)) 2
        (lines (drop opening.next text.now)))
        (checked_told result) table.new.kinds table.new.payloads table.new.owners table.new.roots
        table.old.kinds table.old.payloads table.old.owners table.old.roots }
    ensures after_kept { table.new.after ≡ table.old.after }
{
    let mut waiting = [0u8; LEVEL_ROOM];
    let mut s = Seen {
        definitions: opening.definitions,
        events: opening.events,
        begun: 0,
        terms: 0,
        due: 0,
        depth: 0,
    };
    let mut at = opening.next;
    let mut line: usize = 2;
    // No `for` over the lines' numbers: they have no end, and what would stand behind the loop is never reached.
    loop {
        let said = table_line(text, at, s);
        let Ok(FrameLine { frame, next }) = said else {
            return Err(said.unwrap_err().at(line));
        };
        if closes(frame) {
            return closed(text, next, s, line + 1);
        }
        s = take(frame, s, &mut waiting, table);
        at = next;
        line += 1;
    }
}

// Behind the last line nothing may stand.
fn closed(text: &[u8], at: usize, s: Seen, line: usize) -> Result<TableCounts, RefusedAt>
    ensures { (t : Sofar) → s ≡ seen t → checked_told result
        ≡ answer (judged_from table_lines (of.closed t) line (lines (drop at text.now))) }
{
    match next_line(text, at, Spelling::Desk) {
        Line::End => Ok(TableCounts {
            definitions: s.definitions,
            events: s.events,
            terms: s.terms,
        }),
        Line::NoLine => Err(Refusal::NotALine.at(line)),
        Line::Found { .. } => Err(Refusal::WrongFrame.at(line)),
    }
}
