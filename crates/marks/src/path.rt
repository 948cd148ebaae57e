// Going down a path: from a term, digit by digit, to the literal that stands there, which its mark tells.
ghost use Rattle.std.specs.Prelude.{◌≡◌, ◌+◌, ◌<◌, drop, eqb};
ghost use Rattle.lines.specs.Line.{choose};
ghost use Rattle.numbers.specs.code.Numbers.{read_bytes};
ghost use Rattle.frames.specs.TableFrame.{term_room};
ghost use Rattle.columns.specs.words.Columns.{look};
ghost use Rattle.marks.specs.words.Mark.{event_mark};
ghost use Rattle.marks.specs.code.Followed as of;

use crate::{event_mark, own_mark};
use columns::{After, Table, after_of, kind_of};
use frames::TERM_ROOM;
use kinds::subterms;
use numbers::byte;

// The mark of the literal at the path that the bytes of the characters spell from byte `from` on, starting at term `root`; 0 where
// there is none, as a column of marks has it.
pub fn find(root: usize, chars: &[u8], from: usize, table: &Table) -> u16
    ensures { result ≡ of.find table.now.kinds table.now.after root
        (drop from (read_bytes chars.now)) }
{
    let count = chars.len() / 2;
    let mut term = root;
    for i in from..count {
        let digit = byte(chars, i);
        let below = subterms(kind_of(term, &table.kinds));
        if below == 0 {
            return 0;
        }
        term = match digit {
            1 if below == 2 => term + 1,
            1 => return event_end(term, i + 1 == count),
            2 => last_subterm(term, below, &table.after),
            _ => return 0,
        };
    }
    own_here(term)
}

// The mark of a prefix's event, where the path ends there; else 0, as a column has it.
fn event_end(term: usize, ends: bool) -> u16
    ensures { result ≡ choose ends (event_mark term) 0 }
{
    if ends { event_mark(term) as u16 } else { 0 }
}

// The last subterm of a term.
fn last_subterm(term: usize, below: u8, after: &After) -> usize
    requires { term < term_room }
    ensures { result ≡ choose (eqb below 2) (look term_room after.now (term + 1)) (term + 1) }
{
    if below == 2 {
        after_of(term + 1, after)
    } else {
        term + 1
    }
}

// The mark of a term's own literal; 0 where there is no such term, as a column has it.
fn own_here(term: usize) -> u16
    ensures { result ≡ of.own_here term }
{
    if term < TERM_ROOM {
        own_mark(term) as u16
    } else {
        0
    }
}
