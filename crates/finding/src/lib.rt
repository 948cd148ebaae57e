// The mark of a node by its line: its number and its place have to be a node's, and the literal is found by the line's path.
#![tactic(auto)]

ghost use Rattle.std.specs.Prelude.{◌≡◌};
ghost use Rattle.numbers.specs.code.Numbers.{read_bytes};
ghost use Rattle.graphs.specs.Parsed.{place_at};
ghost use Rattle.finding.specs.code.Found as of;
ghost use Rattle.finding.specs.words.Node.{label_at};

use columns::{Table, root_of};
use marks::{START_MARK, find};
use numbers::{byte, byte_at, number_at};

// Where a node's line has its number, its definition and its path.
const NUMBER_AT: usize = 1;

const DEFINITION_AT: usize = 3;

const PATH_AT: usize = 5;

// The mark of node k by its line; 0, as a column has it, where the line has another number, or a place that is not a node's.
pub fn mark_of(k: usize, chars: &[u8], table: &Table) -> u16
    ensures { result ≡ of.mark_of table.now.kinds table.now.after table.now.roots k
        (label_at (read_bytes chars.now)) }
{
    if number_at(chars, NUMBER_AT) != k {
        return 0;
    }
    if k == 0 {
        return start_mark(chars);
    }
    find(
        root_of(byte_at(chars, DEFINITION_AT), &table.roots),
        chars,
        PATH_AT,
        table,
    )
}

// The mark of node 0: path 0 of definition 00; else 0, as a column has it.
fn start_mark(chars: &[u8]) -> u16
    ensures { result ≡ of.start_here (place_at (read_bytes chars.now)) }
{
    if chars.len() / 2 != PATH_AT + 1
        || byte(chars, DEFINITION_AT) != 0
        || byte(chars, PATH_AT) != 0
    {
        return 0;
    }
    START_MARK as u16
}
