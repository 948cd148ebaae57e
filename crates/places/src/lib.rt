// Places of literals, worked out by following the terms of a checked table downward.
// It relies on the columns of the table check and on the constant table by kind.
#![tactic(auto)]

mod descent;

ghost use Rattle.std.specs.Prelude.{◌≡◌, ◌≤◌};
ghost use Rattle.std.proofs.lemmas.List.Edits.{sets};
ghost use Rattle.places.specs.code.Descent.{answer, digits, literal_path, reached, path_of, event_of};
ghost use Rattle.columns.specs.words.Held.{placing};
ghost use Rattle.frames.specs.TableFrame.{path_room};

use columns::{Table, kind_of, owner_of, root_of};
use descent::descend;
use frames::PATH_ROOM;
use kinds::PREFIX;

// The path of a literal, in front of what stood there.
// An array of its room, with no heap: how many digits count is answered beside it.
pub type Path = [u8; PATH_ROOM];

// A literal: the left-hand side of a definition; the own literal of a term, by its number, which for a prefix
// is the arrow; or the event of a prefix.
#[derive(Clone, Copy, PartialEq, Eq)]
pub enum Literal {
    Left(u8),
    Own(usize),
    Event(usize),
}

// Where a literal stands: its definition, and how many digits its path has, which stands in front of the lent array.
#[derive(Clone, Copy, PartialEq, Eq)]
pub struct Placed {
    pub definition: u8,
    pub length: usize,
}

// A step downward: the subterm, and its digit.
#[derive(Clone, Copy)]
pub struct StepDown {
    pub next: usize,
    pub digit: u8,
}

// The place of a literal by the columns of a table, whose path's digits go to the front of `path`; none, with `path` as it was,
// where the columns hold no such literal.
pub fn place(literal: Literal, table: &Table, path: &mut Path) -> Option<Placed>
    ensures value { result ≡ answer
        (placing table.now)
        literal }
    ensures path_after { path.new ≡ sets path.old 0 (digits (literal_path
        (placing table.now)
        literal)) }
{
    let (definition, length) = match literal {
        Literal::Left(definition) => {
            path[0] = 0;
            (definition, 1)
        }
        Literal::Own(n) => {
            let length = path_to(n, PATH_ROOM, table, path)?;
            (owner_of(n, &table.owners), length)
        }
        Literal::Event(n) => {
            let length = event_to(n, table, path)?;
            (owner_of(n, &table.owners), length)
        }
    };
    Some(Placed { definition, length })
}

// Writes the path of a term's own literal, of at most so many digits.
fn path_to(n: usize, most: usize, table: &Table, path: &mut Path) -> Option<usize>
    requires { most ≤ path_room }
    ensures value { result ≡ reached 0 (path_of most
        (placing table.now)
        n) }
    ensures path_after { path.new ≡ sets path.old 0 (digits (path_of most
        (placing table.now)
        n)) }
{
    let definition = owner_of(n, &table.owners);
    let root = root_of(usize::from(definition), &table.roots);
    descend(root, n, most, table, path)
}

// Writes the path of a prefix's event: its prefix's, and the digit 1.
fn event_to(n: usize, table: &Table, path: &mut Path) -> Option<usize>
    ensures value { result ≡ reached 0 (event_of
        (placing table.now)
        n) }
    ensures path_after { path.new ≡ sets path.old 0 (digits (event_of
        (placing table.now)
        n)) }
{
    let kind = kind_of(n, &table.kinds);
    if kind != PREFIX {
        return None;
    }
    let length = path_to(n, PATH_ROOM - 1, table, path)?;
    path[length] = 1;
    Some(length + 1)
}
