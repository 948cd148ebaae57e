// Following terms downward: from a term to one of its subterms, a digit a step, in one pass.
ghost use Rattle.std.specs.Prelude.{◌≡◌, ◌≤◌, ◌<◌};
ghost use Rattle.std.proofs.lemmas.List.Edits.{sets};
ghost use Rattle.places.specs.code.Descent as code;
ghost use Rattle.places.specs.code.Descent.{descended, reached, digits};
ghost use Rattle.frames.specs.TableFrame.{path_room, term_room};

use crate::{Path, StepDown};
use columns::{After, Table, after_of, kind_of};
use kinds::subterms;

// Writes the digits from term `from` down to term `to`, at most so many, in front of `path`; nothing is written where
// there is no such way.
pub fn descend(from: usize, to: usize, most: usize, table: &Table, path: &mut Path) -> Option<usize>
    requires { most ≤ path_room }
    ensures value { result ≡ reached 0
        (descended most table.now.kinds table.now.after from to) }
    ensures path_after { path.new ≡ sets path.old 0 (digits
        (descended most table.now.kinds table.now.after from to)) }
{
    let mut way = *path;
    let mut here = from;
    let mut depth = 0;
    // A `for` over the depths would have to ask once more behind it whether the way has ended.
    while here != to {
        let count = subterms(kind_of(here, &table.kinds));
        if most <= depth || count == 0 {
            return None;
        }
        let step = step_to(here, to, count, &table.after);
        way[depth] = step.digit;
        here = step.next;
        depth += 1;
    }
    *path = way;
    Some(depth)
}

// The subterm of a term that `to` stands in, where the term has so many.
fn step_to(from: usize, to: usize, count: u8, after: &After) -> StepDown
    requires { from < term_room }
    ensures { (result.next ≡ code.next count after.now from to)
        × (result.digit ≡ code.digit count after.now from to) }
{
    let first = from + 1;
    if count != 2 {
        return StepDown {
            next: first,
            digit: 2,
        };
    }
    let second = after_of(first, after);
    if second <= to {
        return StepDown {
            next: second,
            digit: 2,
        };
    }
    StepDown {
        next: first,
        digit: 1,
    }
}
