// The columns of a checked table: what each has at a number, 0 out of range.
#![tactic(auto)]

ghost use Rattle.std.specs.Prelude.{◌≡◌};
ghost use Rattle.frames.specs.TableFrame.{term_room, definition_room};
ghost use Rattle.columns.specs.words.Columns.{look};
ghost use Rattle.columns.specs.words.Held.{held, no_terms};

use frames::{DEFINITION_ROOM, TERM_ROOM};

// The columns, which are arrays of a table's room: memory is fixed here, and no heap is asked for any.
pub type Kinds = [u8; TERM_ROOM];

pub type Payloads = [u64; TERM_ROOM];

pub type Owners = [u8; TERM_ROOM];

pub type After = [u16; TERM_ROOM];

pub type Roots = [u16; DEFINITION_ROOM];

// A table: a column for each thing that is known of a term, by its number in preorder over the whole table, which are its kind,
// its payload, the definition that it stands in, and the term behind it and its subterms; and one for the definitions' roots.
// A host keeps it as C lays it out.
#[repr(C)]
#[derive(Drop)]
pub struct Table {
    pub kinds: Kinds,
    pub payloads: Payloads,
    pub owners: Owners,
    pub after: After,
    pub roots: Roots,
}

impl Table {
    // Columns of no term, all 0.
    pub fn new() -> Table
        ensures { held result ≡ no_terms }
    {
        Table {
            kinds: [0; TERM_ROOM],
            payloads: [0; TERM_ROOM],
            owners: [0; TERM_ROOM],
            after: [0; TERM_ROOM],
            roots: [0; DEFINITION_ROOM],
        }
    }
}

// The kind of a term.
pub fn kind_of(n: usize, kinds: &Kinds) -> u8
    ensures { result ≡ look term_room kinds.now n }
{
    kinds.get(n).copied().unwrap_or(0)
}

// The payload of a term: a call's definition, a prefix's event, a parallel's set.
pub fn payload_of(n: usize, payloads: &Payloads) -> u64
    ensures { result ≡ look term_room payloads.now n }
{
    payloads.get(n).copied().unwrap_or(0)
}

// The definition that a term stands in.
pub fn owner_of(n: usize, owners: &Owners) -> u8
    ensures { result ≡ look term_room owners.now n }
{
    owners.get(n).copied().unwrap_or(0)
}

// The number of the term behind a term and its subterms, as a number and as its word.
pub fn after_of(n: usize, after: &After) -> usize
    ensures { result ≡ look term_room after.now n }
{
    usize::from(after_word(n, after))
}

pub fn after_word(n: usize, after: &After) -> u16
    ensures { result ≡ look term_room after.now n }
{
    after.get(n).copied().unwrap_or(0)
}

// The number of a definition's root, as a number and as its word.
pub fn root_of(definition: usize, roots: &Roots) -> usize
    ensures { result ≡ look definition_room roots.now definition }
{
    usize::from(root_word(definition, roots))
}

pub fn root_word(definition: usize, roots: &Roots) -> u16
    ensures { result ≡ look definition_room roots.now definition }
{
    roots.get(definition).copied().unwrap_or(0)
}
