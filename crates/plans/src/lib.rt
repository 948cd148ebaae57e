// The plan of a checked table: four words for each of its terms, as a step and its offers read them: its kind;
// its operand, which is a prefix's event or the root that a call leads to; its second subterm; and the
// sequence around it. It relies on the columns of the table check.
#![tactic(auto)]

mod laying;

ghost use Rattle.std.specs.Prelude.{◌≡◌, ◌<◌};
ghost use Rattle.columns.specs.words.Held.{held, no_terms};
ghost use Rattle.plans.specs.words.Plan as of;

use columns::Table;
use frames::TERM_ROOM;
use kinds::{CALL, EXTERNAL, INTERNAL, PARALLEL, PREFIX, SEQUENCE, SKIP, STOP};
pub use laying::lay_out;

// A plan: four words for each term.
pub const PLAN_WORDS: usize = 4096;

// An array of its room, with no heap.
pub type Plan = [u16; PLAN_WORDS];

// A checked table with its plan, as a run is of. A host keeps it as C lays it out.
#[repr(C)]
#[derive(Drop)]
pub struct Show {
    pub table: Table,
    pub plan: Plan,
}

impl Show {
    // A table of no term, with a plan of none.
    pub fn new() -> Show
        ensures table_of_none { held result.table ≡ no_terms }
        ensures plan_of_none { result.plan ≡ of.no_plan }
    {
        Show {
            table: Table::new(),
            plan: [0; PLAN_WORDS],
        }
    }
}

// The kinds of terms, as a plan's words have them. Words and no enum: a plan that C lends may have any, and `kind_of` answers with
// what stands there. `usize::from` does not stand in a constant.
pub const CALL_WORD: usize = CALL as usize;

pub const PREFIX_WORD: usize = PREFIX as usize;

pub const INTERNAL_WORD: usize = INTERNAL as usize;

pub const EXTERNAL_WORD: usize = EXTERNAL as usize;

pub const SEQUENCE_WORD: usize = SEQUENCE as usize;

pub const PARALLEL_WORD: usize = PARALLEL as usize;

pub const SKIP_WORD: usize = SKIP as usize;

pub const STOP_WORD: usize = STOP as usize;

// A term's kind, 0 where there is no such term.
pub fn kind_of(t: usize, plan: &Plan) -> usize
    ensures { result ≡ of.kind plan.now t }
{
    word(t, 0, plan)
}

// A prefix's event; the root that a call leads to.
pub fn operand_of(t: usize, plan: &Plan) -> usize
    ensures { result ≡ of.operand plan.now t }
{
    word(t, 1, plan)
}

// A term's second subterm; its first is the term behind it.
pub fn second_of(t: usize, plan: &Plan) -> usize
    ensures { result ≡ of.second plan.now t }
{
    word(t, 2, plan)
}

// One more than the nearest sequence that a term stands in the left of, with no choice or parallel between;
// 0 where there is none.
pub fn around_of(t: usize, plan: &Plan) -> usize
    ensures { result ≡ of.around plan.now t }
{
    word(t, 3, plan)
}

// Word k of a term.
fn word(t: usize, k: usize, plan: &Plan) -> usize
    requires { k < 4 }
    ensures { result ≡ of.word k plan.now t }
{
    // Past the last term 4 * t could overflow, so it is tested.
    if t < TERM_ROOM {
        usize::from(plan[4 * t + k])
    } else {
        0
    }
}
