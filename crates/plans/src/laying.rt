// The plan of a table laid out from the columns of its check, a term at a time: its own words are its kind,
// its operand and its second subterm, and it tells its subterms which sequence is around them.
ghost use Rattle.std.specs.Prelude.{◌≡◌, ◌<◌};
ghost use Rattle.frames.specs.TableFrame.{term_room};
ghost use Rattle.plans.specs.code.Laid as of;

use crate::{PLAN_WORDS, Plan};
use columns::{After, Roots, Table, after_word, root_word};
use frames::TERM_ROOM;
use kinds::{CALL, EXTERNAL, PARALLEL, PREFIX, SEQUENCE, subterms};

// The words of a term.
const KIND: usize = 0;

const OPERAND: usize = 1;

const SECOND: usize = 2;

const AROUND: usize = 3;

// Lays out the plan of a table of so many terms. What leads out of range, as no checked table's columns do, is
// passed over.
pub fn lay_out(terms: usize, table: &Table, plan: &mut Plan)
    ensures { plan.new
        ≡ of.laid_out terms table.now.kinds table.now.payloads table.now.after
        table.now.roots }
{
    *plan = [0u16; PLAN_WORDS];
    for t in 0..terms.min(TERM_ROOM) {
        let kind = table.kinds[t];
        let operand = operand_to(kind, table.payloads[t], &table.roots);
        let second = second_to(kind, t, &table.after);
        lay_term(t, kind, operand, second, plan);
    }
}

// A term's turn.
fn lay_term(t: usize, kind: u8, operand: u16, second: u16, plan: &mut Plan)
    requires { t < term_room }
    ensures { plan.new ≡ of.laid kind operand second t plan.old }
{
    let around = plan[4 * t + AROUND];
    let inside = inward(kind, t, around);
    let passed = through(kind, around);
    put_own(t, kind, operand, second, plan);
    let count = subterms(kind);
    if count == 0 {
        return;
    }
    put(t + 1, AROUND, inside, plan);
    if count == 1 {
        return;
    }
    put(usize::from(second), AROUND, passed, plan);
}

// Puts a term's own words.
fn put_own(t: usize, kind: u8, operand: u16, second: u16, plan: &mut Plan)
    ensures { plan.new ≡ of.own_words kind operand second t plan.old }
{
    put(t, KIND, u16::from(kind), plan);
    put(t, OPERAND, operand, plan);
    put(t, SECOND, second, plan);
}

// A prefix's event; the root that a call leads to; 0 for any other term.
fn operand_to(kind: u8, payload: u64, roots: &Roots) -> u16
    ensures { result ≡ of.operand_of kind payload roots.now }
{
    match kind {
        PREFIX => (payload % 65536) as u16,
        // No `From` makes a u64 a usize.
        CALL => root_word(payload as usize, roots),
        _ => 0,
    }
}

// The second subterm of term t, the term behind its first; 0 where it has no two.
fn second_to(kind: u8, t: usize, after: &After) -> u16
    requires { t < term_room }
    ensures { result ≡ of.second_of kind t after.now }
{
    if subterms(kind) == 2 {
        after_word(t + 1, after)
    } else {
        0
    }
}

// What the first subterm of term t is told: of term t itself, where that is a sequence.
fn inward(kind: u8, t: usize, around: u16) -> u16
    requires { t < term_room }
    ensures { result ≡ of.inward kind t around }
{
    if kind == SEQUENCE {
        (t + 1) as u16
    } else {
        through(kind, around)
    }
}

// What a subterm is told of the sequence around its term: nothing through an external choice or a parallel.
fn through(kind: u8, around: u16) -> u16
    ensures { result ≡ of.through kind around }
{
    match kind {
        PARALLEL | EXTERNAL => 0,
        _ => around,
    }
}

// Puts word k of a term. The test stands first: `4 * t` could overflow before a `get_mut`, behind which a proof knows no word.
fn put(t: usize, k: usize, value: u16, plan: &mut Plan)
    requires { k < 4 }
    ensures { plan.new ≡ of.put k t value plan.old }
{
    if t < TERM_ROOM {
        plan[4 * t + k] = value;
    }
}
