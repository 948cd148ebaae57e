// The standing parts of a run's control: the whole, and, where a choice or parallel stands inside the sequences around
// it, its two sides, and so on. Nothing is written. It relies on the plan of the table, the words of the run, and on
// how `offers` follows them; what a part offers is `offers::offers_of_part`.
#![tactic(auto)]

ghost use Rattle.std.specs.Prelude.{◌≡◌};
ghost use Rattle.offers.specs.code.Following.{levels};
ghost use Rattle.parts.specs.code.Parts as code;
ghost use Rattle.parts.specs.words.Held.{HoldsWhole, StandingTold, SidesTold};

use control::{ENTERED, FIRST_SIDE, Nodes, OMEGA, SECOND_SIDE, STATE, TERM, UNTOUCHED, word};
use offers::{OFFER_LEVELS, first_of, inside};
use plans::{EXTERNAL_WORD, PARALLEL_WORD, Plan, SEQUENCE_WORD, kind_of, second_of};

// What stands at a reference up to a bound; at reference 0 a side that has not stepped, of a term.
#[derive(Clone, Copy)]
pub struct Part {
    pub reference: usize,
    pub term: usize,
    pub bound: usize,
}

// What stands in a part, inside the sequences around it: a term without sides of its own; a choice or parallel, which a
// step has entered or not; Ω; ⊥.
#[derive(Clone, Copy)]
pub enum Standing {
    Term { term: usize },
    Split { term: usize, entered: bool },
    Ended,
    Dead,
}

// The two sides of a choice or parallel.
#[derive(Clone, Copy)]
pub struct Sides {
    pub first: Part,
    pub second: Part,
}

// The whole control of a run at a reference.
pub fn whole(reference: usize) -> Part
    ensures value { result ≡ code.whole reference }
    ensures holds_whole { HoldsWhole reference result }
{
    Part {
        reference,
        term: 0,
        bound: 0,
    }
}

// What stands in a part.
pub fn standing_in(part: Part, plan: &Plan, nodes: &Nodes) -> Standing
    ensures value { result ≡ code.standing plan.now nodes.now part }
    ensures standing_told { StandingTold plan.now nodes.now part result }
{
    if part.reference == 0 {
        return of_term(part.term, plan);
    }
    let state = word(part.reference, STATE, nodes);
    let term = word(part.reference, TERM, nodes);
    match state {
        UNTOUCHED => of_term(term, plan),
        ENTERED => Standing::Split {
            term,
            entered: true,
        },
        OMEGA => Standing::Ended,
        _ => Standing::Dead,
    }
}

// The sides of the choice or parallel that stands in a part. Where none does, the answer says nothing.
pub fn sides_of(part: Part, plan: &Plan, nodes: &Nodes) -> Sides
    ensures value { result ≡ code.sides plan.now nodes.now part }
    ensures sides_told { SidesTold plan.now nodes.now part result }
{
    let n = part.reference;
    if n == 0 {
        return subterms(part.term, plan);
    }
    let term = word(n, TERM, nodes);
    if word(n, STATE, nodes) != ENTERED {
        return subterms(term, plan);
    }
    let bound = inside(n, term, plan, nodes);
    Sides {
        first: Part {
            reference: word(n, FIRST_SIDE, nodes),
            term: first_of(term),
            bound,
        },
        second: Part {
            reference: word(n, SECOND_SIDE, nodes),
            term: second_of(term, plan),
            bound,
        },
    }
}

// What stands in a term that no step has touched.
fn of_term(t: usize, plan: &Plan) -> Standing
    ensures { result ≡ code.of_term plan.now t }
{
    let term = unsequenced(t, plan);
    let kind = kind_of(term, plan);
    if kind == EXTERNAL_WORD || kind == PARALLEL_WORD {
        return Standing::Split {
            term,
            entered: false,
        };
    }
    Standing::Term { term }
}

// The subterms of what stands in a term that no step has touched, as sides that have not stepped.
fn subterms(t: usize, plan: &Plan) -> Sides
    ensures { result ≡ code.subterms plan.now t }
{
    let term = unsequenced(t, plan);
    Sides {
        first: Part {
            reference: 0,
            term: first_of(term),
            bound: 0,
        },
        second: Part {
            reference: 0,
            term: second_of(term, plan),
            bound: 0,
        },
    }
}

// The term that stands in a term, the sequences around it passed: of each its first subterm.
fn unsequenced(t: usize, plan: &Plan) -> usize
    ensures { result ≡ code.unsequenced levels plan.now t }
{
    let mut term = t;
    for _ in 0..OFFER_LEVELS {
        if kind_of(term, plan) != SEQUENCE_WORD {
            return term;
        }
        term = first_of(term);
    }
    term
}
