// What a step looks up on its way: a digit, the side that it names, a split's set and frame, and the parents of two ended
// sides. Nothing is written. It relies on the plan of the table and the words of the run.
#![tactic(auto)]

ghost use Rattle.std.specs.Prelude.{◌≡◌};
ghost use Rattle.looking.specs.code.Looking as spec;

use control::{Track, track_word};
use plans::{EXTERNAL_WORD, PARALLEL_WORD, Plan, around_of};
use rules::ARC_ROOM;
use scripts::Digits;

// The digit at a place of an address, 0 behind its last. How many digits count stands beside them, here and wherever a step reads
// them, since C's block of a run has the digits alone.
pub fn digit_at(at: usize, count: usize, digits: &Digits) -> usize
    ensures { result ≡ spec.digit_at digits.now count at }
{
    if at < count {
        usize::from(digits.get(at).copied().unwrap_or(0))
    } else {
        0
    }
}

// An external choice or a parallel.
pub fn is_split(kind: usize) -> bool
    ensures { result ≡ spec.is_split kind }
{
    kind == EXTERNAL_WORD || kind == PARALLEL_WORD
}

// A digit that names a side, or both.
pub fn is_side(digit: usize) -> bool
    ensures { result ≡ spec.is_side digit }
{
    1 <= digit && digit <= 3
}

// Of two sides, the one that a digit goes to first.
pub fn taken(digit: usize, first: usize, second: usize) -> usize
    ensures { result ≡ spec.taken digit first second }
{
    if digit == 2 { second } else { first }
}

// A sequence is around a term, by its frame or in the plan.
pub fn is_within(nested: bool, around: usize) -> bool
    ensures { result ≡ spec.is_within nested around }
{
    nested || around != 0
}

// The frame of what is called or chosen inside a term: its reference where a sequence is around the term.
pub fn beyond(t: usize, n: usize, frame: usize, plan: &Plan) -> usize
    ensures { result ≡ spec.beyond plan.now t n frame }
{
    if around_of(t, plan) == 0 { frame } else { n }
}

// The frame that ends the sequences of a split's sides.
pub fn inside_of(kind: usize, t: usize, n: usize, frame: usize, plan: &Plan) -> usize
    ensures { result ≡ spec.inside plan.now kind t n frame }
{
    if kind == PARALLEL_WORD {
        n
    } else {
        beyond(t, n, frame, plan)
    }
}

// How many of the first arcs lead to one of two references.
pub fn parents(first: usize, second: usize, arcs: usize, track: &Track) -> usize
    ensures { result ≡ spec.parents track.now first second 0 arcs }
{
    let mut found: usize = 0;
    for i in 0..arcs.min(ARC_ROOM) {
        let to = track_word(2 * i + 1, track);
        if leads(to, first, second) {
            found += 1;
        }
    }
    found
}

pub fn leads(to: usize, first: usize, second: usize) -> bool
    ensures { result ≡ spec.leads to first second }
{
    to == first || to == second
}
