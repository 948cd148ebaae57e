// Weighing a step: what the derivation that an address names would show and add, read off the control and the
// terms below it, from the outside inward. Nothing is written. The recursion goes at most 2,048 calls deep.
#![tactic(auto)]

ghost use Rattle.std.specs.Prelude.{◌≡◌};
ghost use Rattle.weighing.specs.code.Weigh as spec;
ghost use Rattle.weighing.specs.code.Ending as ending;

use columns::payload_of;
use control::{ENTERED, FRAME, OMEGA, SIDES, SIZES, STATE, TERM, UNTOUCHED, Words, sum, word};
use looking::{digit_at, inside_of, is_side, is_split, is_within, parents, taken};
use plans::{PARALLEL_WORD, SEQUENCE_WORD, Show, around_of, kind_of, operand_of, second_of};
use scripts::Digits;
use weights::{Weight, both, by_leaf, end_of, ended, entering, one};

// How many levels of a term are gone down to, at most: a path has at most 64 digits.
const WEIGH_LEVELS: usize = 66;

// Weighs the step of a term that no step has touched, by the digits from `at` on; `nested` where a sequence is
// around it by its frame. Its part of control has `size` cells. The digits' count stands beside them (`looking::digit_at`), here and
// in `weigh_at`.
fn weigh_term(
    t: usize,
    nested: bool,
    at: usize,
    size: usize,
    left: usize,
    count: usize,
    digits: &Digits,
    show: &Show,
) -> Option<Weight>
    ensures { result ≡ spec.of_term show.now.plan show.now.table.payloads count digits.now
        left t nested at size }
{
    if left == 0 {
        return None;
    }
    let kind = kind_of(t, &show.plan);
    let less = left - 1;
    let first = sum(t, 1);
    if kind == SEQUENCE_WORD {
        let larger = sum(size, 1);
        return weigh_term(first, nested, at, larger, less, count, digits, show);
    }
    let digit = digit_at(at, count, digits);
    let within = is_within(nested, around_of(t, &show.plan));
    if !is_split(kind) {
        return by_leaf(kind, operand_of(t, &show.plan), digit, within, at, size);
    }
    if !is_side(digit) {
        return None;
    }
    let second = second_of(t, &show.plan);
    let next = sum(at, 1);
    let set = payload_of(t, &show.table.payloads);
    let larger = sum(size, 2);
    let taken = taken(digit, first, second);
    let found = entering(
        weigh_term(taken, false, next, 1, less, count, digits, show),
        1,
    );
    if digit != 3 {
        return one(kind, set, found, larger, 1, 1, within);
    }
    let from = end_of(found, count);
    let other = entering(
        weigh_term(second, false, from, 1, less, count, digits, show),
        0,
    );
    both(kind, set, found, other, larger, 1, 1)
}

// Weighs the step of what stands at reference n, inside sequences up to frame `bound`; where n is 0, of term t,
// a side that has not stepped yet.
pub fn weigh_at(
    n: usize,
    t: usize,
    bound: usize,
    at: usize,
    size: usize,
    left: usize,
    count: usize,
    arcs: usize,
    digits: &Digits,
    show: &Show,
    words: &Words,
) -> Option<Weight>
    ensures { result ≡ spec.at_reference show.now.plan show.now.table.payloads count digits.now
        words.now.nodes words.now.track arcs left n t bound at size }
{
    if left == 0 {
        return None;
    }
    if n == 0 {
        let found = weigh_term(t, false, at, 1, WEIGH_LEVELS, count, digits, show);
        return entering(found, 0);
    }
    let state = word(n, STATE, &words.nodes);
    let term = word(n, TERM, &words.nodes);
    let frame = word(n, FRAME, &words.nodes);
    if state == UNTOUCHED {
        return weigh_term(
            term,
            frame != bound,
            at,
            size,
            WEIGH_LEVELS,
            count,
            digits,
            show,
        );
    }
    if state != ENTERED {
        return None;
    }
    let kind = kind_of(term, &show.plan);
    let digit = digit_at(at, count, digits);
    let within = is_within(frame != bound, around_of(term, &show.plan));
    if digit == 4 {
        return weigh_end(n, kind, at, size, within, arcs, words);
    }
    if !is_side(digit) {
        return None;
    }
    let second = second_of(term, &show.plan);
    let next = sum(at, 1);
    let set = payload_of(term, &show.table.payloads);
    let less = left - 1;
    let inside = inside_of(kind, term, n, frame, &show.plan);
    let side = taken(digit, 1, 2);
    let own = word(n, SIZES + side, &words.nodes);
    let other = word(n, SIZES + 3 - side, &words.nodes);
    let reference = word(n, SIDES + side, &words.nodes);
    let subterm = taken(digit, sum(term, 1), second);
    let found = weigh_at(
        reference, subterm, inside, next, own, less, count, arcs, digits, show, words,
    );
    if digit != 3 {
        return one(kind, set, found, size, own, other, within);
    }
    let from = end_of(found, count);
    let right = word(n, SIDES + 2, &words.nodes);
    let across = weigh_at(
        right, second, inside, from, other, less, count, arcs, digits, show, words,
    );
    both(kind, set, found, across, size, own, other)
}

// Weighs the end of a parallel whose sides have ended.
fn weigh_end(
    n: usize,
    kind: usize,
    at: usize,
    size: usize,
    within: bool,
    arcs: usize,
    words: &Words,
) -> Option<Weight>
    ensures { result ≡ ending.weigh_end words.now.nodes words.now.track arcs n kind at size within }
{
    if kind != PARALLEL_WORD {
        return None;
    }
    let first = word(n, SIDES + 1, &words.nodes);
    let second = word(n, SIDES + 2, &words.nodes);
    if word(first, STATE, &words.nodes) != OMEGA || word(second, STATE, &words.nodes) != OMEGA {
        return None;
    }
    ended(at, size, parents(first, second, arcs, &words.track), within)
}
