// The step of an address taken: from the outside inward, by the digits that name it. Only a step that was weighed, and fits,
// is taken. It relies on the steps of leaves and on the sides of a choice or parallel.
#![tactic(auto)]

ghost use Rattle.std.specs.Prelude.{◌≡◌};
ghost use Rattle.leaves.specs.code.Leaves.{with_words};
ghost use Rattle.stepping.specs.code.Take as spec;

use control::{FRAME, SIDES, SIZES, STATE, TERM, UNTOUCHED, Words, put, sum, word};
use drawing::Tally;
use leaves::{Taken, come, take_end, take_leaf};
use looking::{digit_at, inside_of, is_split, taken};
use plans::{Plan, SEQUENCE_WORD, kind_of, second_of};
use rules::Event;
use scripts::Digits;
use sides::{close_both, close_one, enter, enter_side, put_side};

// Takes the step of what stands at reference n, inside sequences up to frame `bound`, by the digits from `at` on, whose count
// stands beside them (`looking::digit_at`).
pub fn take(
    n: usize,
    bound: usize,
    at: usize,
    size: usize,
    left: usize,
    count: usize,
    tally: Tally,
    digits: &Digits,
    plan: &Plan,
    words: &mut Words,
) -> Taken
    ensures { with_words result words.new.nodes words.new.track
        ≡ spec.take plan.now count digits.now left n bound at size tally
        words.old.nodes words.old.track }
{
    if left == 0 {
        return come(Event::Tau, n, size, at, tally);
    }
    let less = left - 1;
    let t = word(n, TERM, &words.nodes);
    let kind = kind_of(t, plan);
    let digit = digit_at(at, count, digits);
    if word(n, STATE, &words.nodes) == UNTOUCHED {
        if kind == SEQUENCE_WORD {
            put(n, TERM, sum(t, 1), &mut words.nodes);
            let larger = sum(size, 1);
            return take(
                n, bound, at, larger, less, count, tally, digits, plan, words,
            );
        }
        if is_split(kind) {
            let entered = enter(n, t, tally, &mut words.nodes);
            let larger = sum(size, 2);
            return take(
                n, bound, at, larger, less, count, entered, digits, plan, words,
            );
        }
        return take_leaf(n, bound, at, size, digit, tally, plan, words);
    }
    if digit == 4 {
        return take_end(n, bound, at, size, tally, plan, words);
    }
    let inside = inside_of(kind, t, n, word(n, FRAME, &words.nodes), plan);
    let side = taken(digit, 1, 2);
    let own = word(n, SIZES + side, &words.nodes);
    let other = word(n, SIZES + 3 - side, &words.nodes);
    let second = second_of(t, plan);
    let subterm = taken(digit, sum(t, 1), second);
    let drawn = enter_side(n, side, subterm, inside, tally, words);
    let reference = word(n, SIDES + side, &words.nodes);
    let next = sum(at, 1);
    let done = take(
        reference, inside, next, own, less, count, drawn, digits, plan, words,
    );
    if digit != 3 {
        return close_one(n, side, bound, size, own, other, done, plan, words);
    }
    put_side(n, 1, done.reference, done.size, &mut words.nodes);
    let entered = enter_side(n, 2, second, inside, done.tally, words);
    let right = word(n, SIDES + 2, &words.nodes);
    let across = take(
        right, inside, done.at, other, less, count, entered, digits, plan, words,
    );
    close_both(n, size, own, other, tally.met, done, across, words)
}
