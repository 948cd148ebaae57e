// The steps that look no further down: of call, prefix, internal choice, SKIP and STOP, of two ended sides, and of a sequence
// whose left has ended. It relies on what a step writes.
#![tactic(auto)]

ghost use Rattle.std.specs.Prelude.{◌≡◌};
ghost use Rattle.leaves.specs.code.Leaves as spec;

use control::{BOTTOM, FRAME, OMEGA, SIDES, TERM, UNTOUCHED, Words, less, sum, word};
use drawing::{Tally, draw, join, keep, label, past_fresh, stand};
use looking::{beyond, taken};
use marks::{START_MARK, event_mark, own_mark};
use plans::{
    CALL_WORD, PREFIX_WORD, Plan, SKIP_WORD, STOP_WORD, around_of, kind_of, operand_of, second_of,
};
use rules::Event;

// What a step of a part of control comes to: its event; the reference of what stands there now; its cells; where its
// digits end; and how far the run has come.
#[derive(Clone, Copy)]
pub struct Taken {
    pub event: Event,
    pub reference: usize,
    pub size: usize,
    pub at: usize,
    pub tally: Tally,
}

// The start's call, at reference 0: its node is labelled with the left-hand side of definition 00, whose root is term 0.
pub fn call_start(tally: Tally, words: &mut Words) -> Taken
    ensures { spec.with_words result words.new.nodes words.new.track
        ≡ spec.called tally words.old.nodes words.old.track }
{
    let next = tally.fresh;
    let drawn = draw(
        0,
        label(0, START_MARK, tally, &mut words.nodes),
        &mut words.track,
    );
    stand(next, UNTOUCHED, 0, 0, &mut words.nodes);
    come(Event::Tau, next, 1, 0, drawn)
}

// The step of a term that no step has touched, and that is no sequence, choice or parallel.
pub fn take_leaf(
    n: usize,
    bound: usize,
    at: usize,
    size: usize,
    digit: usize,
    tally: Tally,
    plan: &Plan,
    words: &mut Words,
) -> Taken
    ensures { spec.with_words result words.new.nodes words.new.track
        ≡ spec.leaf plan.now n bound at size digit tally words.old.nodes words.old.track }
{
    let t = word(n, TERM, &words.nodes);
    let frame = word(n, FRAME, &words.nodes);
    let kind = kind_of(t, plan);
    if kind == PREFIX_WORD {
        let event = operand_of(t, plan);
        return take_prefix(n, t, frame, event, at, size, tally, words);
    }
    let next = tally.fresh;
    let drawn = draw(
        n,
        label(n, own_mark(t), tally, &mut words.nodes),
        &mut words.track,
    );
    if kind == SKIP_WORD {
        stand(next, OMEGA, 0, 0, &mut words.nodes);
        let ended = come(Event::Tick, next, size, at, drawn);
        return settle(ended, t, frame, bound, plan, words);
    }
    if kind == STOP_WORD {
        stand(next, BOTTOM, t, frame, &mut words.nodes);
        return come(Event::Tau, next, size, at, drawn);
    }
    if kind == CALL_WORD {
        let root = operand_of(t, plan);
        let outer = beyond(t, n, frame, plan);
        stand(next, UNTOUCHED, root, outer, &mut words.nodes);
        return come(Event::Tau, next, size, at, drawn);
    }
    let side = taken(digit, sum(t, 1), second_of(t, plan));
    stand(next, UNTOUCHED, side, frame, &mut words.nodes);
    come(Event::Tau, next, size, sum(at, 1), drawn)
}

// A prefix: its event's node, and then its arrow's.
fn take_prefix(
    n: usize,
    t: usize,
    frame: usize,
    event: usize,
    at: usize,
    size: usize,
    tally: Tally,
    words: &mut Words,
) -> Taken
    ensures { spec.with_words result words.new.nodes words.new.track
        ≡ spec.prefix n t frame event at size tally words.old.nodes words.old.track }
{
    let arrow = tally.fresh;
    let first = draw(
        n,
        label(n, event_mark(t), tally, &mut words.nodes),
        &mut words.track,
    );
    let next = first.fresh;
    let second = draw(
        arrow,
        label(arrow, own_mark(t), first, &mut words.nodes),
        &mut words.track,
    );
    let kept = keep(n, second, &mut words.track);
    stand(next, UNTOUCHED, sum(t, 1), frame, &mut words.nodes);
    come(Event::Visible((event % 256) as u8), next, size, at, kept)
}

// Two ended sides end their parallel, at reference n.
pub fn take_end(
    n: usize,
    bound: usize,
    at: usize,
    size: usize,
    tally: Tally,
    plan: &Plan,
    words: &mut Words,
) -> Taken
    ensures { spec.with_words result words.new.nodes words.new.track
        ≡ spec.end plan.now n bound at size tally words.old.nodes words.old.track }
{
    let next = tally.fresh;
    let first = word(n, SIDES + 1, &words.nodes);
    let second = word(n, SIDES + 2, &words.nodes);
    let joined = past_fresh(join(first, second, next, tally, &mut words.track));
    stand(next, OMEGA, 0, 0, &mut words.nodes);
    let ended = come(Event::Tick, next, less(size, 2), sum(at, 1), joined);
    let t = word(n, TERM, &words.nodes);
    let frame = word(n, FRAME, &words.nodes);
    settle(ended, t, frame, bound, plan, words)
}

// What a step comes to inside the sequences around term t: a ✓ starts the right of the innermost, where there is one
// before the frame `bound`.
pub fn settle(
    done: Taken,
    t: usize,
    frame: usize,
    bound: usize,
    plan: &Plan,
    words: &mut Words,
) -> Taken
    ensures { spec.with_words result words.new.nodes words.new.track
        ≡ spec.settled plan.now done t frame bound words.old.nodes words.old.track }
{
    let event = done.event;
    let Event::Tick = event else {
        return done;
    };
    let around = around_of(t, plan);
    if around != 0 {
        return start(done, less(around, 1), frame, plan, words);
    }
    if frame == bound {
        return done;
    }
    let outer = around_of(word(frame, TERM, &words.nodes), plan);
    let behind = word(frame, FRAME, &words.nodes);
    start(done, less(outer, 1), behind, plan, words)
}

// Sequence k, whose left has ended, starts its right.
fn start(done: Taken, k: usize, frame: usize, plan: &Plan, words: &mut Words) -> Taken
    ensures { spec.with_words result words.new.nodes words.new.track
        ≡ spec.started plan.now done k frame words.old.nodes words.old.track }
{
    let last = done.reference;
    let tally = done.tally;
    let next = tally.fresh;
    let drawn = draw(
        last,
        label(last, own_mark(k), tally, &mut words.nodes),
        &mut words.track,
    );
    stand(next, UNTOUCHED, second_of(k, plan), frame, &mut words.nodes);
    come(Event::Tau, next, less(done.size, 1), done.at, drawn)
}

pub fn come(event: Event, reference: usize, size: usize, at: usize, tally: Tally) -> Taken
    ensures { result ≡ spec.come event reference size at tally }
{
    Taken {
        event,
        reference,
        size,
        at,
        tally,
    }
}
