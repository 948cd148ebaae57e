// What each rule makes of the weights of its premises: nothing here looks at control or terms. It relies on sets of events.
#![tactic(auto)]

ghost use Rattle.std.specs.Prelude.{◌≡◌};
ghost use Rattle.weights.specs.code.Rules as spec;

use control::{less, product, sum};
use plans::{CALL_WORD, INTERNAL_WORD, PARALLEL_WORD, PREFIX_WORD, SKIP_WORD, STOP_WORD};
use rules::Event;
use sets::has;

// What a derivation would show and add: its event; where its digits end; the cells of its part of control after
// it; and how many nodes, arcs, meetings and event nodes it adds.
#[derive(Clone, Copy)]
pub struct Weight {
    pub event: Event,
    pub at: usize,
    pub size: usize,
    pub nodes: usize,
    pub arcs: usize,
    pub meetings: usize,
    pub met: usize,
}

// A step that labels and draws as often as it says, inside nothing.
fn step(event: Event, at: usize, size: usize, count: usize, met: usize) -> Option<Weight>
    ensures { result ≡ spec.step event at size count met }
{
    Some(Weight {
        event,
        at,
        size,
        nodes: count,
        arcs: count,
        meetings: 0,
        met,
    })
}

// Call, prefix, internal choice, SKIP and STOP.
pub fn by_leaf(
    kind: usize,
    operand: usize,
    digit: usize,
    within: bool,
    at: usize,
    size: usize,
) -> Option<Weight>
    ensures { result ≡ spec.by_leaf kind operand digit within at size }
{
    if kind == PREFIX_WORD {
        step(Event::Visible((operand % 256) as u8), at, size, 2, 1)
    } else if kind == SKIP_WORD {
        settled(step(Event::Tick, at, size, 1, 0), within)
    } else if kind == CALL_WORD || kind == STOP_WORD {
        step(Event::Tau, at, size, 1, 0)
    } else if kind == INTERNAL_WORD && (digit == 1 || digit == 2) {
        step(Event::Tau, sum(at, 1), size, 1, 0)
    } else {
        None
    }
}

// A ✓ inside a sequence starts its right, and shows as τ.
fn settled(found: Option<Weight>, within: bool) -> Option<Weight>
    ensures { result ≡ spec.settled found within }
{
    let w = found?;
    if !within || !matches!(w.event, Event::Tick) {
        return found;
    }
    Some(Weight {
        event: Event::Tau,
        size: less(w.size, 1),
        nodes: sum(w.nodes, 1),
        arcs: sum(w.arcs, 1),
        met: 0,
        ..w
    })
}

// A side that is entered: so many labels, and an arc.
pub fn entering(found: Option<Weight>, nodes: usize) -> Option<Weight>
    ensures { result ≡ spec.entering found nodes }
{
    found.map(|w| Weight {
        nodes: sum(w.nodes, nodes),
        arcs: sum(w.arcs, 1),
        ..w
    })
}

// Where the digits of a derivation end; behind all of them where there is none.
pub fn end_of(found: Option<Weight>, count: usize) -> usize
    ensures { result ≡ spec.end_of found count }
{
    found.map_or(count, |w| w.at)
}

// A split's rules for one side's step: of `size` cells in all, that side had `own` and the other has `other`.
pub fn one(
    kind: usize,
    set: u64,
    found: Option<Weight>,
    size: usize,
    own: usize,
    other: usize,
    within: bool,
) -> Option<Weight>
    ensures { result ≡ spec.one kind set found size own other within }
{
    let w = found?;
    if is_barred(kind, set, w.event) {
        return None;
    }
    if stays(kind, w.event) {
        let size = sum(less(size, own), w.size);
        let event = shown(kind, w.event);
        return Some(Weight { event, size, ..w });
    }
    let rest = less(less(less(size, own), other), 1);
    let size = sum(rest, w.size);
    settled(Some(Weight { size, ..w }), within)
}

// A parallel's rule for a joint step, the left's part first.
pub fn both(
    kind: usize,
    set: u64,
    left: Option<Weight>,
    right: Option<Weight>,
    size: usize,
    own: usize,
    other: usize,
) -> Option<Weight>
    ensures { result ≡ spec.both kind set left right size own other }
{
    let l = left?;
    let r = right?;
    if !agree(kind, set, l.event, r.event) {
        return None;
    }
    let rest = less(less(size, own), other);
    Some(Weight {
        event: l.event,
        at: r.at,
        size: sum(sum(rest, l.size), r.size),
        nodes: sum(l.nodes, r.nodes),
        arcs: sum(l.arcs, r.arcs),
        meetings: sum(sum(l.meetings, r.meetings), product(l.met, r.met)),
        met: sum(l.met, r.met),
    })
}

// A parallel's rule for two sides that have ended, whose last references have so many parents.
pub fn ended(at: usize, size: usize, parents: usize, within: bool) -> Option<Weight>
    ensures { result ≡ spec.ended at size parents within }
{
    let end = Weight {
        event: Event::Tick,
        at: sum(at, 1),
        size: less(size, 2),
        nodes: 0,
        arcs: parents,
        meetings: 0,
        met: 0,
    };
    settled(Some(end), within)
}

// A parallel lets no event of its set through that only one side does.
fn is_barred(kind: usize, set: u64, event: Event) -> bool
    ensures { result ≡ spec.barred kind set event }
{
    let Event::Visible(e) = event else {
        return false;
    };
    kind == PARALLEL_WORD && has(set, e)
}

// A parallel stays whatever its side shows, a choice on τ.
pub fn stays(kind: usize, event: Event) -> bool
    ensures { result ≡ spec.stays kind event }
{
    kind == PARALLEL_WORD || matches!(event, Event::Tau)
}

// A side's ✓ shows as τ through a parallel.
pub fn shown(kind: usize, event: Event) -> Event
    ensures { result ≡ spec.shown kind event }
{
    let Event::Tick = event else {
        return event;
    };
    if kind == PARALLEL_WORD {
        Event::Tau
    } else {
        Event::Tick
    }
}

// Both sides do the same event of the set.
fn agree(kind: usize, set: u64, left: Event, right: Event) -> bool
    ensures { result ≡ spec.agree kind set left right }
{
    match (left, right) {
        (Event::Visible(a), Event::Visible(b)) => a == b && is_barred(kind, set, left),
        _ => false,
    }
}
