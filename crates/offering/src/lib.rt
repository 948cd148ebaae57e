// What is offered, as a value: whether τ and ✓ are, which events, and whether τ is by the plain rules; what a term offers
// by its own kind, what two sides offer together, and ✓ told as τ. No words are read. It relies on sets of events, and on the
// numbers that a plan has for kinds.
//
// Each case returns by itself. Written as one expression of ifs, what a run offers takes up to 1.4 times as long (docs/PERFORMANCE.md,
// `offers/blocked-256`).
#![tactic(auto)]

ghost use Rattle.std.specs.Prelude.{◌≡◌};
ghost use Rattle.offering.specs.code.Offering as code;
ghost use Rattle.offering.specs.code.Offering.{seen};

use plans::{PARALLEL_WORD, PREFIX_WORD, SKIP_WORD, STOP_WORD};
use sets::{either, only, shared};

// Whether τ and ✓ are offered, and which events; and whether τ is by the plain rules, as STOP's own is not.
#[derive(Clone, Copy)]
pub struct Offered {
    pub tau: bool,
    pub plain: bool,
    pub tick: bool,
    pub events: u64,
}

// What a term offers by its own kind: a prefix its event, SKIP ✓, a call, STOP and an internal choice τ, of which the
// plain rules lack STOP's.
pub fn own(kind: usize, operand: usize) -> Offered
    ensures { seen result ≡ code.own kind operand }
{
    if kind == PREFIX_WORD {
        return Offered {
            tau: false,
            plain: false,
            tick: false,
            events: only((operand % 256) as u8),
        };
    }
    if kind == SKIP_WORD {
        return unseen(false, true);
    }
    if kind == STOP_WORD {
        return Offered {
            tau: true,
            plain: false,
            tick: false,
            events: 0,
        };
    }
    unseen(true, false)
}

// What two sides offer: a choice what either does; a parallel the events that its set lets pass, τ for a side's
// τ or ✓, and ✓ where both have ended.
pub fn combined(kind: usize, set: u64, both: bool, l: Offered, r: Offered) -> Offered
    ensures { seen result ≡ code.combined kind set both (seen l) (seen r) }
{
    if kind == PARALLEL_WORD {
        return Offered {
            tau: (l.tau | l.tick) | (r.tau | r.tick),
            plain: (l.plain | l.tick) | (r.plain | r.tick),
            tick: both,
            events: shared(set, l.events, r.events),
        };
    }
    Offered {
        tau: l.tau | r.tau,
        plain: l.plain | r.plain,
        tick: l.tick | r.tick,
        events: either(l.events, r.events),
    }
}

// ✓ told as τ where a sequence is around.
pub fn settled(nested: bool, o: Offered) -> Offered
    ensures { seen result ≡ code.settled nested (seen o) }
{
    if nested {
        return Offered {
            tau: o.tau | o.tick,
            plain: o.plain | o.tick,
            tick: false,
            events: o.events,
        };
    }
    o
}

// No visible event, and no STOP.
pub fn unseen(tau: bool, tick: bool) -> Offered
    ensures { seen result ≡ code.unseen tau tick }
{
    Offered {
        tau,
        plain: tau,
        tick,
        events: 0,
    }
}
