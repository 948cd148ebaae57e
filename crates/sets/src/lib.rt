// Sets of events, each promise told by members, so that nothing above knows how a set stands in its words.
// It relies on the definition of a set in frames.
#![tactic(auto)]

ghost use Rattle.std.specs.Prelude.{◌≡◌, ◌&&◌, ◌||◌, eqb, ltb};
ghost use Rattle.sets.specs.EventSet.{member};
ghost use Rattle.frames.specs.TableFrame.{event_room};
ghost use Rattle.sets.specs.Told.{SetOf, shown, Emptiness};

use frames::MOST_EVENTS;

// Whether an event is in a set.
pub fn has(set: u64, event: u8) -> bool
    ensures { result ≡ member event set }
{
    if event < MOST_EVENTS {
        (set >> event) % 2 == 1
    } else {
        false
    }
}

// The set of one event; of none where the event is past those that there may be.
pub fn only(event: u8) -> u64
    ensures { SetOf (λ k. ltb event event_room && eqb k event) result }
{
    if event < MOST_EVENTS {
        1u64 << event
    } else {
        0
    }
}

// The events of either set.
pub fn either(l: u64, r: u64) -> u64
    ensures { SetOf (λ k. member k l || member k r) result }
{
    l | r
}

// What a parallel with set x shows of its sides' offers: those of either side, less those inside x that only
// one side offers.
pub fn shared(x: u64, l: u64, r: u64) -> u64
    ensures { SetOf (shown x l r) result }
{
    let alone = (l ^ r) & x;
    (l | r) ^ alone
}

// Whether a set has no event.
pub fn empty(set: u64) -> bool
    ensures { Emptiness set result }
{
    set == 0
}
