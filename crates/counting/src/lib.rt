// The counters of a run, kept beside its control, and the rooms.
#![tactic(auto)]

ghost use Rattle.std.specs.Prelude.{◌≡◌, ◌<◌};
ghost use Rattle.lines.specs.Refusal.{told};
ghost use Rattle.counting.specs.code.Counting as spec;

use control::{Counters, sum};
use drawing::Tally;
use leaves::Taken;
use lines::Refusal;
use rules::{ARC_ROOM, CELL_ROOM, MEETING_ROOM, NODE_ROOM};
use weights::Weight;

// The counters: the reference where control stands, the next fresh one, and how many cells, nodes, arcs and meetings
// there are.
pub const REFERENCE: usize = 0;

pub const FRESH: usize = 1;

pub const CELLS: usize = 2;

pub const NODES: usize = 3;

pub const ARCS: usize = 4;

pub const MEETINGS: usize = 5;

pub fn counter(k: usize, counters: &Counters) -> usize
    requires { k < 8 }
    ensures { result ≡ spec.counter k counters.now }
{
    usize::from(counters[k])
}

// Whether a step fits the rooms; else the refusal of the first that it would pass.
pub fn over_room(w: Weight, counters: &Counters) -> Result<(), Refusal>
    ensures { told result ≡ spec.over_room w counters.now }
{
    if CELL_ROOM < w.size {
        return Err(Refusal::CellsOverRoom);
    }
    if NODE_ROOM < sum(counter(NODES, counters), w.nodes) {
        return Err(Refusal::NodesOverRoom);
    }
    if ARC_ROOM < sum(counter(ARCS, counters), w.arcs) {
        return Err(Refusal::ArcsOverRoom);
    }
    if MEETING_ROOM < sum(counter(MEETINGS, counters), w.meetings) {
        return Err(Refusal::MeetingsOverRoom);
    }
    Ok(())
}

// How far a run has come, before a step.
pub fn tally_of(counters: &Counters) -> Tally
    ensures { result ≡ spec.tally_of counters.now }
{
    Tally {
        fresh: counter(FRESH, counters),
        nodes: counter(NODES, counters),
        arcs: counter(ARCS, counters),
        meetings: counter(MEETINGS, counters),
        met: 0,
    }
}

// The counters after a step.
pub fn recount(taken: Taken, counters: &mut Counters)
    ensures { counters.new ≡ spec.recounted taken }
{
    let tally = taken.tally;
    *counters = [
        narrow(taken.reference),
        narrow(tally.fresh),
        narrow(taken.size),
        narrow(tally.nodes),
        narrow(tally.arcs),
        narrow(tally.meetings),
        0,
        0,
    ];
}

fn narrow(x: usize) -> u16
    ensures { result ≡ spec.narrow x }
{
    (x % 65536) as u16
}
