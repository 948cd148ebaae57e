// What a step writes: labels, arcs, fresh references and what stands at them, event nodes and meetings. It relies on the words
// of a run.
#![tactic(auto)]

ghost use Rattle.std.specs.Prelude.{◌≡◌, ◌-◌};
ghost use Rattle.control.specs.words.Words.{event_node};
ghost use Rattle.drawing.specs.code.Drawing as spec;

use control::{
    EVENT_NODES_FROM, FRAME, LABEL, MEETINGS_FROM, Nodes, STATE, TERM, Track, put, put_track, sum,
    track_word,
};
use looking::leads;
use rules::{ARC_ROOM, MEETING_ROOM, NODE_ROOM};

// How far a run has come: its next fresh reference, its nodes, arcs and meetings, and the event nodes of the step
// that is being taken.
#[derive(Clone, Copy)]
pub struct Tally {
    pub fresh: usize,
    pub nodes: usize,
    pub arcs: usize,
    pub meetings: usize,
    pub met: usize,
}

// Labels a reference.
pub fn label(n: usize, mark: usize, tally: Tally, nodes: &mut Nodes) -> Tally
    ensures value { result ≡ spec.one_node tally }
    ensures nodes_after { nodes.new ≡ spec.labelled n mark nodes.old }
{
    put(n, LABEL, mark, nodes);
    Tally {
        nodes: sum(tally.nodes, 1),
        ..tally
    }
}

// Makes an arc.
fn arc(from: usize, to: usize, tally: Tally, track: &mut Track) -> Tally
    ensures value { result ≡ spec.one_arc tally }
    ensures track_after { track.new ≡ spec.with_arc from to tally.arcs track.old }
{
    let at = tally.arcs;
    if at < ARC_ROOM {
        put_track(2 * at, from, track);
        put_track(2 * at + 1, to, track);
    }
    Tally {
        arcs: sum(at, 1),
        ..tally
    }
}

// Makes an arc to the next fresh reference, which is drawn by it.
pub fn draw(from: usize, tally: Tally, track: &mut Track) -> Tally
    ensures value { result ≡ spec.drawn (spec.one_arc tally) }
    ensures track_after { track.new ≡ spec.with_arc from tally.fresh tally.arcs track.old }
{
    let joined = arc(from, tally.fresh, tally, track);
    past_fresh(joined)
}

// The next fresh reference is drawn.
pub fn past_fresh(tally: Tally) -> Tally
    ensures { result ≡ spec.drawn tally }
{
    Tally {
        fresh: sum(tally.fresh, 1),
        ..tally
    }
}

// What stands at a reference.
pub fn stand(n: usize, state: usize, term: usize, frame: usize, nodes: &mut Nodes)
    ensures { nodes.new ≡ spec.standing n state term frame nodes.old }
{
    put(n, STATE, state, nodes);
    put(n, TERM, term, nodes);
    put(n, FRAME, frame, nodes);
}

// Keeps an event node of the step.
pub fn keep(n: usize, tally: Tally, track: &mut Track) -> Tally
    ensures value { result ≡ spec.one_met tally }
    ensures track_after { track.new ≡ spec.with_met n tally.met track.old }
{
    let at = tally.met;
    if at < NODE_ROOM {
        put_track(EVENT_NODES_FROM + at, n, track);
    }
    Tally {
        met: sum(at, 1),
        ..tally
    }
}

// Makes a meeting.
fn meet(i: usize, j: usize, tally: Tally, track: &mut Track) -> Tally
    ensures value { result ≡ spec.one_meeting tally }
    ensures track_after { track.new ≡ spec.with_meeting i j tally.meetings track.old }
{
    let at = tally.meetings;
    if at < MEETING_ROOM {
        put_track(MEETINGS_FROM + 2 * at, i, track);
        put_track(MEETINGS_FROM + 2 * at + 1, j, track);
    }
    Tally {
        meetings: sum(at, 1),
        ..tally
    }
}

// Event node number i of the step. The test stands first, since the sum could overflow before a `get`.
fn event_node(i: usize, track: &Track) -> usize
    ensures { result ≡ event_node i track.now }
{
    if i < NODE_ROOM {
        track_word(EVENT_NODES_FROM + i, track)
    } else {
        0
    }
}

// A node meets each of the event nodes from one number to another.
fn meet_each(n: usize, from: usize, to: usize, tally: Tally, track: &mut Track) -> Tally
    ensures value { result ≡ (spec.met_each n from (to - from) tally track.old).tally }
    ensures track_after { track.new ≡ (spec.met_each n from (to - from) tally track.old).track }
{
    let mut kept = tally;
    for i in from..to {
        let other = event_node(i, track);
        kept = meet(n, other, kept, track);
    }
    kept
}

// Each event node of a joint step's left part, up to `middle`, meets each of its right part.
pub fn meet_all(from: usize, middle: usize, to: usize, tally: Tally, track: &mut Track) -> Tally
    ensures value { result ≡ (spec.met_all from (middle - from) middle (to - middle) tally track.old).tally }
    ensures track_after { track.new
        ≡ (spec.met_all from (middle - from) middle (to - middle) tally track.old).track }
{
    let mut kept = tally;
    for i in from..middle {
        let node = event_node(i, track);
        kept = meet_each(node, middle, to, kept, track);
    }
    kept
}

// Each parent of two references gets an arc to a third, of the first so many arcs.
pub fn join(first: usize, second: usize, to: usize, tally: Tally, track: &mut Track) -> Tally
    ensures value { result ≡ (spec.joined first second to 0 tally.arcs tally track.old).tally }
    ensures track_after { track.new
        ≡ (spec.joined first second to 0 tally.arcs tally track.old).track }
{
    let mut kept = tally;
    for i in 0..tally.arcs.min(ARC_ROOM) {
        let from = track_word(2 * i, track);
        let target = track_word(2 * i + 1, track);
        if leads(target, first, second) {
            kept = arc(from, to, kept, track);
        }
    }
    kept
}
