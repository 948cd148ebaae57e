// The sides of an entered choice or parallel: entering them, and what their steps make of it.
#![tactic(auto)]

ghost use Rattle.std.specs.Prelude.{◌≡◌, ◌≤◌};
ghost use Rattle.leaves.specs.code.Leaves.{with_words};
ghost use Rattle.sides.specs.code.Sides as spec;

use control::{
    ENTERED, FRAME, Nodes, SIDES, SIZES, STATE, TERM, UNTOUCHED, Words, less, put, sum, word,
};
use drawing::{Tally, draw, label, meet_all, stand};
use leaves::{Taken, settle};
use marks::own_mark;
use plans::{Plan, kind_of};
use weights::{shown, stays};

// A choice or parallel is entered, neither side yet: its node is labelled.
pub fn enter(n: usize, t: usize, tally: Tally, nodes: &mut Nodes) -> Tally
    ensures value { result ≡ spec.one_node tally }
    ensures nodes_after { nodes.new ≡ spec.entered n t nodes.old }
{
    put(n, STATE, ENTERED, nodes);
    put(n, SIZES + 1, 1, nodes);
    put(n, SIZES + 2, 1, nodes);
    label(n, own_mark(t), tally, nodes)
}

// The first time that a side steps it gets an arc and a fresh reference, where its term stands.
pub fn enter_side(
    n: usize,
    side: usize,
    t: usize,
    frame: usize,
    tally: Tally,
    words: &mut Words,
) -> Tally
    requires { side ≤ 2 }
    ensures value { result ≡ spec.side_tally n side tally words.old.nodes }
    ensures nodes_after { words.new.nodes ≡ spec.side_nodes n side t frame tally words.old.nodes }
    ensures track_after { words.new.track ≡ spec.side_track n side tally words.old.nodes words.old.track }
{
    let reference = word(n, SIDES + side, &words.nodes);
    if reference != 0 {
        return tally;
    }
    let next = tally.fresh;
    stand(next, UNTOUCHED, t, frame, &mut words.nodes);
    put(n, SIDES + side, next, &mut words.nodes);
    draw(n, tally, &mut words.track)
}

// Puts a side that has stepped back.
pub fn put_side(n: usize, side: usize, reference: usize, size: usize, nodes: &mut Nodes)
    requires { side ≤ 2 }
    ensures { nodes.new ≡ spec.put_side n side reference size nodes.old }
{
    put(n, SIDES + side, reference, nodes);
    put(n, SIZES + side, size, nodes);
}

// What one side's step makes of its split: of `size` cells in all, that side had `own` and the other has `other`.
pub fn close_one(
    n: usize,
    side: usize,
    bound: usize,
    size: usize,
    own: usize,
    other: usize,
    done: Taken,
    plan: &Plan,
    words: &mut Words,
) -> Taken
    requires { side ≤ 2 }
    ensures { with_words result words.new.nodes words.new.track
        ≡ spec.one plan.now n side bound size own other done words.old.nodes words.old.track }
{
    let t = word(n, TERM, &words.nodes);
    let kind = kind_of(t, plan);
    let event = done.event;
    let tally = done.tally;
    if stays(kind, event) {
        put_side(n, side, done.reference, done.size, &mut words.nodes);
        return Taken {
            event: shown(kind, event),
            reference: n,
            size: sum(less(size, own), done.size),
            at: done.at,
            tally,
        };
    }
    let frame = word(n, FRAME, &words.nodes);
    let rest = less(less(less(size, own), other), 1);
    let dropped = Taken {
        event,
        reference: done.reference,
        size: sum(rest, done.size),
        at: done.at,
        tally,
    };
    settle(dropped, t, frame, bound, plan, words)
}

// What a joint step makes of its parallel: the event nodes of its parts, from number `met` on, meet.
pub fn close_both(
    n: usize,
    size: usize,
    own: usize,
    other: usize,
    met: usize,
    done: Taken,
    across: Taken,
    words: &mut Words,
) -> Taken
    ensures { with_words result words.new.nodes words.new.track
        ≡ spec.both n size own other met done across words.old.nodes words.old.track }
{
    put_side(n, 2, across.reference, across.size, &mut words.nodes);
    let event = done.event;
    let left = done.tally;
    let right = across.tally;
    let rest = less(less(size, own), other);
    Taken {
        event,
        reference: n,
        size: sum(sum(rest, done.size), across.size),
        at: across.at,
        tally: meet_all(met, left.met, right.met, right, &mut words.track),
    }
}
