// The words of a run. `nodes` has eight words for each reference: the label of its node, and what control stands
// there; `track` has the arcs and the meetings in the order made. Out of range nothing is read or written. Counts stop at
// 65,535, which is past every room, so that a sum of them always has an answer.
#![tactic(auto)]

ghost use Rattle.std.specs.Prelude.{◌≡◌, ◌<◌, ◌+◌, ◌*◌, ◌-◌};
ghost use Rattle.control.specs.words.Words as words;
ghost use Rattle.control.specs.words.Sums.{capped};

// References of a run: one more than its arcs.
pub const REFERENCES: usize = 8193;

// Words of a reference, and of all.
pub const REFERENCE_WORDS: usize = 8;

pub const NODE_WORDS: usize = 65544;

// Words of a track: arcs from 0 on, then meetings, then the event nodes of a step.
pub const TRACK_WORDS: usize = 28672;

pub const MEETINGS_FROM: usize = 16384;

pub const EVENT_NODES_FROM: usize = 24576;

// What a run is lent: its nodes, its track and its counters.
// Arrays of a run's rooms, with no heap.
pub type Nodes = [u16; NODE_WORDS];

pub type Track = [u16; TRACK_WORDS];

pub type Counters = [u16; 8];

// The words that a step reads and writes.
#[repr(C)]
#[derive(Drop)]
pub struct Words {
    pub nodes: Nodes,
    pub track: Track,
}

// A run. A host keeps it as C lays it out.
#[repr(C)]
#[derive(Drop)]
pub struct Run {
    pub counters: Counters,
    pub words: Words,
}

impl Run {
    // Words of no run, all 0.
    pub fn new() -> Run
        ensures { result ≡ words.no_run }
    {
        Run {
            counters: [0; 8],
            words: Words {
                nodes: [0; NODE_WORDS],
                track: [0; TRACK_WORDS],
            },
        }
    }
}

// The sides' references.
pub const FIRST_SIDE: usize = 4;

pub const SECOND_SIDE: usize = 5;

// The words of a reference.
pub const LABEL: usize = 0;

pub const STATE: usize = 1;

pub const TERM: usize = 2;

pub const FRAME: usize = 3;

// The sides' references are words 4 and 5, and the sides' cells words 6 and 7.
pub const SIDES: usize = 3;

pub const SIZES: usize = 5;

// What stands at a reference: a term that no step has touched, an entered choice or parallel, Ω or ⊥.
pub const UNTOUCHED: usize = 0;

pub const ENTERED: usize = 1;

pub const OMEGA: usize = 2;

pub const BOTTOM: usize = 3;

// Word k of a reference.
pub fn word(n: usize, k: usize, nodes: &Nodes) -> usize
    requires { k < 8 }
    ensures { result ≡ words.node k nodes.now n }
{
    // Past the last reference 8 * n could overflow, so it is tested, here and in `put`.
    if n < REFERENCES {
        usize::from(nodes[8 * n + k])
    } else {
        0
    }
}

// Puts word k of a reference.
pub fn put(n: usize, k: usize, value: usize, nodes: &mut Nodes)
    requires { k < 8 }
    ensures { nodes.new ≡ words.put k nodes.old n value }
{
    if n < REFERENCES {
        nodes[8 * n + k] = (value % 65536) as u16;
    }
}

// Word i of a track.
pub fn track_word(i: usize, track: &Track) -> usize
    ensures { result ≡ words.track_word track.now i }
{
    usize::from(track.get(i).copied().unwrap_or(0))
}

// Puts word i of a track.
pub fn put_track(i: usize, value: usize, track: &mut Track)
    ensures { track.new ≡ words.put_track track.old i value }
{
    // By `get_mut` the proof does not close: it tells nothing of the words once its borrow is over.
    if i < TRACK_WORDS {
        track[i] = (value % 65536) as u16;
    }
}

const MOST_COUNT: usize = 65535;

pub fn sum(a: usize, b: usize) -> usize
    ensures { result ≡ capped (a + b) }
{
    a.saturating_add(b).min(MOST_COUNT)
}

pub fn product(a: usize, b: usize) -> usize
    ensures { result ≡ capped (a * b) }
{
    a.saturating_mul(b).min(MOST_COUNT)
}

// What is left of a, 0 where b is more.
pub fn less(a: usize, b: usize) -> usize
    ensures { result ≡ a - b }
{
    a.saturating_sub(b)
}
