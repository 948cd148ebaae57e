// A graph in columns is the marks of its references, as a run's nodes have them, and its arcs, as a run's track has them. Its
// arcs are linked to the sides of their nodes: which side an arc leads to is told by the marks of its ends alone.
#![tactic(auto)]

ghost use Rattle.std.specs.Prelude.{◌≡◌, min, ◌||◌, replicate};
ghost use Rattle.columns.specs.words.Columns.{look};
ghost use Rattle.links.specs.words.Columns as words;
ghost use Rattle.rules.specs.Track.{pair};
ghost use Rattle.control.specs.words.Views.{pairs};
ghost use Rattle.links.specs.code.Linked as of;
ghost use Rattle.links.specs.words.Cleared.{cleared, no_graph};
ghost use Rattle.control.specs.words.Words.{track_words};
ghost use Rattle.rules.specs.Run.{arc_room};
ghost use Rattle.links.specs.code.Linked.{side_words};

use columns::{After, Kinds, Table, after_of, kind_of};
use control::{REFERENCES, TRACK_WORDS, Track, track_word};
use kinds::{EXTERNAL, PARALLEL};
use marks::{is_own, term_of};
use rules::ARC_ROOM;

// A column of references: marks, labels or numbers; and two words for each reference, and two more.
// Arrays of a run's room, with no heap.
pub type Column = [u16; REFERENCES];

pub const SIDE_WORDS: usize = 16388;

pub type SideWords = [u16; SIDE_WORDS];

// A graph: the marks of its nodes by number, and its arcs and meetings. A host keeps it as C lays it out.
#[repr(C)]
#[derive(Drop)]
pub struct Graph {
    pub labels: Column,
    pub track: Track,
}

// Room to work in, for saving and reading, as C lays it out. What stands there does not matter to either; `number` and `has_shape`
// below them are lent its parts one by one, by shared references what they only read.
#[repr(C)]
#[derive(Drop)]
pub struct Work {
    pub graph: Graph,
    pub marks: Column,
    pub sides: SideWords,
    pub pending: SideWords,
    pub numbers: Column,
    pub spare: Track,
}

impl Graph {
    // A graph of no node, all 0.
    pub fn new() -> Graph
        ensures { result ≡ no_graph }
    {
        Graph {
            labels: [0; REFERENCES],
            track: [0; TRACK_WORDS],
        }
    }
}

impl Work {
    // Room in which all is 0.
    pub fn new() -> Work
        ensures { result ≡ cleared (replicate track_words 0) }
    {
        Work {
            graph: Graph::new(),
            marks: [0; REFERENCES],
            sides: [0; SIDE_WORDS],
            pending: [0; SIDE_WORDS],
            numbers: [0; REFERENCES],
            spare: [0; TRACK_WORDS],
        }
    }
}

// How many nodes, arcs and meetings a graph has.
#[derive(Clone, Copy)]
pub struct GraphCounts {
    pub nodes: usize,
    pub arcs: usize,
    pub meetings: usize,
}

// What a column of references has of one.
pub fn reference_word(n: usize, column: &Column) -> usize
    ensures { result ≡ words.at column.now n }
{
    usize::from(column.get(n).copied().unwrap_or(0))
}

// Word i of the sides.
pub fn side_word(i: usize, sides: &SideWords) -> usize
    ensures { result ≡ look side_words sides.now i }
{
    usize::from(sides.get(i).copied().unwrap_or(0))
}

// Puts word i of the sides.
fn put_side_word(i: usize, value: usize, sides: &mut SideWords)
    ensures { sides.new ≡ words.put side_words sides.old i value }
{
    // No `get_mut`: once its borrow is over, a proof knows no word of an array.
    if i < SIDE_WORDS {
        sides[i] = (value % 65536) as u16;
    }
}

// Links the first so many arcs of a track; tells whether each one between marked references found its side free. Marks and sides
// are lent one by one, here and in `link_arc`, so that their types say which is read and which is written.
pub fn link(
    arcs: usize,
    marks: &Column,
    track: &Track,
    table: &Table,
    sides: &mut SideWords,
) -> bool
    ensures value { result ≡ of.all_fit marks.now table.now.kinds table.now.after
        (replicate side_words 0) (pairs 0 track.now 0 (min arcs arc_room)) }
    ensures sides_after { sides.new ≡ of.linked marks.now table.now.kinds table.now.after
        (replicate side_words 0) (pairs 0 track.now 0 (min arcs arc_room)) }
{
    *sides = [0u16; SIDE_WORDS];
    let mut fits = true;
    for i in 0..arcs.min(ARC_ROOM) {
        let from = track_word(2 * i, track);
        let to = track_word(2 * i + 1, track);
        fits &= link_arc(from, to, marks, table, sides);
    }
    fits
}

// Links an arc; false where it leads to no side, or to one that is taken.
fn link_arc(from: usize, to: usize, marks: &Column, table: &Table, sides: &mut SideWords) -> bool
    ensures value { result ≡ (of.bare marks.now table.now.kinds table.now.after (pair from to)
        || of.free marks.now table.now.kinds table.now.after sides.old
        (pair from to)) }
    ensures sides_after { sides.new
        ≡ of.with_arc marks.now table.now.kinds table.now.after sides.old
        (pair from to) }
{
    let mark = reference_word(from, marks);
    let other = reference_word(to, marks);
    if mark == 0 || other == 0 {
        return true;
    }
    let Some(slot) = slot_of(mark, other, table) else {
        return false;
    };
    let word = 2 * from + slot;
    if side_word(word, sides) != 0 {
        return false;
    }
    put_side_word(word, to + 1, sides);
    true
}

// The side that an arc leads to, if any, by the marks of its ends; all arcs of a node with no sides lead to its second.
fn slot_of(mark: usize, other: usize, table: &Table) -> Option<usize>
    ensures { result ≡ of.told (of.slot table.now.kinds table.now.after mark other) }
{
    if !splits(mark, &table.kinds) {
        return Some(2);
    }
    if other < 2 {
        return None;
    }
    side_of(term_of(mark), term_of(other), &table.after)
}

// Whether a mark is an external choice's or a parallel's.
fn splits(mark: usize, kinds: &Kinds) -> bool
    ensures { result ≡ of.splits kinds.now mark }
{
    is_own(mark) && matches!(kind_of(term_of(mark), kinds), EXTERNAL | PARALLEL)
}

// The side of a term that another one stands in, if it stands in one.
fn side_of(term: usize, other: usize, after: &After) -> Option<usize>
    ensures { result ≡ of.told (of.side_of after.now term other) }
{
    if other <= term {
        None
    } else if other < after_of(term + 1, after) {
        Some(1)
    } else if other < after_of(term, after) {
        Some(2)
    } else {
        None
    }
}
