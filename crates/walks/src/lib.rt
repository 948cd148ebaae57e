// The numbering walk over a graph in columns: depth first from reference 0, a node numbered when first met, of two arcs the
// first side's first. It relies on the linked sides.
#![tactic(auto)]

ghost use Rattle.std.specs.Prelude.{◌≡◌, ◌+◌, ◌*◌, ◌≤◌, ◌<◌, length, get_or, set, replicate};
ghost use Rattle.std.proofs.lemmas.List.Edits.{sets};
ghost use Rattle.columns.specs.words.Columns.{look};
ghost use Rattle.links.specs.code.Linked.{target, side_words};
ghost use Rattle.walks.specs.code.Walked as of;
ghost use Rattle.control.specs.words.Words.{reference_room};

use control::REFERENCES;
use links::{Column, SIDE_WORDS, SideWords, reference_word, side_word};

// Numbers the marked references that the sides lead to from reference 0 on: `numbers` gets one more than the number of each,
// `labels` the marks by number. `pending` is scratch, and all 0 afterwards. All are lent one by one: saving and reading keep
// labels in different columns.
pub fn walk(
    marks: &Column,
    sides: &SideWords,
    numbers: &mut Column,
    labels: &mut Column,
    pending: &mut SideWords,
) -> usize
    ensures labels_after { of.with_numbers result numbers.new labels.new
        ≡ of.nodes_numbered marks.now sides.now }
    ensures pending_after { pending.new ≡ replicate side_words 0 }
{
    *numbers = [0u16; REFERENCES];
    *labels = [0u16; REFERENCES];
    *pending = [0u16; SIDE_WORDS];
    let mut top = pending_first(marks);
    let mut count: usize = 0;
    // Document 01's form for the numbering walk: the inner loop takes from what is pending, and yields the next node with no number.
    'walk: loop {
        let node = loop {
            if top == 0 {
                break 'walk;
            }
            top -= 1;
            let next = usize::from(pending[top]);
            if numbers[next] == 0 {
                break next;
            }
        };
        count = give_number(node, count, marks, numbers, labels);
        top = push(node, 2, top, sides, pending);
        top = push(node, 1, top, sides, pending);
    }
    *pending = [0u16; SIDE_WORDS];
    count
}

// How many nodes are pending at first: reference 0, where it has a mark.
fn pending_first(marks: &Column) -> usize
    ensures { result ≡ length (of.first marks.now) }
{
    usize::from(reference_word(0, marks) != 0)
}

// Gives a node the next number, and its mark the next place; how many nodes have numbers then. Columns one by one, as in `walk`.
fn give_number(
    node: usize,
    count: usize,
    marks: &Column,
    numbers: &mut Column,
    labels: &mut Column,
) -> usize
    requires { (node < reference_room) × (count < reference_room) }
    ensures value { result ≡ count + 1 }
    ensures numbers_after { numbers.new ≡ set numbers.old node (count + 1) }
    ensures labels_after { labels.new ≡ set labels.old count (get_or marks.now node 0) }
{
    labels[count] = marks[node];
    numbers[node] = (count + 1) as u16;
    count + 1
}

// Puts where a side of a node leads on top of what is pending; how many are pending then. Columns one by one, as in `walk`.
fn push(node: usize, side: usize, top: usize, sides: &SideWords, pending: &mut SideWords) -> usize
    requires { (node < reference_room) × (side ≤ 2) × (top < side_words) }
    ensures value { result ≡ top + length (target (look side_words sides.now (2 * node + side))) }
    ensures pending_after { pending.new
        ≡ sets pending.old top (target (look side_words sides.now (2 * node + side))) }
{
    match side_word(2 * node + side, sides) {
        next @ 1..=REFERENCES => {
            pending[top] = (next - 1) as u16;
            top + 1
        }
        _ => top,
    }
}
