// The marks of literals, by which a run's words and a graph's columns tell their labels: 0 for none, 1 for the left-hand side of
// definition 00, 2 + 2t for the own literal of term t, and 3 + 2t for the event of prefix t. Here they are made, read, and found by
// going down a path.
#![tactic(auto)]

mod path;

ghost use Rattle.std.specs.Prelude.{◌≡◌};
ghost use Rattle.marks.specs.words.Mark as of;

use frames::TERM_ROOM;
pub use path::find;
use places::Literal;

// The mark of the left-hand side of definition 00.
pub const START_MARK: usize = 1;

// The mark of a term's own literal.
pub fn own_mark(term: usize) -> usize
    ensures { result ≡ of.own_mark term }
{
    2 * (term % TERM_ROOM) + 2
}

// The mark of a prefix's event.
pub fn event_mark(term: usize) -> usize
    ensures { result ≡ of.event_mark term }
{
    2 * (term % TERM_ROOM) + 3
}

// The literal that a mark is of; the start's where it is none.
pub fn literal_of(mark: usize) -> Literal
    ensures { result ≡ of.literal mark }
{
    if mark < 2 {
        Literal::Left(0)
    } else if mark % 2 == 0 {
        Literal::Own(term_of(mark))
    } else {
        Literal::Event(term_of(mark))
    }
}

// The number of the term that a mark is of.
pub fn term_of(mark: usize) -> usize
    ensures { result ≡ of.term_of mark }
{
    mark.saturating_sub(2) / 2
}

// Whether a mark is of a term's own literal.
pub fn is_own(mark: usize) -> bool
    ensures { result ≡ of.is_own mark }
{
    2 <= mark && mark % 2 == 0
}

// Whether a mark is of a prefix's event.
pub fn is_event(mark: usize) -> bool
    ensures { result ≡ of.is_event mark }
{
    2 <= mark && mark % 2 == 1
}
