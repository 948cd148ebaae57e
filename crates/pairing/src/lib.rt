// Pairs of references by their numbers.
#![tactic(auto)]

ghost use Rattle.std.specs.Prelude.{◌≡◌, ◌+◌, ◌*◌, ◌≤◌, length};
ghost use Rattle.std.proofs.lemmas.List.Edits.{sets};
ghost use Rattle.control.specs.words.Views.{pairs};
ghost use Rattle.links.specs.words.Columns.{at, flat};
ghost use Rattle.pairing.specs.code.Renumbered as of;
ghost use Rattle.control.specs.words.Words.{track_words};

use control::{Track, track_word};
use links::Column;

// Puts the numbers of so many pairs of a track, from a word on, to the same words of another, those whose two ends have
// numbers; the lower one first where either order will do. Tells how many there are.
pub fn renumber(
    base: usize,
    count: usize,
    either: bool,
    track: &Track,
    numbers: &Column,
    to: &mut Track,
) -> usize
    requires { base + 2 * count ≤ track_words }
    ensures { of.with_count result to.new ≡ of.pairs_put to.old base
        (of.renumbered either numbers.now (pairs base track.now 0 count)) }
{
    let mut kept: usize = 0;
    for i in 0..count {
        let at = base + 2 * i;
        let first = number_of(track_word(at, track), numbers);
        let second = number_of(track_word(at + 1, track), numbers);
        kept = keep(first, second, either, base + 2 * kept, kept, to);
    }
    kept
}

// One more than the number of a reference, 0 where it has none.
fn number_of(n: usize, numbers: &Column) -> u16
    ensures { result ≡ at numbers.now n }
{
    numbers.get(n).copied().unwrap_or(0)
}

// Puts a pair of numbers, by one more than each, where both ends have one.
fn keep(first: u16, second: u16, either: bool, at: usize, kept: usize, to: &mut Track) -> usize
    requires { (at + 2 ≤ track_words) × (kept ≤ track_words) }
    ensures value { result ≡ kept + length (of.renumbered_one either first second) }
    ensures to_after { to.new ≡ sets to.old at (flat (of.renumbered_one either first second)) }
{
    if first == 0 || second == 0 {
        return kept;
    }
    let (low, high) = if either && second < first {
        (second, first)
    } else {
        (first, second)
    };
    to[at] = low - 1;
    to[at + 1] = high - 1;
    kept + 1
}
