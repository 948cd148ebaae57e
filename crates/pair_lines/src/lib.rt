// The lines of a saved track's pairs, its arcs or its meetings, read into the words of a track: each line is judged as it comes.
// It relies on the line reader, and on the bytes of a line.
#![tactic(auto)]

ghost use Rattle.std.specs.Prelude.{◌≡◌, ◌+◌, ◌*◌, ◌≤◌};
ghost use Rattle.std.proofs.lemmas.List.Edits.{sets};
ghost use Rattle.numbers.specs.code.Numbers.{read_bytes};
ghost use Rattle.lines.specs.Refusal.{told};
ghost use Rattle.links.specs.words.Columns.{flat};
ghost use Rattle.opening.specs.Answers.{lines_told};
ghost use Rattle.pair_lines.specs.code.Pairs as of;
ghost use Rattle.control.specs.words.Words.{track_words};

use control::Track;
use line_reader::{Spelling, characters, next_line};
use lines::{Line, Refusal, RefusedAt, wanted};
use numbers::{byte, number_at};

// Reads the lines of so many pairs, which begin with `code`, of a track of so many nodes; the first is line `first`. They
// stand in `graph` from `base` on, up to the line that is refused where one is. They have to fit into `graph` there, and
// `first` has to be small enough for the numbers of the lines behind it.
pub fn read_pairs(
    code: u8,
    base: usize,
    text: &[u8],
    from: usize,
    first: usize,
    count: usize,
    nodes: usize,
    graph: &mut Track,
) -> Result<usize, RefusedAt>
    requires { (base + 2 * count ≤ track_words) × (first ≤ 20000) }
    ensures value { lines_told result ≡ (of.pairs_read code nodes count first text.now from).answer }
    ensures graph_after { graph.new ≡ sets graph.old base
        (flat (of.pairs_read code nodes count first text.now from).said) }
{
    let mut at = from;
    for i in 0..count {
        let line = first + i;
        let found = next_line(text, at, Spelling::Strict);
        let Line::Found { end, next } = found else {
            return Err(wanted(found).unwrap_err().at(line));
        };
        let chars = characters(text, at, end);
        pair_refusal(code, chars, nodes).map_err(|refusal| refusal.at(line))?;
        let word = base + 2 * i;
        graph[word] = (number_at(chars, 1) % 65536) as u16;
        graph[word + 1] = (number_at(chars, 3) % 65536) as u16;
        at = next;
    }
    Ok(at)
}

// Judges a line where a pair is due.
fn pair_refusal(code: u8, chars: &[u8], nodes: usize) -> Result<(), Refusal>
    ensures { told result ≡ of.pair_refusal nodes code (read_bytes chars.now) }
{
    if chars.len() / 2 != 5 {
        return Err(Refusal::WrongFrame);
    }
    if byte(chars, 0) != code {
        return Err(Refusal::WrongFrame);
    }
    if nodes <= number_at(chars, 1) {
        return Err(Refusal::OutOfRange);
    }
    if nodes <= number_at(chars, 3) {
        return Err(Refusal::OutOfRange);
    }
    Ok(())
}
