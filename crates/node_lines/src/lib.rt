// The lines of a saved track's nodes, read into a column: each line is judged as it comes, and a node's place becomes its mark.
// It relies on the line reader and on the mark of a node's line.
#![tactic(auto)]

ghost use Rattle.std.specs.Prelude.{◌≡◌, ℕ, ◌≤◌};
ghost use Rattle.std.proofs.lemmas.List.Edits.{sets};
ghost use Rattle.numbers.specs.code.Numbers.{read_bytes};
ghost use Rattle.graphs.specs.Parsed.{refusal, frame_of, a_node};
ghost use Rattle.finding.specs.code.Found.{marks_of};
ghost use Rattle.lines.specs.Refusal.{told};
ghost use Rattle.opening.specs.Answers.{lines_told};
ghost use Rattle.node_lines.specs.code.Nodes as of;
ghost use Rattle.rules.specs.Run.{node_room};

use columns::Table;
use finding::mark_of;
use frames::PATH_ROOM;
use graphs::NODE_FRAME;
use line_reader::{Spelling, characters, next_line};
use lines::{Line, Refusal, RefusedAt, wanted};
use links::Column;
use numbers::{byte, byte_at};

// How many bytes stand before a node's path.
const NODE_HEAD: usize = 5;

// The line of node 0.
const FIRST_NODE: usize = 2;

// Reads the lines of so many nodes, from line 2 on. Their marks stand in `labels` by number, up to the line that is refused
// where one is. There are at most as many as a run has room for, so that they fit into `labels`.
pub fn read_nodes(
    text: &[u8],
    from: usize,
    count: usize,
    definitions: usize,
    table: &Table,
    labels: &mut Column,
) -> Result<usize, RefusedAt>
    requires { count ≤ node_room }
    ensures value { lines_told result ≡ (of.nodes_read definitions count text.now from).answer }
    ensures labels_after { labels.new ≡ sets labels.old 0
        (marks_of table.now.kinds table.now.after table.now.roots 0
        (of.nodes_read definitions count text.now from).said) }
{
    let mut at = from;
    for k in 0..count {
        let line = k + FIRST_NODE;
        let found = next_line(text, at, Spelling::Strict);
        let Line::Found { end, next } = found else {
            return Err(wanted(found).unwrap_err().at(line));
        };
        let chars = characters(text, at, end);
        node_refusal(chars, definitions).map_err(|refusal| refusal.at(line))?;
        labels[k] = mark_of(k, chars, table);
        at = next;
    }
    Ok(at)
}

// Judges a line where a node is due.
fn node_refusal(chars: &[u8], definitions: usize) -> Result<(), Refusal>
    ensures { (n : ℕ) → told result ≡ refusal definitions n a_node (frame_of (read_bytes chars.now)) }
{
    let count = chars.len() / 2;
    if byte(chars, 0) != NODE_FRAME {
        return Err(Refusal::WrongFrame);
    }
    let length = byte_at(chars, 4);
    if count != length + NODE_HEAD {
        return Err(Refusal::WrongFrame);
    }
    if PATH_ROOM < length {
        return Err(Refusal::OutOfRange);
    }
    if definitions <= byte_at(chars, 3) {
        return Err(Refusal::OutOfRange);
    }
    Ok(())
}
