// Lines of a saved track put into a slice: the first line, those of nodes, arcs and meetings, and the last. It relies on the
// places of literals and on putting bytes.
#![tactic(auto)]

ghost use Rattle.std.specs.Prelude.{◌≡◌, [], ◌∷◌, ◌++◌, map, ◌+◌, ◌*◌, ◌≤◌, length, take};
ghost use Rattle.lines.specs.Line.{two, text, hex};
ghost use Rattle.spelling.specs.words.Puts.{Puts, number_cursor, line_cursor, pairs_cursor};
ghost use Rattle.control.specs.words.Views.{pairs};
ghost use Rattle.rules.specs.Track.{pair};
ghost use Rattle.graphs.specs.Saved.{pair_frame, node_frame};
ghost use Rattle.columns.specs.words.Held.{placing};
ghost use Rattle.framing.specs.words.Told.{labels_told};
ghost use Rattle.framing.specs.code.Placed.{told_length, told_definition};
ghost use Rattle.rules.specs.Run.{arc_room};
ghost use Rattle.control.specs.words.Words.{meetings_from, reference_room};
ghost use Rattle.frames.specs.TableFrame.{path_room};

use columns::Table;
use control::{Track, track_word};
use frames::PATH_ROOM;
use graphs::{NODE_FRAME, TRACK_EDITION, TRACK_END_FRAME, TRACK_FRAME};
use links::{Column, reference_word};
use marks::literal_of;
use places::{Path, Placed, place};
use spelling::{put_byte, put_end, put_number};

// `30 01 nnnn aaaa ssss`, at the front.
pub fn put_opening(nodes: usize, arcs: usize, meetings: usize, out: &mut [u8]) -> usize
    ensures puts { Puts 0 (text ((0x30 ∷ 1 ∷ two nodes ++ two arcs ++ two meetings) ∷ []))
        out.old out.new result }
    ensures value { result ≡ 17 }
{
    let a = put_byte(0, TRACK_FRAME, out);
    let b = put_byte(a, TRACK_EDITION, out);
    let c = put_number(b, nodes, out);
    let d = put_number(c, arcs, out);
    let e = put_number(d, meetings, out);
    put_end(e, out)
}

// Lines of so many pairs of a track, from a word on.
pub fn put_pairs(
    code: u8,
    base: usize,
    count: usize,
    track: &Track,
    from: usize,
    out: &mut [u8],
) -> usize
    requires { (base ≤ meetings_from) × (count ≤ arc_room) × (from ≤ pairs_cursor) }
    ensures puts { Puts from (text (map (pair_frame code) (pairs base track.now 0 count)))
        out.old out.new result }
    ensures value { result ≡ from + 11 * count }
{
    let mut at = from;
    for i in 0..count {
        let word = base + 2 * i;
        at = put_pair(
            code,
            track_word(word, track),
            track_word(word + 1, track),
            at,
            out,
        );
    }
    at
}

// A line of a pair.
fn put_pair(code: u8, first: usize, second: usize, at: usize, out: &mut [u8]) -> usize
    requires { at ≤ line_cursor }
    ensures { Puts at (text (pair_frame code (pair first second) ∷ []))
        out.old out.new result }
{
    let a = put_byte(at, code, out);
    let b = put_number(a, first, out);
    let c = put_number(b, second, out);
    put_end(c, out)
}

// `3f`.
pub fn put_last(at: usize, out: &mut [u8]) -> usize
    requires { at ≤ line_cursor }
    ensures { Puts at (text ((0x3f ∷ []) ∷ [])) out.old out.new result }
{
    let a = put_byte(at, TRACK_END_FRAME, out);
    put_end(a, out)
}

// No table has it: the definition of a mark that tells no place.
const NOWHERE: u8 = 64;

// Bytes of a node's line with no path.
const NODE_LINE: usize = 11;

// How long the lines of so many nodes are.
pub fn nodes_length(count: usize, labels: &Column, table: &Table) -> usize
    requires { count ≤ reference_room }
    ensures value { result ≡ length (text (map node_frame (labels_told
        (placing table.now)
        labels.now 0 count))) }
    ensures upper_bound { result ≤ 139 * count }
{
    let mut path = [0u8; PATH_ROOM];
    let mut length: usize = 0;
    for k in 0..count {
        let placed = place(literal_of(reference_word(k, labels)), table, &mut path);
        length += NODE_LINE + 2 * path_length(placed);
    }
    length
}

// Puts the lines of so many nodes.
pub fn put_nodes(count: usize, labels: &Column, table: &Table, from: usize, out: &mut [u8]) -> usize
    requires { (count ≤ reference_room) × (from ≤ 17) }
    ensures puts { Puts from (text (map node_frame (labels_told
        (placing table.now)
        labels.now 0 count))) out.old out.new result }
    ensures upper_bound { result ≤ from + 139 * count }
{
    let mut path = [0u8; PATH_ROOM];
    let mut at = from;
    for k in 0..count {
        let placed = place(literal_of(reference_word(k, labels)), table, &mut path);
        at = put_node(k, placed, &path, at, out);
    }
    at
}

// Puts a node's line: `31 iiii dd ll path`.
fn put_node(number: usize, placed: Option<Placed>, path: &Path, at: usize, out: &mut [u8]) -> usize
    requires { (length path.now ≡ path_room) × (told_length placed ≤ path_room) × (at ≤ line_cursor) }
    ensures { Puts at (text ((0x31 ∷ two number ++ (told_definition placed ∷ told_length placed
        ∷ take (told_length placed) path.now)) ∷ [])) out.old out.new result }
{
    let digits = path_length(placed);
    let a = put_byte(at, NODE_FRAME, out);
    let b = put_number(a, number, out);
    let c = put_byte(b, definition_of(placed), out);
    let d = put_byte(c, digits as u8, out);
    let e = put_path(path, digits, d, out);
    put_end(e, out)
}

// Puts the first digits of a path.
fn put_path(path: &Path, count: usize, from: usize, out: &mut [u8]) -> usize
    requires { (length path.now ≡ path_room) × (count ≤ path_room) × (from ≤ number_cursor) }
    ensures { Puts from (hex (take count path.now)) out.old out.new result }
{
    let mut at = from;
    for &digit in &path[..count] {
        at = put_byte(at, digit, out);
    }
    at
}

// How many digits a place's path has.
fn path_length(placed: Option<Placed>) -> usize
    ensures { result ≡ told_length placed }
{
    placed.map_or(0, |place| place.length)
}

// The definition of a place.
fn definition_of(placed: Option<Placed>) -> u8
    ensures { result ≡ told_definition placed }
{
    placed.map_or(NOWHERE, |place| place.definition)
}
