// A table's columns filled: a frame that meets no refusal is taken in, and the preorder walk tells, from the last term to the
// first, which term stands behind each term and its subterms. It relies on the table by kind.
#![tactic(auto)]

ghost use Rattle.std.specs.Prelude.{◌≡◌, ◌+◌, ◌-◌, ◌<◌, ◌≤◌, length};
ghost use Rattle.filling.specs.code.Taking.{Ready, topmost, owed, pushed, started, seen_then};
ghost use Rattle.filling.specs.code.Taking.{waiting_then};
ghost use Rattle.filling.specs.code.Taking.{roots_then, column_then};
ghost use Rattle.filling.specs.words.Preorder.{past, walked};
ghost use Rattle.frames.specs.TableFrame.{definition_room, path_room, term_room};

use columns::{After, Kinds, Table, after_of, after_word};
use frames::{Frame, Seen};
use kinds::subterms;

// The path lengths of the terms due behind the next: one for each level of a path, and the root's.
pub const LEVEL_ROOM: usize = 65;

// An array of its room, with no heap.
pub type Waiting = [u8; LEVEL_ROOM];

// Takes a frame in that meets no refusal.
pub fn take(frame: Frame, s: Seen, waiting: &mut Waiting, table: &mut Table) -> Seen
    requires { Ready frame s }
    ensures value { result ≡ seen_then frame s waiting.old }
    ensures waiting_after { waiting.new ≡ waiting_then frame s waiting.old }
    ensures kinds_after { table.new.kinds ≡ column_then (λ k p. k) frame s table.old.kinds }
    ensures payloads_after { table.new.payloads ≡ column_then (λ k p. p) frame s table.old.payloads }
    ensures owners_after { table.new.owners ≡ column_then (λ k p. s.begun - 1) frame s table.old.owners }
    ensures roots_after { table.new.roots ≡ roots_then frame s table.old.roots }
    ensures after_kept { table.new.after ≡ table.old.after }
{
    match frame {
        Frame::Term { kind, payload } => {
            let at = s.terms;
            let begun = s.begun;
            table.kinds[at] = kind;
            table.payloads[at] = payload;
            table.owners[at] = (begun - 1) as u8;
            owe(kind, s, waiting)
        }
        Frame::Definition(_) => {
            let at = s.begun;
            let terms = s.terms;
            table.roots[at] = terms as u16;
            begin(s)
        }
        Frame::Opening { .. } | Frame::Closing(_) | Frame::Wrong => s,
    }
}

// A definition is begun, and its root is due.
fn begin(s: Seen) -> Seen
    requires { s.begun < definition_room }
    ensures { result ≡ started s }
{
    Seen {
        begun: s.begun + 1,
        due: 1,
        depth: 0,
        ..s
    }
}

// A term is taken in, and its subterms are due.
fn owe(kind: u8, s: Seen, waiting: &mut Waiting) -> Seen
    requires { (0 < s.due) × (s.terms < term_room) × (s.depth ≤ path_room) × (s.due ≤ s.depth + 1) }
    ensures value { result ≡ owed kind s waiting.old }
    ensures waiting_after { waiting.new ≡ pushed kind s waiting.old }
{
    let others = s.due - 1;
    let terms = s.terms + 1;
    let below = s.depth + 1;
    match subterms(kind) {
        0 => Seen {
            terms,
            due: others,
            depth: last(others, waiting),
            ..s
        },
        1 => Seen {
            terms,
            due: others + 1,
            depth: below,
            ..s
        },
        _ => {
            waiting[others] = below as u8;
            Seen {
                terms,
                due: others + 2,
                depth: below,
                ..s
            }
        }
    }
}

// The last of the others' path lengths; 0 where there is none.
fn last(others: usize, waiting: &Waiting) -> usize
    requires { others ≤ path_room }
    ensures { result ≡ topmost others waiting.now }
{
    if others == 0 {
        0
    } else {
        usize::from(waiting[others - 1])
    }
}

// Fills in, for each of the first `count` terms, the number of the term behind it. Two columns and not the table, so that their
// types say which is read and which is written.
pub fn walk(kinds: &Kinds, count: usize, after: &mut After)
    requires { (count ≤ term_room) × (length after.old ≡ term_room) }
    ensures { after.new ≡ walked count kinds.now after.old }
{
    for i in (0..count).rev() {
        let n = subterms(kinds[i]);
        after[i] = behind(n, i + 1, after);
    }
}

// The number of the term behind n terms and their subterms, from number j on.
fn behind(n: u8, j: usize, after: &After) -> u16
    requires { (n ≤ 2) × (j ≤ term_room) × (length after.now ≡ term_room) }
    ensures { result ≡ past n j after.now }
{
    match n {
        0 => j as u16,
        1 => after_word(j, after),
        _ => {
            let second = after_of(j, after);
            after_word(second, after)
        }
    }
}
