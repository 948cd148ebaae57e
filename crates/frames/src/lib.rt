// The frames of a table: what a line's characters stand for. It relies on the bytes of a line, and on the table by kind.
#![tactic(auto)]

ghost use Rattle.std.specs.Prelude.{◌≡◌};
ghost use Rattle.frames.specs.TableFrame as table;
ghost use Rattle.numbers.specs.code.Numbers.{read_bytes, byte_at};
ghost use Rattle.frames.specs.TableFrame.{frame_of};

use kinds::payload_bytes;
use numbers::{byte, number};

// First bytes of a table's frames.
pub const TABLE_FRAME: u8 = 0x10;

pub const DEFINITION_FRAME: u8 = 0x11;

pub const TERM_FRAME: u8 = 0x12;

pub const TABLE_END_FRAME: u8 = 0x1f;

// The edition of a table.
pub const TABLE_EDITION: u8 = 1;

// The most definitions and events that a table opens with.
pub const MOST_DEFINITIONS: u8 = 64;

pub const MOST_EVENTS: u8 = 64;

// The rooms of a table.
pub const TERM_ROOM: usize = 1024;

pub const PATH_ROOM: usize = 64;

pub const DEFINITION_ROOM: usize = 64;

pub const EVENT_ROOM: usize = 64;

// A table's frame; `Wrong` stands for any bytes that are none.
#[derive(Clone, Copy)]
pub enum Frame {
    Opening {
        edition: u8,
        definitions: u8,
        events: u8,
    },
    Definition(u8),
    Term {
        kind: u8,
        payload: u64,
    },
    Closing(u64),
    Wrong,
}

// What a line is judged by: line 1's two numbers, the definitions begun, the terms so far, how many terms the
// definition begun still lacks, and the path length of the next of them.
#[derive(Clone, Copy)]
pub struct Seen {
    pub definitions: usize,
    pub events: usize,
    pub begun: usize,
    pub terms: usize,
    pub due: usize,
    pub depth: usize,
}

// The frame that the bytes of characters are.
pub fn read_frame(chars: &[u8]) -> Frame
    ensures { result ≡ frame_of (read_bytes chars.now) }
{
    let count = chars.len() / 2;
    match byte(chars, 0) {
        TERM_FRAME => read_term(chars),
        DEFINITION_FRAME if count == 2 => Frame::Definition(byte(chars, 1)),
        TABLE_END_FRAME if count == 3 => Frame::Closing(number(&chars[2..])),
        TABLE_FRAME if count == 4 => Frame::Opening {
            edition: byte(chars, 1),
            definitions: byte(chars, 2),
            events: byte(chars, 3),
        },
        _ => Frame::Wrong,
    }
}

// The frame of a line whose first byte is a term's.
fn read_term(chars: &[u8]) -> Frame
    requires { byte_at chars.now 0 ≡ 0x12 }
    ensures { result ≡ frame_of (read_bytes chars.now) }
{
    let count = chars.len() / 2;
    let kind = byte(chars, 1);
    let want = 2 + usize::from(payload_bytes(kind));
    if !(1..=8).contains(&kind) || count != want {
        return Frame::Wrong;
    }
    Frame::Term {
        kind,
        payload: number(&chars[4..]),
    }
}

// The frame is a table's last.
pub fn closes(frame: Frame) -> bool
    ensures { result ≡ table.closes frame }
{
    matches!(frame, Frame::Closing(_))
}
