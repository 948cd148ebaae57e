// A script's lines: each asks for a step by an address, whose digits go into a lent array.
// It relies on the line reader for where a line ends and what its bytes are.
#![tactic(auto)]

ghost use Rattle.std.specs.Prelude.{◌≡◌, ◌≤◌, length, drop};
ghost use Rattle.std.proofs.Math.Option.{some};
ghost use Rattle.std.proofs.lemmas.List.Edits.{sets};
ghost use Rattle.lines.specs.Line.{lines};
ghost use Rattle.lines.specs.Refusal.{told};
ghost use Rattle.numbers.specs.code.Numbers.{read_bytes};
ghost use Rattle.scripts.specs.Script.{most, digits as behind, all_digits, asked, answer, left};
ghost use Rattle.scripts.specs.ScriptStep.{step_told};
ghost use Rattle.scripts.specs.code.Answers.{refusal};

use line_reader::{Spelling, characters, next_line};
use lines::{Line, Refusal};
use numbers::{byte, number};

// First byte of a script's frame.
pub const STEP_FRAME: u8 = 0x20;

// The most digits of an address, and the room of a script's text.
pub const DIGIT_ROOM: usize = 1024;

pub const SCRIPT_TEXT_ROOM: usize = 65536;

// The digits of an address, in front of what stood there.
// An array of its room, with no heap: how many of them count stands beside it, since the block that C lays out for a run has the
// digits alone.
pub type Digits = [u8; DIGIT_ROOM];

// How many bytes stand before the digits: `20 llll`.
const HEAD: usize = 3;

// The lowest and the highest digit.
const LOWEST: u8 = 1;

const HIGHEST: u8 = 4;

// What a line of a script asks for: a step, by an address of `count` digits, with the next line from `next` on.
#[derive(Clone, Copy)]
pub struct Address {
    pub count: usize,
    pub next: usize,
}

// The next line of a script from a cursor, none at the end of the script. Its digits go to the front of `digits`; a
// refusal leaves the array as it was.
pub fn next_step(text: &[u8], at: usize, digits: &mut Digits) -> Result<Option<Address>, Refusal>
    ensures value { step_told result ≡ answer at (lines (drop at text.now)) }
    ensures digits_after { digits.new
        ≡ sets digits.old 0 (left (lines (drop at text.now))) }
{
    let line = next_line(text, at, Spelling::Desk);
    if let Line::End = line {
        return Ok(None);
    }
    let Line::Found { end, next } = line else {
        return Err(Refusal::NotALine);
    };
    let chars = characters(text, at, end);
    judge(chars)?;
    let count = chars.len() / 2 - HEAD;
    write_digits(chars, count, digits);
    Ok(Some(Address { count, next }))
}

// Whether a line asks for a step, by its characters; else its refusal.
fn judge(chars: &[u8]) -> Result<(), Refusal>
    ensures { told result ≡ refusal (asked (some (read_bytes chars.now))) }
{
    let n = chars.len() / 2;
    if n < HEAD || byte(chars, 0) != STEP_FRAME {
        return Err(Refusal::WrongFrame);
    }
    let count = n - HEAD;
    // No `From` makes a usize a u64.
    if number(&chars[2..6]) != count as u64 {
        return Err(Refusal::WrongFrame);
    }
    if DIGIT_ROOM < count || !digits_fit(chars) {
        return Err(Refusal::OutOfRange);
    }
    Ok(())
}

// Whether each byte behind `20 llll` is a digit of an address.
fn digits_fit(chars: &[u8]) -> bool
    ensures { result ≡ all_digits (behind (read_bytes chars.now)) }
{
    let n = chars.len() / 2;
    for k in HEAD..n {
        if !(LOWEST..=HIGHEST).contains(&byte(chars, k)) {
            return false;
        }
    }
    true
}

// The digits of a line that has `count` of them, at the front of the array.
fn write_digits(chars: &[u8], count: usize, digits: &mut Digits)
    requires { (count ≤ most) × (length (behind (read_bytes chars.now)) ≡ count) }
    ensures { digits.new
        ≡ sets digits.old 0 (behind (read_bytes chars.now)) }
{
    for i in 0..count {
        digits[i] = byte(chars, i + HEAD);
    }
}
