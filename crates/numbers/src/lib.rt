// What characters stand for, two by two: a byte, a number of two bytes, or the number of all of them. It relies on nothing, and
// asks nothing of the characters; where they are a line's, their bytes are the line's.
#![tactic(auto)]

ghost use Rattle.std.specs.Prelude.{◌≡◌, ◌≤◌, ◌<◌};
ghost use Rattle.numbers.specs.code.Numbers.{value, byte_of, read_bytes, byte_at, number_of};
ghost use Rattle.lines.specs.Line.{number_at};

const LOW_56_BITS: u64 = 72057594037927936;

// Byte number k of the characters, 0 where they have no such byte.
pub fn byte(chars: &[u8], k: usize) -> u8
    ensures { result ≡ byte_at chars.now k }
{
    if chars.len() / 2 <= k {
        return 0;
    }
    byte_of(chars[2 * k], chars[2 * k + 1])
}

// The number that all the characters' bytes make, high byte first.
pub fn number(chars: &[u8]) -> u64
    ensures { result ≡ number_of 0 chars.now }
{
    let mut number: u64 = 0;
    for pair in chars.chunks_exact(2) {
        number = number % LOW_56_BITS * 256 + u64::from(byte_of(pair[0], pair[1]));
    }
    number
}

// The byte of two characters that are digits.
fn byte_of(high: u8, low: u8) -> u8
    ensures { result ≡ byte_of high low }
{
    value_of(high) % 16 * 16 + value_of(low) % 16
}

// What a digit counts, with no test.
fn value_of(c: u8) -> u8
    ensures { result ≡ value c }
{
    c % 16 + c / 64 * 9
}

// The number of two bytes from byte k on; a byte that there is not counts as 0.
pub fn number_at(chars: &[u8], k: usize) -> usize
    requires { k ≤ 6 }
    ensures value { result ≡ number_at k (read_bytes chars.now) }
    ensures upper_bound { result < 65536 }
{
    byte_at(chars, k) * 256 + byte_at(chars, k + 1)
}

// Byte number k.
pub fn byte_at(chars: &[u8], k: usize) -> usize
    ensures value { result ≡ byte_at chars.now k }
    ensures upper_bound { result < 256 }
{
    usize::from(byte(chars, k))
}
