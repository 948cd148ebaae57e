// The constant table by kind: the bytes after a term's kind, and its subterms. The table check and the preorder walk consult
// it, and whatever follows terms downward.
#![tactic(auto)]

ghost use Rattle.std.specs.Prelude.{◌≡◌};
ghost use Rattle.kinds.specs.Kind as Kinds;

// The kinds of terms, as a frame and a column have them. Bytes and no enum: a frame and a column that C lends may have any byte,
// and `payload_bytes` and `subterms` answer for each, so that an enum would ask more of their callers.
pub const CALL: u8 = 1;

pub const PREFIX: u8 = 2;

pub const INTERNAL: u8 = 3;

pub const EXTERNAL: u8 = 4;

pub const SEQUENCE: u8 = 5;

pub const PARALLEL: u8 = 6;

pub const SKIP: u8 = 7;

pub const STOP: u8 = 8;

const PAYLOAD_BYTES: [u8; 9] = [0, 1, 1, 0, 0, 0, 8, 0, 0];

const SUBTERMS: [u8; 9] = [0, 0, 1, 2, 2, 2, 2, 0, 0];

// The bytes after a term's kind; 0 where there is no such kind.
pub fn payload_bytes(kind: u8) -> u8
    ensures { result ≡ Kinds.payload_bytes kind }
{
    PAYLOAD_BYTES.get(usize::from(kind)).copied().unwrap_or(0)
}

// The subterms of a term; 0 where there is no such kind.
pub fn subterms(kind: u8) -> u8
    ensures { result ≡ Kinds.subterms kind }
{
    SUBTERMS.get(usize::from(kind)).copied().unwrap_or(0)
}
