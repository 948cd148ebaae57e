// The tracking program: reads a table and then a script from standard input, and prints their listing. What it prints is
// the library's; here it is only read and written.
#![tactic(auto)]

use inputs::input_room;
use lines::part_of;
use listing::list;
use standard_input::read_full;
use std::io;

// No listing is longer.
const LISTING_ROOM: usize = 131086;

fn main(rt: HostRuntime) -> io::Result<()> {
    let mut input = input_room();
    let count = read_full(&mut rt.stdin(), &mut input)?;
    let mut out = [0u8; LISTING_ROOM];
    let length = list(&input[..count], &mut out);
    rt.write_all(part_of(&out, 0, length))
}
