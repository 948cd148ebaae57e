// The judging program: reads a table and then a script from standard input, and tells in words what the table
// holds and where each of its literals stands, and what each line of the script asks for, or the refusal that
// ends the work. All that it tells comes from the proved libraries; here it is only read and written.
#![tactic(auto)]

mod words;

use columns::Table;
use inputs::{input_room, table_and_script};
use standard_input::read_full;
use std::io;
use tables::check;
use words::{say_refusal, say_script, say_table};

fn main(rt: HostRuntime) -> io::Result<()> {
    let mut buffer = input_room();
    let count = read_full(&mut rt.stdin(), &mut buffer)?;
    judge(&rt, &buffer[..count])
}

// Judges the table's text, and behind it the script.
fn judge(rt: &impl Print, input: &[u8]) -> io::Result<()> {
    let (text, script) = table_and_script(input);
    let mut table = Table::new();
    match check(text, &mut table) {
        Err(refused) => say_refusal(rt, "table", refused),
        Ok(counts) => {
            say_table(rt, counts, &table)?;
            say_script(rt, script)
        }
    }
}
