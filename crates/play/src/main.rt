// The playing program: reads a table and then a script from standard input, plays the script up to the first line that is
// refused, and tells the inside of the run. It tells nothing where there is no run, since the table is refused or the
// script is over its room. All that it tells comes from the proved libraries; here it is only read and written.
#![tactic(auto)]

mod telling;

use control::Run;
use inputs::{input_room, table_and_script};
use plans::{Show, lay_out};
use playing::play;
use runs::start;
use scripts::{DIGIT_ROOM, SCRIPT_TEXT_ROOM};
use standard_input::read_full;
use std::io;
use tables::check;
use telling::tell_run;

fn main(rt: HostRuntime) -> io::Result<()> {
    let mut buffer = input_room();
    let count = read_full(&mut rt.stdin(), &mut buffer)?;
    play_input(&rt, &buffer[..count])
}

// Checks the table's text, and plays the script behind it.
fn play_input(rt: &impl Print, input: &[u8]) -> io::Result<()> {
    let (text, script) = table_and_script(input);
    let mut show = Show::new();
    match check(text, &mut show.table) {
        Err(_) => Ok(()),
        Ok(counts) => {
            lay_out(counts.terms, &show.table, &mut show.plan);
            play_script(rt, script, &show)
        }
    }
}

// Plays a script, and tells what the run has come to.
fn play_script(rt: &impl Print, script: &[u8], show: &Show) -> io::Result<()> {
    if SCRIPT_TEXT_ROOM < script.len() {
        return Ok(());
    }
    let mut run = Run::new();
    start(&mut run);
    play_lines(script, show, &mut run);
    tell_run(rt, show, &run)
}

// Plays lines up to the first that is no step; a script has no more lines than bytes.
fn play_lines(script: &[u8], show: &Show, run: &mut Run) {
    let mut digits = [0u8; DIGIT_ROOM];
    let mut at = 0;
    for _ in 0..SCRIPT_TEXT_ROOM {
        let Ok(Some(step)) = play(script, at, &mut digits, show, run) else {
            return;
        };
        at = step.next;
    }
}
