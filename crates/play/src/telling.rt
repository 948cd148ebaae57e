// The inside of a run, told in lines of hexadecimal: what is offered, the counters, and the track by its references.
ghost use Rattle.std.specs.Prelude.{◌≤◌};

use columns::Table;
use control::{LABEL, MEETINGS_FROM, Run, Track, track_word, word};
use counting::{ARCS, FRESH, MEETINGS, REFERENCE};
use frames::PATH_ROOM;
use lines::part_of;
use marks::literal_of;
use offers::offers;
use places::{Literal, Placed, place};
use plans::Show;
use std::io;

// Tells what a run has come to.
pub fn tell_run(rt: &impl Print, show: &Show, run: &Run) -> io::Result<()> {
    tell_offers(rt, show, run)?;
    tell_counters(rt, run)?;
    tell_nodes(rt, &show.table, run)?;
    tell_pairs(rt, "52", 0, run.counters[ARCS], &run.words.track)?;
    tell_pairs(
        rt,
        "53",
        MEETINGS_FROM,
        run.counters[MEETINGS],
        &run.words.track,
    )
}

// `42 tt kk` and the set of events offered.
fn tell_offers(rt: &impl Print, show: &Show, run: &Run) -> io::Result<()> {
    let reference = usize::from(run.counters[REFERENCE]);
    let offered = offers(reference, show, &run.words.nodes);
    let tau = u8::from(offered.tau);
    let tick = u8::from(offered.tick);
    let events = offered.events;
    println!(rt; "42{tau:02x}{tick:02x}{events:016x}")
}

// `43` and the counters: reference, next fresh one, cells, nodes, arcs, meetings.
fn tell_counters(rt: &impl Print, run: &Run) -> io::Result<()> {
    print!(rt; "43")?;
    for counter in &run.counters[REFERENCE..=MEETINGS] {
        print!(rt; "{counter:04x}")?;
    }
    println!(rt)
}

// `51 iiii dd ll path`: each labelled reference with its place.
fn tell_nodes(rt: &impl Print, table: &Table, run: &Run) -> io::Result<()> {
    for n in 0..usize::from(run.counters[FRESH]) {
        let mark = word(n, LABEL, &run.words.nodes);
        if mark != 0 {
            print!(rt; "51{n:04x}")?;
            tell_place(rt, literal_of(mark), table)?;
            println!(rt)?;
        }
    }
    Ok(())
}

fn tell_place(rt: &impl Print, literal: Literal, table: &Table) -> io::Result<()> {
    let mut path = [0u8; PATH_ROOM];
    match place(literal, table, &mut path) {
        Some(Placed { definition, length }) => {
            print!(rt; "{definition:02x}{length:02x}")?;
            tell_path(rt, part_of(&path, 0, length))
        }
        None => print!(rt; "nowhere"),
    }
}

fn tell_path(rt: &impl Print, path: &[u8]) -> io::Result<()> {
    for digit in path {
        print!(rt; "{digit:02x}")?;
    }
    Ok(())
}

// `52 iiii jjjj`, or `53`: arcs or meetings in the order made.
fn tell_pairs(rt: &impl Print, tag: &str, from: usize, count: u16, track: &Track) -> io::Result<()>
    requires { from ≤ 16384 }
{
    for i in 0..usize::from(count) {
        let one = track_word(from + 2 * i, track);
        let other = track_word(from + 2 * i + 1, track);
        println!(rt; "{tag}{one:04x}{other:04x}")?;
    }
    Ok(())
}
