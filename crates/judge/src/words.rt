// What was judged, in words, a line each.
use columns::{Table, after_of, kind_of, payload_of};
use frames::{DEFINITION_ROOM, PATH_ROOM};
use kinds::PREFIX;
use lines::{Refusal, RefusedAt, part_of};
use places::{Literal, Placed, place};
use scripts::{Address, DIGIT_ROOM, SCRIPT_TEXT_ROOM, next_step};
use std::io;
use tables::TableCounts;

// The refusal that ends the work.
pub fn say_refusal(rt: &impl Print, what: &str, refused: RefusedAt) -> io::Result<()> {
    let number = refused.refusal.number();
    let line = refused.line;
    println!(rt; "{what} refused {number} at line {line}")
}

// What a table holds: its counts, its left-hand sides and its terms.
pub fn say_table(rt: &impl Print, counts: TableCounts, table: &Table) -> io::Result<()> {
    let TableCounts {
        definitions,
        events,
        terms,
    } = counts;
    println!(rt; "table accepted {definitions} {events} {terms}")?;
    say_lefts(rt, definitions, table)?;
    say_terms(rt, terms, table)
}

fn say_lefts(rt: &impl Print, count: usize, table: &Table) -> io::Result<()> {
    for definition in (0..DEFINITION_ROOM as u8).take(count) {
        print!(rt; "left {definition} at")?;
        say_place(rt, Literal::Left(definition), table)?;
        println!(rt)?;
    }
    Ok(())
}

fn say_terms(rt: &impl Print, count: usize, table: &Table) -> io::Result<()> {
    for n in 0..count {
        say_term(rt, n, table)?;
    }
    Ok(())
}

// A term, with the place of its own literal, and of a prefix's event.
fn say_term(rt: &impl Print, n: usize, table: &Table) -> io::Result<()> {
    let kind = kind_of(n, &table.kinds);
    let payload = payload_of(n, &table.payloads);
    let after = after_of(n, &table.after);
    print!(rt; "term {n} kind {kind} payload {payload:x} after {after} at")?;
    say_place(rt, Literal::Own(n), table)?;
    if kind == PREFIX {
        print!(rt; " event")?;
        say_place(rt, Literal::Event(n), table)?;
    }
    println!(rt)
}

// The place of a literal: its definition and its path.
fn say_place(rt: &impl Print, literal: Literal, table: &Table) -> io::Result<()> {
    let mut path = [0u8; PATH_ROOM];
    match place(literal, table, &mut path) {
        Some(Placed { definition, length }) => {
            print!(rt; " {definition}")?;
            say_digits(rt, part_of(&path, 0, length))
        }
        None => print!(rt; " nowhere"),
    }
}

// What each line of a script asks for, up to the first that is refused.
pub fn say_script(rt: &impl Print, script: &[u8]) -> io::Result<()> {
    if SCRIPT_TEXT_ROOM < script.len() {
        return say_refusal(rt, "script", Refusal::TextOverRoom.at(0));
    }
    let mut digits = [0u8; DIGIT_ROOM];
    let mut at = 0;
    for line in 1..=SCRIPT_TEXT_ROOM {
        let step = next_step(script, at, &mut digits);
        let Ok(Some(Address { count, next })) = step else {
            return say_end(rt, step, line);
        };
        print!(rt; "step {line}")?;
        say_digits(rt, part_of(&digits, 0, count))?;
        rt.write_all(b"\n")?;
        at = next;
    }
    Ok(())
}

// What ends a script: the refusal of its line, or nothing where there is none.
fn say_end(rt: &impl Print, step: Result<Option<Address>, Refusal>, line: usize) -> io::Result<()> {
    match step {
        Ok(_) => Ok(()),
        Err(refusal) => say_refusal(rt, "script", refusal.at(line)),
    }
}

// Digits behind a blank, and a dash where there are none. For speed, what has no number in it is written as it stands.
fn say_digits(rt: &impl Print, digits: &[u8]) -> io::Result<()> {
    if digits.is_empty() {
        return rt.write_all(b" -");
    }
    rt.write_all(b" ")?;
    for digit in digits {
        print!(rt; "{digit}")?;
    }
    Ok(())
}
