// A run's block by its parts: started, stepped, played by a script's line, and what it offers and how it stands. A block that was
// never filled is refused, by its stamp; what a door answers is told as a number.
#![tactic(auto)]

ghost use Rattle.std.specs.Prelude.{◌≡◌, drop};
ghost use Rattle.lines.specs.Line.{lines};
ghost use Rattle.run_parts.specs.code.RunTold as host;

use answers::{
    DONE, Head, RUN_STAMP, cursor_behind, of_offers, of_played, of_refusal, of_status, of_step,
    unready,
};
use control::Run;
use counting::REFERENCE;
use lines::Refusal;
use offers::offers;
use plans::Show;
use playing::play;
use runs::{start, step};
use scripts::{DIGIT_ROOM, Digits};
use status::status_at;
use telling::put_copy;

// Starts a run in a run's block.
pub fn start_parts<'b>(stamp: &'b mut usize, run: &'b mut Run)
    ensures { host.with_start stamp.new run.new.words.nodes run.new.words.track run.new.counters
        ≡ host.started }
{
    start(run);
    *stamp = RUN_STAMP;
}

// Steps a run by the digits of an address; tells the event or the refusal.
pub fn step_parts<'s, 'b>(
    address: &'s [u8],
    head: &'b Head,
    show: &'b Show,
    stamp: &'b usize,
    digits: &'b mut Digits,
    run: &'b mut Run,
) -> u32
    ensures { host.with_run result digits.new run.new.words.nodes run.new.words.track run.new.counters
        ≡ host.stepped head.now stamp.now show.now.plan show.now.table.payloads
        digits.old run.old.words.nodes run.old.words.track run.old.counters
        address.now }
{
    let unready = unready(head[0], *stamp);
    if unready != DONE {
        return unready;
    }
    let count = address.len();
    if DIGIT_ROOM < count {
        return of_refusal(Refusal::NoDerivation.number());
    }
    put_copy(address, count, 0, digits);
    of_step(step(count, digits, show, run).map_err(Refusal::number))
}

// Plays the line of a script that begins at the cursor, which goes behind an accepted one; tells the event, the refusal, or
// that there is no further line.
pub fn play_parts<'s, 'n, 'b>(
    script: &'s [u8],
    at: &'n mut usize,
    head: &'b Head,
    show: &'b Show,
    stamp: &'b usize,
    digits: &'b mut Digits,
    run: &'b mut Run,
) -> u32
    ensures { host.with_line result at.new digits.new run.new.words.nodes run.new.words.track
        run.new.counters
        ≡ host.played head.now stamp.now show.now.plan show.now.table.payloads
        digits.old run.old.words.nodes run.old.words.track run.old.counters
        at.old (lines (drop at.old script.now)) }
{
    let unready = unready(head[0], *stamp);
    if unready != DONE {
        return unready;
    }
    let from = *at;
    let played = play(script, from, digits, show, run).map_err(Refusal::number);
    *at = cursor_behind(played, from);
    of_played(played)
}

// What a run offers: the events as the bits of a number; tells whether τ and ✓ are.
pub fn offers_parts<'n, 'b>(
    events: &'n mut u64,
    head: &'b Head,
    show: &'b Show,
    stamp: &'b usize,
    run: &'b Run,
) -> u32
    ensures { host.with_events result events.new
        ≡ host.offers head.now stamp.now show.now.plan show.now.table.payloads
        run.now.words.nodes run.now.counters events.old }
{
    let unready = unready(head[0], *stamp);
    if unready != DONE {
        return unready;
    }
    let offered = offers(usize::from(run.counters[REFERENCE]), show, &run.words.nodes);
    *events = offered.events;
    of_offers(offered)
}

// Tells the status of a run.
pub fn status_parts<'b>(head: &'b Head, show: &'b Show, stamp: &'b usize, run: &'b Run) -> u32
    ensures { result ≡ host.status head.now stamp.now show.now.plan show.now.table.payloads
        run.now.words.nodes run.now.counters }
{
    let unready = unready(head[0], *stamp);
    if unready != DONE {
        return unready;
    }
    of_status(status_at(usize::from(run.counters[REFERENCE]), show, &run.words.nodes))
}
