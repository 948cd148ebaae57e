// Runs: started, and stepped by an address. A step is weighed first, and only one that has a derivation and fits the rooms is
// taken, so that a refused one leaves every word as it was.
#![tactic(auto)]

ghost use Rattle.std.specs.Prelude.{◌≡◌};
ghost use Rattle.leaves.specs.code.Leaves.{with_words};
ghost use Rattle.runs.specs.Answer.{answer_told};
ghost use Rattle.runs.specs.code.Doors as spec;
ghost use Rattle.runs.specs.words.Held.{words_of, Keeps, Begins};

use control::{Counters, NODE_WORDS, Run, TRACK_WORDS, Words};
use counting::{ARCS, CELLS, REFERENCE, counter, over_room, recount, tally_of};
use leaves::{Taken, call_start};
use lines::Refusal;
use plans::{Plan, Show};
use rules::Event;
use scripts::Digits;
use stepping::take;
use weighing::weigh_at;
use weights::Weight;

// How deep control and the terms below it are gone down to, at most: a control has at most 1,024 cells, and an
// untouched term 64 levels, each of which a step may enter.
const CONTROL_LEVELS: usize = 1025;

const STEP_LEVELS: usize = 2048;

// What an accepted step shows.
#[derive(Clone, Copy)]
pub struct Shown {
    pub event: Event,
}

// Starts a run: control is the call of definition 00 at reference 0, and nothing is marked yet.
pub fn start(run: &mut Run)
    ensures nodes_after { run.new.words.nodes ≡ spec.fresh_nodes }
    ensures track_after { run.new.words.track ≡ spec.fresh_track }
    ensures counters_after { run.new.counters ≡ spec.fresh_counters }
    ensures begins { Begins (words_of run.new) }
{
    run.words.nodes = [0u16; NODE_WORDS];
    run.words.track = [0u16; TRACK_WORDS];
    run.counters = [0u16, 1, 1, 0, 0, 0, 0, 0];
}

// Steps a run by the first `count` of the digits. Where the words hold a run of a table's plan, the answer is document 01's,
// and they hold the run behind it. `looking::digit_at` tells why the count stands beside the digits, here and in `weigh` and
// `perform`.
pub fn step(count: usize, digits: &Digits, show: &Show, run: &mut Run) -> Result<Shown, Refusal>
    ensures counters_after { spec.with_answer (answer_told result) run.new.words.nodes run.new.words.track run.new.counters
        ≡ spec.stepped show.now.plan show.now.table.payloads count digits.now
        run.old.words.nodes run.old.words.track run.old.counters }
    ensures keeps { Keeps show.now.plan show.now.table.payloads count digits.now
        (words_of run.old) (answer_told result)
        (words_of run.new) }
{
    let weighed = weigh(count, digits, show, run);
    let w = weighed.ok_or(Refusal::NoDerivation)?;
    if w.at != count {
        return Err(Refusal::NoDerivation);
    }
    over_room(w, &run.counters)?;
    let taken = perform(count, digits, &show.plan, &run.counters, &mut run.words);
    recount(taken, &mut run.counters);
    Ok(Shown { event: taken.event })
}

// Weighs the step that an address names.
fn weigh(count: usize, digits: &Digits, show: &Show, run: &Run) -> Option<Weight>
    ensures { result ≡ spec.weight show.now.plan show.now.table.payloads count digits.now
        run.now.words.nodes run.now.words.track run.now.counters }
{
    let reference = counter(REFERENCE, &run.counters);
    if reference == 0 {
        return start_weight();
    }
    let cells = counter(CELLS, &run.counters);
    let arcs = counter(ARCS, &run.counters);
    weigh_at(
        reference,
        0,
        0,
        0,
        cells,
        CONTROL_LEVELS,
        count,
        arcs,
        digits,
        show,
        &run.words,
    )
}

// The start's call labels its node and draws once.
fn start_weight() -> Option<Weight>
    ensures { result ≡ spec.start_weight }
{
    Some(Weight {
        event: Event::Tau,
        at: 0,
        size: 1,
        nodes: 1,
        arcs: 1,
        meetings: 0,
        met: 0,
    })
}

// Takes the step that an address names.
fn perform(
    count: usize,
    digits: &Digits,
    plan: &Plan,
    counters: &Counters,
    words: &mut Words,
) -> Taken
    ensures { with_words result words.new.nodes words.new.track
        ≡ spec.performed plan.now count digits.now
        words.old.nodes words.old.track counters.now }
{
    let reference = counter(REFERENCE, counters);
    let tally = tally_of(counters);
    if reference == 0 {
        return call_start(tally, words);
    }
    let cells = counter(CELLS, counters);
    take(
        reference,
        0,
        0,
        cells,
        STEP_LEVELS,
        count,
        tally,
        digits,
        plan,
        words,
    )
}
