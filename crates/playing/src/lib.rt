// A script's line played: its digits are read, and the run takes its step. It relies on the script's lines and on the step.
#![tactic(auto)]

ghost use Rattle.std.specs.Prelude.{◌≡◌, drop};
ghost use Rattle.std.proofs.Math.Seq as seq;
ghost use Rattle.scripts.specs.Script.{left};
ghost use Rattle.lines.specs.Line.{lines};
ghost use Rattle.runs.specs.words.Held.{words_of};
ghost use Rattle.playing.specs.Played.{played_told};
ghost use Rattle.playing.specs.code.Playing as spec;
ghost use Rattle.playing.specs.words.Account.{Plays};

use control::Run;
use lines::Refusal;
use plans::Show;
use rules::Event;
use runs::{Shown, step};
use scripts::{Address, Digits, next_step};

// The step that a line of a script comes to: the event that it shows, with the next line from `next` on.
#[derive(Clone, Copy)]
pub struct PlayedStep {
    pub event: Event,
    pub next: usize,
}

// Plays the line of a script that begins at `at`: its digits go to the front of `digits`, and the run takes its step; at the
// end of the script there is none. Where the words hold a run of a table's plan, the answer is document 01's, and they hold the
// run behind it.
pub fn play(
    text: &[u8],
    at: usize,
    digits: &mut Digits,
    show: &Show,
    run: &mut Run,
) -> Result<Option<PlayedStep>, Refusal>
    ensures counters_after { spec.with_played (played_told result) run.new.words.nodes run.new.words.track run.new.counters
        ≡ spec.played show.now.plan show.now.table.payloads run.old.words.nodes run.old.words.track
        run.old.counters at (lines (drop at text.now)) digits.old }
    ensures digits_after { digits.new
        ≡ seq.sets digits.old 0 (left (lines (drop at text.now))) }
    ensures plays { Plays show.now.plan show.now.table.payloads digits.old at
        (lines (drop at text.now))
        (words_of run.old) (played_told result)
        (words_of run.new) }
{
    let line = next_step(text, at, digits);
    let Ok(asked) = line else {
        let refusal = line.unwrap_err();
        return Err(refusal);
    };
    let Some(Address { count, next }) = asked else {
        return Ok(None);
    };
    let Shown { event } = step(count, digits, show, run)?;
    Ok(Some(PlayedStep { event, next }))
}
