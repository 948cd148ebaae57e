// A table's block by its parts: a table's text checked and laid out. What the doors answer is told as a number.
#![tactic(auto)]

ghost use Rattle.std.specs.Prelude.{◌≡◌};
ghost use Rattle.tables.specs.Table.{judged};
ghost use Rattle.columns.specs.words.Held.{held};
ghost use Rattle.table_parts.specs.code.TableTold as host;

use answers::{DONE, Head, NumberAt, TABLE_STAMP, line_of, of_judged};
use plans::{Show, lay_out};
use tables::check;

// Checks a table's text, and fills a table's block with it and its plan; or tells the refusal and its line.
pub fn check_parts<'s, 'n, 'b>(
    text: &'s [u8],
    line: &'n mut usize,
    head: &'b mut Head,
    show: &'b mut Show,
) -> u32
    ensures { host.with_table result line.new head.new (held show.new.table) show.new.plan
        ≡ host.checked head.old (held show.old.table) show.old.plan (judged text.now) }
{
    let checked = check(text, &mut show.table).map_err(NumberAt::of);
    *line = line_of(checked);
    let Ok(counts) = checked else {
        return of_judged(checked);
    };
    lay_out(counts.terms, &show.table, &mut show.plan);
    *head = [TABLE_STAMP, counts.definitions, counts.events, counts.terms];
    DONE
}
