// What a run offers: the events that its control has derivations for, by following the control and the terms below
// it downward. Nothing is written. It relies on the plan of the table, the words of the run, and what sides offer
// together. Each call divides what it may follow between its sides, so that the calls are few whatever is lent.
#![tactic(auto)]

ghost use Rattle.std.specs.Prelude.{ℕ, ◌≤◌, ◌≡◌, ◌&&◌};
ghost use Rattle.rules.specs.Process.{Process};
ghost use Rattle.plans.specs.words.Plan.{Layout};
ghost use Rattle.offering.specs.code.Offering.{seen};
ghost use Rattle.offers.specs.code.Following as code;
ghost use Rattle.rules.specs.Run.{cell_room};
ghost use Rattle.offers.specs.words.Told.{Low, Controls, HoldsPart, TellsOffers};

use columns::payload_of;
use control::{
    ENTERED, FIRST_SIDE, FRAME, Nodes, OMEGA, SECOND_SIDE, SIZES, STATE, TERM, UNTOUCHED, word,
};
use frames::TERM_ROOM;
use offering::{Offered, combined, own, settled, unseen};
use plans::{
    EXTERNAL_WORD, PARALLEL_WORD, Plan, SEQUENCE_WORD, Show, around_of, kind_of, operand_of,
    second_of,
};
use rules::CELL_ROOM;

// A path has at most 64 digits, so a term has at most 65 levels.
pub const OFFER_LEVELS: usize = 65;

// The words of a reference that tell how many cells the sides of a choice or parallel have.
const FIRST_CELLS: usize = SIZES + 1;

const SECOND_CELLS: usize = SIZES + 2;

// What a run at a reference offers.
pub fn offers(reference: usize, show: &Show, nodes: &Nodes) -> Offered
    ensures result_value { seen result ≡
        code.offered show.now.plan show.now.table.payloads nodes.now reference }
    ensures tells_offers { (l : Layout) (P : Process) → Low l
        → Controls l show.now.plan show.now.table.payloads nodes.now reference P → TellsOffers result P }
{
    if reference == 0 {
        unseen(true, false)
    } else {
        offers_at(reference, 0, 0, CELL_ROOM, show, nodes)
    }
}

// What a part of a run's control offers: what stands at a reference inside sequences up to a bound; at reference 0 a
// side that has not stepped, of a term.
pub fn offers_of_part(
    reference: usize,
    term: usize,
    bound: usize,
    show: &Show,
    nodes: &Nodes,
) -> Offered
    ensures result_value { seen result ≡ code.at cell_room show.now.plan show.now.table.payloads nodes.now
        cell_room reference term bound }
    ensures tells_offers { (l : Layout) (P : Process) → Low l
        → HoldsPart l show.now.plan show.now.table.payloads nodes.now reference term bound P
        → TellsOffers result P }
{
    offers_at(reference, term, bound, CELL_ROOM, show, nodes)
}

// What is offered by what stands at reference n, inside sequences up to a bound; at reference 0 by a side that
// has not stepped, of term t. At most `left` cells are followed: of an entered choice or parallel, one and those
// that its words tell of each side, and no side where these are more.
fn offers_at(n: usize, t: usize, bound: usize, left: usize, show: &Show, nodes: &Nodes) -> Offered
    ensures { (f : ℕ) → left ≤ f → seen result ≡
        code.at f show.now.plan show.now.table.payloads nodes.now left n t bound }
{
    if left == 0 {
        return unseen(false, false);
    }
    if n == 0 {
        return offers_of_term(t, TERM_ROOM, OFFER_LEVELS, show);
    }
    let state = word(n, STATE, nodes);
    if ENTERED < state {
        return unseen(false, false);
    }
    let term = word(n, TERM, nodes);
    let nested = followed(n, term, bound, &show.plan, nodes);
    if state == UNTOUCHED {
        let resting = offers_of_term(term, TERM_ROOM, OFFER_LEVELS, show);
        return settled(nested, resting);
    }
    let cells = word(n, FIRST_CELLS, nodes);
    let others = word(n, SECOND_CELLS, nodes);
    if !fits(cells, others, left) {
        return unseen(false, false);
    }
    let within = inside(n, term, &show.plan, nodes);
    let first = word(n, FIRST_SIDE, nodes);
    let second = word(n, SECOND_SIDE, nodes);
    let l = offers_at(first, first_of(term), within, cells, show, nodes);
    let subterm = second_of(term, &show.plan);
    let r = offers_at(second, subterm, within, others, show, nodes);
    let both = both_ended(first, second, nodes);
    let sides = combined(
        kind_of(term, &show.plan),
        payload_of(term, &show.table.payloads),
        both,
        l,
        r,
    );
    settled(nested, sides)
}

// What a term that no step has touched offers, at most `left` levels deep. Its terms stand before `end`: first its
// own, then those of its first subterm, then those of its second. Where they do not, no subterm is followed, and
// so none twice.
fn offers_of_term(t: usize, end: usize, left: usize, show: &Show) -> Offered
    ensures { seen result ≡ code.of_term left show.now.plan show.now.table.payloads t end }
{
    if left == 0 {
        return unseen(false, false);
    }
    let kind = kind_of(t, &show.plan);
    if kind < EXTERNAL_WORD || PARALLEL_WORD < kind {
        return own(kind, operand_of(t, &show.plan));
    }
    let first = first_of(t);
    let second = second_of(t, &show.plan);
    if !in_order(first, second, end) {
        return unseen(false, false);
    }
    let l = offers_of_term(first, second, left - 1, show);
    if kind == SEQUENCE_WORD {
        return settled(true, l);
    }
    let r = offers_of_term(second, end, left - 1, show);
    combined(kind, payload_of(t, &show.table.payloads), false, l, r)
}

// Whether two sides of so many cells, and the cell that they are sides of, are no more than `left`.
fn fits(cells: usize, others: usize, left: usize) -> bool
    ensures { result ≡ code.fits cells others left }
{
    cells < left && others < left - cells
}

// Whether a first subterm stands before a second, and that before the end.
fn in_order(first: usize, second: usize, end: usize) -> bool
    ensures { result ≡ code.in_order first second end }
{
    first < second && second < end
}

// Whether a sequence is around the term that stands at reference n, up to a bound.
fn followed(n: usize, term: usize, bound: usize, plan: &Plan, nodes: &Nodes) -> bool
    ensures { result ≡ code.followed plan.now nodes.now n term bound }
{
    around_of(term, plan) != 0 || word(n, FRAME, nodes) != bound
}

// The bound of the sides of the choice or parallel that stands at reference n.
pub fn inside(n: usize, term: usize, plan: &Plan, nodes: &Nodes) -> usize
    ensures { result ≡ code.bound plan.now nodes.now n term }
{
    if kind_of(term, plan) == PARALLEL_WORD || around_of(term, plan) != 0 {
        n
    } else {
        word(n, FRAME, nodes)
    }
}

// Whether both sides are at Ω.
fn both_ended(first: usize, second: usize, nodes: &Nodes) -> bool
    ensures { result ≡ code.ended nodes.now first && code.ended nodes.now second }
{
    ended(first, nodes) && ended(second, nodes)
}

// Whether what stands at a reference is Ω.
pub fn ended(n: usize, nodes: &Nodes) -> bool
    ensures { result ≡ code.ended nodes.now n }
{
    n != 0 && word(n, STATE, nodes) == OMEGA
}

// A term's first subterm.
pub fn first_of(t: usize) -> usize
    ensures { result ≡ code.first_of t }
{
    if t < TERM_ROOM { t + 1 } else { 0 }
}
