// The report's rules and document 01's runs, as definitions and laws: Fig. 7 and Fig. 3, a run with its rooms, offers and
// status. What a step shows and how a run stands are declared here, and used by the definitions and by all code above.
#![tactic(auto)]

// The rooms of a run.
pub const CELL_ROOM: usize = 1024;

pub const NODE_ROOM: usize = 4096;

pub const ARC_ROOM: usize = 8192;

pub const MEETING_ROOM: usize = 4096;

// What a step shows: τ, ✓ or a numbered event.
#[derive(Clone, Copy)]
pub enum Event {
    Tau,
    Tick,
    Visible(u8),
}

// How a run stands: ended at Ω, stuck where the plain rules have no step, and else live.
#[derive(Clone, Copy)]
pub enum Status {
    Live,
    Ended,
    Stuck,
}
