// Saved tracks, as graphs and as texts: definitions and laws alone.
#![tactic(auto)]

// First bytes of a saved track's frames, and its edition.
pub const TRACK_FRAME: u8 = 0x30;

pub const NODE_FRAME: u8 = 0x31;

pub const ARC_FRAME: u8 = 0x32;

pub const MEETING_FRAME: u8 = 0x33;

pub const TRACK_END_FRAME: u8 = 0x3f;

pub const TRACK_EDITION: u8 = 1;
