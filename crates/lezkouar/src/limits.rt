// What the program takes at most, so that no call of it needs more memory than a desktop has. The texts of refusals name these numbers.

// How many moves a rehearsal has.
pub(crate) const MOST_MOVES: usize = 1_000_000;

// How many bytes a journal has that is played. A rehearsal has 17 of them at most: one for each seat, and the coordinator's.
pub(crate) const MOST_BYTES: usize = 16_777_216;

// How many places a queue of notifications has.
pub(crate) const MOST_PLACES: usize = 1_048_576;

// How many bytes of a journal file are read.
pub(crate) const MOST_FILE_BYTES: usize = 67_108_864;

// How many bytes a line of input has.
pub(crate) const MOST_LINE_BYTES: usize = 65_536;

// How many situations of a walk are kept, and how many bytes of what tells them apart.
pub(crate) const MOST_SITUATIONS: usize = 4_000_000;

pub(crate) const MOST_SITUATION_BYTES: usize = 335_544_320;
