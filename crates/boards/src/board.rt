ghost use Rattle.std.specs.Prelude.{◌≡◌, ◌^◌, ◌<◌, length};
ghost use Rattle.boards.specs.Sizes.{cell_count};

use words::row::Row;

// How many cells a board has: two for each seat.
pub const CELLS: usize = 32;

// A board: a line that keeps the last notification for each seat and direction, and shows it again and again.
// A cell whose row is no notification's is empty.
#[derive(Drop)]
pub struct Board {
    // an array: there is exactly a cell for each seat and direction
    cells: [Row; CELLS],
    // the cell after the one that was given last
    next: usize,
    posts: u64,
    ghost long: { length cells ≡ cell_count },
    ghost within: { next < cell_count },
    ghost counted: { posts < 2 ^ 64 },
}

mod carrying;
