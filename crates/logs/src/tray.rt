ghost use Rattle.std.specs.Prelude.{◌≤◌};
ghost use Rattle.arrayvec.specs.ArrayVec.{array_vec_len};
ghost use Rattle.logs.specs.Rows.{RowsSound};
ghost use Rattle.logs.specs.Sizes.{tray_length};

use arrayvec::ArrayVec;
use records::row::Row;

// How many records a tray can hold.
pub const TRAY_ROWS: usize = 32;

// A tray: a log in a table of 32 rows, for a store that keeps its records in memory of its own.
#[derive(Drop)]
pub struct Tray {
    rows: ArrayVec<Row, TRAY_ROWS>,
    // how many of the rows, from the first on, are secured
    secured: usize,
    ghost order: { secured ≤ array_vec_len rows },
    ghost fits: { array_vec_len rows ≤ tray_length },
    ghost sound: { RowsSound (array_vec_len rows) rows.items },
}

mod logging;
