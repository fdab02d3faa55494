#![tactic(auto, using(crate::proofs::TableFacts::tables))]

ghost use Rattle.std.specs.Prelude.{◌≡◌, min, [], map, length};
ghost use Rattle.arrayvec.specs.ArrayVec.{array_vec_len};
ghost use Rattle.logs.specs.Bounds.{table-within, smaller};
ghost use Rattle.logs.specs.Sizes.{tray_length};
ghost use Rattle.logs.specs.Trays.{safe_in, loose_in};
ghost use Rattle.records.specs.Rows.{row_means};

use super::{TRAY_ROWS, Tray};
use crate::log::{Full, Log};
use arrayvec::ArrayVec;
use records::record::Record;
use records::row::Row;

impl Tray {
    // A tray without records.
    #[tactic(auto, unfolding(crate::specs::Tables::safe_of, crate::specs::Tables::loose_of))]
    pub fn new() -> Tray
        ensures safe { safe_in result ≡ [] }
        ensures loose { loose_in result ≡ [] }
    {
        Tray {
            rows: ArrayVec::new(),
            secured: 0,
        }
    }
}

impl Default for Tray {
    ghost is_default = { λ t. (safe_in t ≡ []) × (loose_in t ≡ []) };

    fn default() -> Tray {
        Tray::new()
    }
}

impl Log for Tray {
    ghost safe = { safe_in };

    ghost loose = { loose_in };

    ghost capacity = { λ _. tray_length };

    ghost survives = { λ t n. min (length (loose_in t)) n };

    ghost within = { λ t. table-within t.secured (array_vec_len t.rows) tray_length (map row_means t.rows.items) t.fits };

    ghost atmost = { λ t n. smaller (length (loose_in t)) n };

    fn add(&mut self, record: Record) -> Result<(), Full> {
        if self.rows.is_full() {
            return Err(Full {
                capacity: TRAY_ROWS,
            });
        }
        self.rows.push(Row::from(&record));
        Ok(())
    }

    fn secure(&mut self) {
        self.secured = self.rows.len();
    }

    fn read(&self, i: usize) -> Option<Record> {
        Record::try_from(*self.rows.get(i)?).ok()
    }

    fn count(&self) -> usize {
        self.rows.len()
    }

    fn secured(&self) -> usize {
        self.secured
    }

    fn capacity(&self) -> usize {
        TRAY_ROWS
    }

    // Not shared with a journal's: n counts records here and bytes there, and a journal cuts no rows off.
    fn restart(&mut self, n: u32) {
        let survivors = (self.rows.len() - self.secured).min(n as usize);
        self.secured += survivors;
        self.rows.truncate(self.secured);
    }
}
