#![tactic(auto, using(crate::proofs::SlotFacts::slots))]

ghost use Rattle.std.specs.Prelude.{◌≡◌, ◌+◌, ◌*◌, ◌/◌, min, [], ◌++◌, length, take, if◌then◌else◌};
ghost use borrow.Rule.Slice.PartMut.{put_mid};
ghost use Rattle.records.specs.Bytes.{bytes_of};
ghost use Rattle.records.specs.Recs.{model_of};
ghost use Rattle.records.specs.Sizes.{record_length};
ghost use Rattle.logs.specs.Adding.{has_room, loose_after, add_answer};
ghost use Rattle.journals.specs.Bounds.{journal-within};
ghost use Rattle.logs.specs.Bounds.{smaller};
ghost use Rattle.journals.specs.Journals.{bytes_in, safe_in, loose_in, room_in};

use super::Journal;
use super::slots::record_at;
use logs::log::{Full, Log};
use records::codec::{RECORD_BYTES, encode};
use records::record::Record;

impl Log for Journal {
    ghost safe = { safe_in };

    ghost loose = { loose_in };

    ghost capacity = { room_in };

    // n bytes of the loose records had reached the disk
    ghost survives = { λ j n. min (length (loose_in j)) (n / record_length) };

    ghost within = { λ j. journal-within j.secured j.used j.bytes j.fits };

    ghost atmost = { λ j n. smaller (length (loose_in j)) (n / record_length) };

    // Beyond what every log promises: it writes the 22 bytes of the record behind the last one, and no other.
    fn add(&mut self, record: Record) -> Result<(), Full>
        ensures capacity { room_in self.new ≡ room_in self.old }
        ensures safe { safe_in self.new ≡ safe_in self.old }
        ensures loose { loose_in self.new ≡ loose_after (room_in self.old) (safe_in self.old) (loose_in self.old) (model_of «record») }
        ensures answer { result ≡ add_answer (room_in self.old) (safe_in self.old) (loose_in self.old) }
        ensures bytes { bytes_in self.new ≡ (if has_room (room_in self.old) (safe_in self.old) (loose_in self.old) then put_mid (record_length * (length (safe_in self.old) + length (loose_in self.old))) record_length (bytes_in self.old) (bytes_of «record») else bytes_in self.old) }
    {
        let capacity = self.capacity();
        if self.used >= capacity {
            return Err(Full { capacity });
        }
        let at = RECORD_BYTES * self.used;
        self.bytes[at..at + RECORD_BYTES].copy_from_slice(&encode(&record));
        self.used += 1;
        Ok(())
    }

    // Beyond what every log promises: it changes no byte.
    fn secure(&mut self)
        ensures capacity { room_in self.new ≡ room_in self.old }
        ensures safe { safe_in self.new ≡ safe_in self.old ++ loose_in self.old }
        ensures loose { loose_in self.new ≡ [] }
        ensures bytes { bytes_in self.new ≡ bytes_in self.old }
    {
        self.secured = self.used;
    }

    fn read(&self, i: usize) -> Option<Record> {
        if i >= self.used {
            return None;
        }
        record_at(&self.bytes, i)
    }

    fn count(&self) -> usize {
        self.used
    }

    fn secured(&self) -> usize {
        self.secured
    }

    fn capacity(&self) -> usize {
        self.bytes.len() / RECORD_BYTES
    }

    // Beyond what every log promises: it changes no byte.
    fn restart(&mut self, n: u32)
        ensures capacity { room_in self.new ≡ room_in self.old }
        ensures safe { safe_in self.new ≡ safe_in self.old ++ take (min (length (loose_in self.old)) (n / record_length)) (loose_in self.old) }
        ensures loose { loose_in self.new ≡ [] }
        ensures bytes { bytes_in self.new ≡ bytes_in self.old }
    {
        let survivors = (self.used - self.secured).min(n as usize / RECORD_BYTES);
        self.secured += survivors;
        self.used = self.secured;
    }
}
