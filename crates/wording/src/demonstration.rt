ghost use Rattle.std.specs.Prelude.{◌≡◌, ◌/◌, [], take, IfOk};
ghost use Rattle.records.specs.Sizes.{record_length};
ghost use Rattle.journals.specs.Journals.{bytes_in, safe_in, loose_in, room_in};
ghost use Rattle.wording.specs.Demonstration.{sample_recs, sample_bytes};

use journals::journal::Journal;
use logs::log::Log;
use records::codec::RECORD_BYTES;
use records::record::{Entry, Record};
use seats::seat::Seat;
use seats::set::SeatSet;
use std::alloc::{AllocError, Global};

// A journal with room for two records, both written and neither secured: transaction 7 is decided with seats 0, 1, 2 and 5, and seat 5 voted.
pub fn sample(heap: Global) -> Result<Journal, AllocError>
    ensures { IfOk result (λ j. (safe_in j ≡ []) × (loose_in j ≡ sample_recs) × (room_in j ≡ 2) × (bytes_in j ≡ sample_bytes)) }
{
    let mut journal = Journal::create(vec![in heap; 0; 2 * RECORD_BYTES]?);
    let Some(seat) = Seat::new(5) else {
        unreachable()
    };
    let _ = journal.add(Record::new(7, Entry::Decision(SeatSet::from_bits(0b10_0111))));
    let _ = journal.add(Record::new(7, Entry::Vote(seat)));
    Ok(journal)
}

// The same journal after a power cut that came when so many bytes of it had reached the disk.
pub fn after_cut(heap: Global, reached: u32) -> Result<Journal, AllocError>
    ensures { IfOk result (λ j. (safe_in j ≡ take (reached / record_length) sample_recs) × (loose_in j ≡ []) × (room_in j ≡ 2) × (bytes_in j ≡ sample_bytes)) }
{
    let mut journal = sample(heap)?;
    journal.restart(reached);
    Ok(journal)
}
