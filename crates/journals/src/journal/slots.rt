ghost use Rattle.std.specs.Prelude.{◌≡◌, Decides};
ghost use Rattle.records.specs.Bytes.{bytes_of};
ghost use Rattle.seats.specs.Exactly.{Exactly};
ghost use Rattle.journals.specs.Slots.{slot, MalformedAt};

use records::codec::{RECORD_BYTES, decode};
use records::record::Record;

// Record i of a buffer, or none where it is malformed or leaves the buffer.
#[tactic(auto, using(crate::proofs::SlotFacts::slots))]
pub(super) fn record_at(bytes: &[u8], i: usize) -> Option<Record>
    ensures { Exactly (λ r. slot bytes.now i ≡ bytes_of r) result }
{
    let (slots, _) = bytes.as_chunks::<RECORD_BYTES>();
    decode(slots.get(i)?)
}

// Whether record i of a buffer is malformed or leaves the buffer.
pub(super) fn is_malformed(bytes: &[u8], i: usize) -> bool
    ensures { Decides result (MalformedAt bytes.now i) }
{
    record_at(bytes, i).is_none()
}
