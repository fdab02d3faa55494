ghost use Rattle.std.specs.Prelude.{◌≡◌, ◌*◌, ◌/◌, ◌<◌, ◌≤◌, [], length, vec_len, MatchOption};
ghost use Rattle.records.specs.Sizes.{record_length};
ghost use Rattle.journals.specs.Journals.{bytes_in, safe_in, loose_in, room_in, OpenAnswer};
ghost use Rattle.journals.specs.Slots.{MalformedAt, BytesSound};

use super::slots::is_malformed;
use super::{Journal, Malformed};

impl Journal {
    // A journal without records, over a buffer whose bytes stay as they are until a record is added.
    #[tactic(auto, unfolding(logs::specs::Tables::safe_of, logs::specs::Tables::loose_of))]
    pub fn create(bytes: Vec<u8>) -> Journal
        ensures bytes { bytes_in result ≡ bytes.items }
        ensures capacity { room_in result ≡ vec_len bytes / record_length }
        ensures safe { safe_in result ≡ [] }
        ensures loose { loose_in result ≡ [] }
    {
        Journal {
            bytes,
            secured: 0,
            used: 0,
        }
    }

    // The journal of the first `count` records of a buffer, all safe, or the refusal that names the first malformed one.
    pub fn open(bytes: Vec<u8>, count: usize) -> Result<Journal, Malformed>
        ensures { OpenAnswer bytes.items count result }
    {
        match malformed_in(&bytes, count) {
            Some(record) => Err(Malformed { record, bytes }),
            None => Ok(Journal {
                bytes,
                secured: count,
                used: count,
            }),
        }
    }

    // Its bytes.
    pub fn bytes(&self) -> &[u8]
        ensures { result.now ≡ bytes_in self.now }
    {
        &self.bytes
    }

    // Its bytes, given back.
    pub fn into_bytes(self) -> Vec<u8>
        ensures { result.items ≡ bytes_in self }
    {
        self.bytes
    }
}

// The first of the first `count` records that is malformed, if any is.
fn malformed_in(bytes: &[u8], count: usize) -> Option<usize>
    ensures { MatchOption result ((record_length * count ≤ length bytes.now) × BytesSound bytes.now count) (λ i. (i < count) × MalformedAt bytes.now i × BytesSound bytes.now i) }
{
    (0..count).find(|i| is_malformed(bytes, *i))
}
