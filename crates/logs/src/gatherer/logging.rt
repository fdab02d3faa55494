#![tactic(auto, using(crate::proofs::GatherFacts::gathering), unfolding(crate::specs::Gathering::first_of))]

ghost use Rattle.std.specs.Prelude.{◌≡◌, ◌+◌, ◌-◌, ◌≤◌, [], ◌++◌, map, length, take};
ghost use Rattle.records.specs.Recs.{model_of};
ghost use Rattle.logs.specs.Adding.{loose_after, add_answer};
ghost use Rattle.logs.specs.Bounds.{held-within, held-atmost};
ghost use Rattle.logs.specs.Gatherers.{loose_in};
ghost use Rattle.logs.specs.Gathering.{first_of, holding_after, below_after};

use super::{Gatherer, HELD_RECORDS};
use crate::log::{Full, Log};
use records::record::Record;

// A call that promises more than its trait says all of it again.
impl<L: Log> Log for Gatherer<L> {
    ghost safe = { λ g. L.Log.safe g.below };

    // the loose list below, then the held records
    ghost loose = { loose_in L.Log };

    ghost capacity = { λ g. L.Log.capacity g.below };

    ghost survives = { λ g n. L.Log.survives g.below n };

    ghost within = { λ g. held-within (L.Log.capacity g.below) (L.Log.safe g.below) (L.Log.loose g.below) g.holding g.held g.room };

    ghost atmost = { λ g n. held-atmost (L.Log.survives g.below n) (L.Log.loose g.below) (first_of g.holding g.held) (L.Log.atmost g.below n) };

    // Beyond what every log promises: how many records it holds afterwards, and that they go down when a ninth comes and at no other time.
    fn add(&mut self, record: Record) -> Result<(), Full>
        ensures capacity { L.Log.capacity self.new.below ≡ L.Log.capacity self.old.below }
        ensures safe { L.Log.safe self.new.below ≡ L.Log.safe self.old.below }
        ensures loose { loose_in L.Log self.new ≡ loose_after (L.Log.capacity self.old.below) (L.Log.safe self.old.below) (loose_in L.Log self.old) (model_of «record») }
        ensures answer { result ≡ add_answer (L.Log.capacity self.old.below) (L.Log.safe self.old.below) (loose_in L.Log self.old) }
        ensures holding { self.new.holding ≡ holding_after (L.Log.capacity self.old.below - (length (L.Log.safe self.old.below) + length (L.Log.loose self.old.below))) self.old.holding }
        ensures below { L.Log.loose self.new.below ≡ below_after (L.Log.capacity self.old.below - (length (L.Log.safe self.old.below) + length (L.Log.loose self.old.below))) self.old.holding (L.Log.loose self.old.below) (first_of self.old.holding self.old.held) }
    {
        if self.below.spare() <= self.holding {
            return Err(Full {
                capacity: self.below.capacity(),
            });
        }
        if self.holding < HELD_RECORDS {
            self.held[self.holding] = record;
            self.holding += 1;
            return Ok(());
        }
        pass_down(&mut self.below, &self.held);
        self.held[0] = record;
        self.holding = 1;
        Ok(())
    }

    // Beyond what every log promises: it holds nothing afterwards.
    fn secure(&mut self)
        ensures capacity { L.Log.capacity self.new.below ≡ L.Log.capacity self.old.below }
        ensures safe { L.Log.safe self.new.below ≡ L.Log.safe self.old.below ++ loose_in L.Log self.old }
        ensures loose { loose_in L.Log self.new ≡ [] }
        ensures holding { self.new.holding ≡ 0 }
    {
        pass_down(&mut self.below, &self.held[..self.holding]);
        self.holding = 0;
        self.below.secure();
    }

    fn read(&self, i: usize) -> Option<Record> {
        let under = self.below.count();
        if i < under {
            return self.below.read(i);
        }
        self.held[..self.holding].get(i - under).copied()
    }

    fn count(&self) -> usize {
        self.capacity() - (self.below.spare() - self.holding)
    }

    fn secured(&self) -> usize {
        self.below.secured()
    }

    fn capacity(&self) -> usize {
        self.below.capacity()
    }

    // Beyond what every log promises: it holds nothing afterwards.
    fn restart(&mut self, n: u32)
        ensures capacity { L.Log.capacity self.new.below ≡ L.Log.capacity self.old.below }
        ensures safe { L.Log.safe self.new.below ≡ L.Log.safe self.old.below ++ take (L.Log.survives self.old.below n) (loose_in L.Log self.old) }
        ensures loose { loose_in L.Log self.new ≡ [] }
        ensures holding { self.new.holding ≡ 0 }
    {
        self.below.restart(n);
        self.holding = 0;
    }
}

// Adds records to a log that has room for them, in order.
fn pass_down<L: Log>(below: &mut L, records: &[Record])
    requires { length (L.Log.safe below.old) + length (L.Log.loose below.old) + length records.now ≤ L.Log.capacity below.old }
    ensures capacity { L.Log.capacity below.new ≡ L.Log.capacity below.old }
    ensures safe { L.Log.safe below.new ≡ L.Log.safe below.old }
    ensures loose { L.Log.loose below.new ≡ L.Log.loose below.old ++ map model_of records.now }
{
    for record in records {
        let _ = below.add(*record);
    }
}
