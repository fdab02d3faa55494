ghost use Rattle.std.specs.Prelude.{◌≡◌};
ghost use Rattle.logs.specs.Gatherers.{loose_in};

use super::{Gatherer, HELD_RECORDS};
use crate::log::Log;
use records::record::{Entry, Record};
use seats::set::SeatSet;

impl<L: Log> Gatherer<L> {
    // A gatherer over a log, holding nothing.
    #[tactic(auto, using(crate::proofs::GatherFacts::gathering))]
    pub fn over(below: L) -> Gatherer<L>
        ensures below { result.below ≡ below }
        ensures holding { result.holding ≡ 0 }
        ensures loose { loose_in L.Log result ≡ L.Log.loose below }
    {
        let blank = Record::new(0, Entry::Decision(SeatSet::empty()));
        Gatherer {
            below,
            held: [blank; HELD_RECORDS],
            holding: 0,
        }
    }

    // The log below.
    pub fn below(&self) -> &L
        ensures { result.now ≡ self.now.below }
    {
        &self.below
    }

    // The log below, given back; what is held is lost, so secure it first.
    pub fn into_below(self) -> L
        ensures { result ≡ self.below }
    {
        self.below
    }

    // How many records it holds back.
    pub fn holding(&self) -> usize
        ensures { result ≡ self.now.holding }
    {
        self.holding
    }
}
