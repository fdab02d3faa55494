// A store of one transaction after the other.
use logs::log::Log;
use participant::Participant;
use std::mem;

// A durable participant and its log.
#[derive(Drop)]
pub(crate) struct Store<L> {
    pub(crate) participant: Participant,
    pub(crate) log: L,
}

impl<L: Log> Store<L> {
    // The power goes and comes back.
    pub(crate) fn cut(&mut self, n: u32) {
        let blank = Participant::join(self.participant.transaction(), self.participant.seat());
        let old = mem::replace(&mut self.participant, blank);
        self.participant = old.restart(&mut self.log, n);
    }
}
