// The kinds of logs that are played.
use crate::reopening::journal_of;
use crate::sink::Sink;
use journals::journal::Journal;
use logs::gatherer::Gatherer;
use logs::log::Log;
use logs::tray::Tray;
use std::alloc::{AllocError, Global};

// A log that can be made, and shown.
pub(crate) trait Kept: Log + Drop {
    // One with so many places, where its kind leaves that open.
    fn made(alloc: Global, places: u32) -> Result<Self, AllocError>;

    // Writes its bytes, where its kind has some.
    fn show(&self, sink: &mut Sink<'_>);
}

impl Kept for Tray {
    fn made(alloc: Global, places: u32) -> Result<Tray, AllocError> {
        Ok(Tray::new())
    }

    fn show(&self, sink: &mut Sink<'_>) {}
}

impl Kept for Journal {
    fn made(alloc: Global, places: u32) -> Result<Journal, AllocError> {
        journal_of(alloc, places)
    }

    fn show(&self, sink: &mut Sink<'_>) {
        sink.put_all(self.bytes());
    }
}

impl<L: Kept> Kept for Gatherer<L> {
    fn made(alloc: Global, places: u32) -> Result<Gatherer<L>, AllocError> {
        Ok(Gatherer::over(L::made(alloc, places)?))
    }

    fn show(&self, sink: &mut Sink<'_>) {
        self.below().show(sink);
    }
}
