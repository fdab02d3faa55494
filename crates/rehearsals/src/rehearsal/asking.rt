ghost use Rattle.std.specs.Prelude.{◌≡◌, length};

use super::Rehearsal;
use crate::trace::Entry;
use desks::desk::Desk;
use lines::line::Line;
use logs::log::Log;

impl<C: Log, P: Log + Drop, N: Line> Rehearsal<C, P, N> {
    // The desk at which it is played.
    pub fn desk(&self) -> &Desk<C, P, N>
        ensures { result.now ≡ self.now.desk }
    {
        &self.desk
    }

    // What was played, in its order.
    pub fn trace(&self) -> &[Entry]
        ensures { result.now ≡ self.now.trace.items }
    {
        &self.trace
    }

    // How many logs lie ready.
    pub fn ready(&self) -> usize
        ensures { result ≡ length self.now.logs.items }
    {
        self.logs.len()
    }

    // Ends a rehearsal, and gives back the coordinator's log and the line. A closing right that is still there is spent, and nobody hears of it.
    pub fn close(self) -> (C, N)
        ensures { result ≡ (self.desk.log, self.desk.line) }
    {
        let Rehearsal {
            desk,
            logs: _,
            trace: _,
        } = self;
        desk.close()
    }
}
