use crate::trace::Entry;
use desks::desk::Desk;

// A desk, the logs with which durable participants join, and the trace of what was played.
pub struct Rehearsal<C, P, N> {
    desk: Desk<C, P, N>,
    // the last is taken first
    logs: Vec<P>,
    trace: Vec<Entry>,
}

// Why a rehearsal did not come to its end: there was no memory.
pub enum Unfinished<C, P, N> {
    // not even for the seats; what was given comes back
    NotOpened(C, N, Vec<P>),
    // for the move with this number, counted from 0; those before it were played
    Halted(Rehearsal<C, P, N>, usize),
}

mod asking;
mod making;
mod playing;

pub use playing::rehearse;
