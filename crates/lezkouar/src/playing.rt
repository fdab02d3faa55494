// Plays from standard input.
use crate::codes::Codes;
use crate::input::{Lines, Numbered, STANDARD_INPUT};
use crate::refusal::{Refusal, Slip};
use lines::queue::Queue;
use lines::trace::TraceEntry;

// How many entries the queue of a play has places for.
const CODES: usize = 16;

// What is played, a line of input at a time.
pub(crate) trait Play {
    // What a line asks for.
    type Step: Drop;

    // The step that a line asks for, or none where it asks for nothing.
    fn read(&self, line: &str) -> Result<Option<Self::Step>, Slip>;

    // Takes a step, and tells what it did; the state code and the fault number of a call go through the queue.
    fn take(
        &mut self,
        rt: &HostRuntime,
        codes: &mut Codes<'_>,
        step: Self::Step,
    ) -> Result<(), Refusal<'static>>;
}

// Plays every line of standard input.
pub(crate) fn play_all<P: Play>(rt: &HostRuntime, game: &mut P) -> Result<(), Refusal<'static>> {
    let mut places = [TraceEntry::BLANK; CODES];
    let mut codes = Queue::new(&mut places);
    let mut lines = Lines::of(STANDARD_INPUT, rt.reader(), rt.alloc())?;
    for _ in 0..u64::MAX {
        let Some(Numbered { number, text }) = lines.next()? else {
            break;
        };
        let step = game
            .read(text)
            .map_err(|slip| Refusal::Line { number, slip })?;
        if let Some(step) = step {
            game.take(rt, &mut codes, step)
                .map_err(|why| why.at_line(number))?;
        }
    }
    Ok(())
}
