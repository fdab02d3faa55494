// State codes and fault numbers, on their way through a queue to what is printed.
use lines::queue::Queue;
use lines::trace::TraceEntry;
use rehearsals::trace::{Entry, Event};

// The queue: a play or a rehearsal has one, over a buffer that is lent to it.
pub(crate) type Codes<'a> = Queue<'a, TraceEntry>;

// What a move of a rehearsal leaves: the code of the state of whose call it was, or else of the coordinator's, and the number of the fault.
pub(crate) fn code_of(entry: &Entry) -> TraceEntry {
    match (entry.event, entry.participant) {
        (Event::Participant(answer), Some(state)) => TraceEntry::of(state, answer.err()),
        (Event::Joined, Some(state)) => TraceEntry::of(state, None),
        (Event::Registered(Err(fault)) | Event::Coordinator(Err(fault)), _) => {
            TraceEntry::of(entry.coordinator, Some(fault))
        }
        _ => TraceEntry::of(entry.coordinator, None),
    }
}
