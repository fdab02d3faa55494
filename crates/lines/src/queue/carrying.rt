ghost use Rattle.std.specs.Prelude.{◌≡◌, ◌+◌, ◌%◌, ◌^◌, [], ◌∷◌, ◌++◌, length, nat_le, IfSome};
ghost use Rattle.std.specs.Option.{option_map};
ghost use Rattle.lines.specs.Kept.{full-drops, free-keeps};
ghost use Rattle.lines.specs.Lines.{In, Within, notes_in};
ghost use Rattle.lines.specs.Bounds.{wrapped};
ghost use Rattle.words.specs.Notes.{note_of, row_of};
ghost use Rattle.lines.specs.Queues.{held, posted, room, QueueStep, QueueGives};

use super::Queue;
use crate::line::{Counted, Line};
use words::notification::Notification;
use words::row::Row;

impl<'a> Line for Queue<'a, Row> {
    ghost waiting = { λ q. notes_in (held q) };

    ghost posts = { λ q. posted q };

    ghost bounded = { λ q. wrapped q.posts };

    ghost step = { QueueStep };

    ghost gives = { QueueGives };

    // Beyond what every line promises: it goes behind the others, or is dropped where the buffer is full.
    fn post(&mut self, notification: Notification)
        ensures waits { Within (notes_in (held self.new)) (notes_in (held self.old) ++ note_of notification ∷ []) }
        ensures counted { posted self.new ≡ (posted self.old + 1) % 2 ^ 64 }
        ensures stepped { QueueStep self.old (note_of notification) self.new }
    {
        self.push(Row::from(notification));
    }

    // Beyond what every line promises: it is the oldest.
    fn take(&mut self) -> Option<Notification>
        ensures waited { IfSome result (λ n. In (note_of n) (notes_in (held self.old))) }
        ensures waits { Within (notes_in (held self.new)) (notes_in (held self.old)) }
        ensures counted { posted self.new ≡ posted self.old }
        ensures given { QueueGives self.old (option_map note_of result) self.new }
    {
        Notification::try_from(self.pop()?).ok()
    }
}

impl<'a> Counted for Queue<'a, Row> {
    ghost full = { λ q. nat_le (room q) (length (held q)) };

    ghost drops = { λ s t n full step. full-drops (room s) (held s) (held t) (row_of n) full step.held };

    ghost keeps = { λ s t n free step. free-keeps (room s) (held s) (held t) n free step.held };

    fn posts(&self) -> u64 {
        Queue::posts(self)
    }

    fn is_full(&self) -> bool {
        self.room() <= self.len()
    }
}
