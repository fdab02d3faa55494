ghost use Rattle.std.specs.Prelude.{◌≡◌, ℕ, ◌+◌, ◌%◌, ◌^◌, ◌<◌, Bool, true, false, List, [], ◌∷◌, ◌++◌, length, Option, IfSome};
ghost use Rattle.std.specs.Option.{option_map};
ghost use Rattle.lines.specs.Lines.{In, Within, Chain, notes_in, wound};
ghost use Rattle.words.specs.Notes.{Note, note_of};
ghost use Rattle.words.specs.declared.notification.Notification.{Notification};

use words::notification::Notification;
use words::row::Row;

// A line between the parties. It may drop, repeat and reorder what is posted, and never makes anything up.
pub trait Line {
    // The notifications that wait.
    ghost waiting: { Self → List Note };

    // How many were posted, wrapping at 2 ^ 64.
    ghost posts: { Self → ℕ };

    // So it is a 64-bit number.
    ghost bounded: { (s : Self) → posts s < 2 ^ 64 };

    // What a post does to this line, by its own rules.
    ghost step: { Self → Note → Self → Type 0 };

    // What a take gives, and what it does to this line, by its own rules.
    ghost gives: { Self → Option Note → Self → Type 0 };

    // Posts a notification: whatever waits afterwards waited before or is the one posted.
    fn post(&mut self, notification: Notification)
        ensures waits { Within (waiting self.new) (waiting self.old ++ note_of notification ∷ []) }
        ensures counted { posts self.new ≡ (posts self.old + 1) % 2 ^ 64 }
        ensures stepped { step self.old (note_of notification) self.new };

    // Takes a notification that waited, or none; what waits afterwards waited before.
    fn take(&mut self) -> Option<Notification>
        ensures waited { IfSome result (λ n. In (note_of n) (waiting self.old)) }
        ensures waits { Within (waiting self.new) (waiting self.old) }
        ensures counted { posts self.new ≡ posts self.old }
        ensures given { gives self.old (option_map note_of result) self.new };

    // Posts the notifications of the rows, in their order; a row that is no notification's is passed over.
    fn post_all(&mut self, rows: &[Row])
        ensures waits { Within (waiting self.new) (waiting self.old ++ notes_in rows.now) }
        ensures counted { posts self.new ≡ wound (length (notes_in rows.now)) (posts self.old) }
        ensures order { Chain step self.old (notes_in rows.now) self.new }
    {
        for row in rows {
            if let Ok(notification) = Notification::try_from(*row) {
                self.post(notification);
            }
        }
    }
}

// A line that tells how many were posted, and whether the next would be lost.
pub trait Counted: Line {
    // Whether the next post is dropped.
    ghost full: { Self → Bool };

    // How many were posted, wrapping.
    fn posts(&self) -> u64
        ensures { result ≡ Self.posts self.now };

    // Whether the next post would be dropped.
    fn is_full(&self) -> bool
        ensures { result ≡ full self.now };

    // What is posted on a full line is dropped, and what waits stays.
    ghost drops: { (s t : Self) (n : Note) → full s ≡ true → Self.step s n t → Self.waiting t ≡ Self.waiting s };

    // What is posted on any other line waits.
    ghost keeps: { (s t : Self) (n : Notification) → full s ≡ false → Self.step s (note_of n) t → In (note_of n) (Self.waiting t) };
}
