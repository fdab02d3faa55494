ghost use Rattle.std.specs.Prelude.{◌≡◌, ◌+◌, ◌%◌, ◌^◌, ◌<◌, false, [], ◌∷◌, ◌++◌, replicate, IfSome};
ghost use Rattle.std.specs.Option.{option_map};
ghost use Rattle.std.specs.List.{position};
ghost use Rattle.boards.specs.Boards.{BoardStep, BoardGives, filled};
ghost use Rattle.boards.specs.Kept.{never, keeps-posted};
ghost use Rattle.lines.specs.Lines.{In, Within, notes_in};
ghost use Rattle.words.specs.Notes.{note_of, row_of, cell_of};
ghost use Rattle.words.specs.Rows.{blank_row};
ghost use Rattle.lines.specs.Ring.{turned};
ghost use Rattle.boards.specs.Sizes.{cell_count};

use super::{Board, CELLS};
use lines::line::{Counted, Line};
use words::notification::Notification;
use words::row::Row;

impl Board {
    // A board with empty cells.
    pub fn new() -> Board
        ensures cells { result.cells ≡ replicate cell_count blank_row }
        ensures next { result.next ≡ 0 }
        ensures posted { result.posts ≡ 0 }
    {
        Board {
            cells: [Row::BLANK; CELLS],
            next: 0,
            posts: 0,
        }
    }

    // How far from the next cell the first filled one is, going round, or none where none is filled.
    fn ahead(&self) -> Option<usize>
        ensures { result ≡ position filled (turned self.now.cells self.now.next) }
    {
        // one search behind the other: one over a chain of both takes twice as long where few cells are filled
        let (before, after) = self.cells.split_at(self.next);
        match after.iter().position(is_filled) {
            Some(ahead) => Some(ahead),
            None => {
                let ahead = before.iter().position(is_filled)?;
                Some(after.len() + ahead)
            }
        }
    }
}

impl Default for Board {
    ghost is_default = { λ b. (b.cells ≡ replicate cell_count blank_row) × (b.next ≡ 0) × (b.posts ≡ 0) };

    fn default() -> Board {
        Board::new()
    }
}

// Whether a cell's row is a notification's.
fn is_filled(row: &Row) -> bool
    ensures { result ≡ filled row.now }
{
    Notification::try_from(*row).is_ok()
}

// The cell of a notification.
fn cell(notification: Notification) -> usize
    ensures value { result ≡ cell_of (note_of notification) }
    ensures within { result < cell_count }
{
    2 * usize::from(notification.seat.number()) + usize::from(notification.kind.goes_up())
}

impl Line for Board {
    ghost waiting = { λ b. notes_in b.cells };

    ghost posts = { λ b. b.posts };

    ghost bounded = { λ b. b.counted };

    ghost step = { BoardStep };

    ghost gives = { BoardGives };

    // Beyond what every line promises: it overwrites its cell, and no other.
    fn post(&mut self, notification: Notification)
        ensures waits { Within (notes_in self.new.cells) (notes_in self.old.cells ++ note_of notification ∷ []) }
        ensures counted { self.new.posts ≡ (self.old.posts + 1) % 2 ^ 64 }
        ensures stepped { BoardStep self.old (note_of notification) self.new }
    {
        self.posts = self.posts.wrapping_add(1);
        let at = cell(notification);
        self.cells[at] = Row::from(notification);
    }

    // Beyond what every line promises: it is the next filled cell's after the last given, going round, and no cell is cleared.
    fn take(&mut self) -> Option<Notification>
        ensures waited { IfSome result (λ n. In (note_of n) (notes_in self.old.cells)) }
        ensures waits { Within (notes_in self.new.cells) (notes_in self.old.cells) }
        ensures counted { self.new.posts ≡ self.old.posts }
        ensures given { BoardGives self.old (option_map note_of result) self.new }
    {
        let ahead = self.ahead()?;
        let at = (self.next + ahead) % CELLS;
        self.next = (at + 1) % CELLS;
        Notification::try_from(self.cells[at]).ok()
    }
}

impl Counted for Board {
    ghost full = { λ _. false };

    ghost drops = { λ b c n full step. never full };

    ghost keeps = { λ b c n free step. keeps-posted b.cells c.cells n b.long step.cells };

    fn posts(&self) -> u64 {
        self.posts
    }

    // A post overwrites its cell and is never dropped.
    fn is_full(&self) -> bool {
        false
    }
}
