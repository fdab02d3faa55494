ghost use Rattle.std.specs.Prelude.{◌≡◌, Some, codes};
ghost use Rattle.std.specs.Fmt.{padded};
ghost use Rattle.std.specs.Result.{result_ok};
ghost use Rattle.words.specs.Notes.{note_of, row_of};
ghost use Rattle.words.specs.Rows.{Reads, IsBlank};

use crate::kind::Kind;
use crate::notification::Notification;
use seats::seat::Seat;
use std::error::Error;
use std::fmt;

// A notification as a plain row of numbers, which any numbers may fill, so its seat and kind are numbers: outboxes and lines hold these, and read them back with a check.
#[derive(Clone, Copy, PartialEq, Eq, Debug)]
pub struct Row {
    pub transaction: u32,
    pub seat: u8,
    pub kind: u8,
}

impl Row {
    // A row that is no notification's: no kind has the number 0.
    pub const BLANK: Row = Row {
        transaction: 0,
        seat: 0,
        kind: 0,
    };
}

// The blank row.
impl Default for Row {
    ghost is_default = { IsBlank };

    #[tactic(auto, unfolding(crate::specs::Notes::note_in))]
    fn default() -> Row {
        Row::BLANK
    }
}

// The row of a notification.
impl From<Notification> for Row {
    ghost from_gives = { λ n w. w ≡ row_of (note_of n) };

    fn from(notification: Notification) -> Row {
        Row {
            transaction: notification.transaction,
            seat: notification.seat.number(),
            kind: u8::from(notification.kind),
        }
    }
}

// The notification whose row this is, if it is one's.
impl TryFrom<Row> for Notification {
    type Error = NoNotification;

    ghost try_from_gives = { λ w r. Reads w (result_ok r) };

    fn try_from(row: Row) -> Result<Notification, NoNotification> {
        let seat = Seat::new(row.seat).ok_or(NoNotification)?;
        let Ok(kind) = Kind::try_from(row.kind) else {
            return Err(NoNotification);
        };
        Ok(Notification {
            transaction: row.transaction,
            seat,
            kind,
        })
    }
}

// A row that is no notification's.
#[derive(Clone, Copy, PartialEq, Eq, Debug)]
pub struct NoNotification;

impl fmt::Display for NoNotification {
    ghost output = { λ _. Some (codes "the row is no notification's") };

    ghost styled_output = { λ _ options. Some (padded options (codes "the row is no notification's")) };

    fn fmt<W: fmt::Write>(&self, f: &mut fmt::Formatter<W>) -> fmt::Result {
        f.pad("the row is no notification's")
    }
}

impl Error for NoNotification {}
