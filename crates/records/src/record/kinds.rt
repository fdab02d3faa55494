ghost use Rattle.std.specs.Prelude.{◌≡◌};
ghost use Rattle.seats.specs.Exactly.{Exactly};
ghost use Rattle.records.specs.Recs.{kind_of, seats_of};
ghost use Rattle.records.specs.Texts.{kind_text, noun_text};

use super::Entry;
use seats::set::SeatSet;

// The numbers of the kinds of entry, in bytes and in rows: the format's, so numbers here and entries everywhere else.
const DECISION: u8 = 1;

const VOTE: u8 = 2;

const KEPT: u8 = 3;

const UNDONE: u8 = 4;

impl Entry {
    // The number of its kind.
    pub fn kind(self) -> u8
        ensures { result ≡ kind_of self }
    {
        match self {
            Entry::Decision(_) => DECISION,
            Entry::Vote(_) => VOTE,
            Entry::Kept(_) => KEPT,
            Entry::Undone(_) => UNDONE,
        }
    }

    // The name of its kind. No derive of the library's writes names.
    pub fn name(self) -> &'static str
        ensures { result.now ≡ kind_text self }
    {
        match self {
            Entry::Decision(_) => "Decision",
            Entry::Vote(_) => "Vote",
            Entry::Kept(_) => "Kept",
            Entry::Undone(_) => "Undone",
        }
    }

    // What its seats are called: texts, as the names are.
    pub(crate) fn noun(self) -> &'static str
        ensures { result.now ≡ noun_text self }
    {
        match self {
            Entry::Decision(seats) if seats.bits() == 0 => "no seats",
            Entry::Decision(_) => "seats",
            _ => "seat",
        }
    }

    // The set of its seats.
    pub fn seats(self) -> SeatSet
        ensures { result.bits ≡ seats_of self }
    {
        match self {
            Entry::Decision(seats) => seats,
            Entry::Vote(seat) | Entry::Kept(seat) | Entry::Undone(seat) => SeatSet::only(seat),
        }
    }

    // The entry of this kind with these seats, or none where there is no such kind or it has another number of seats.
    pub fn of(kind: u8, seats: SeatSet) -> Option<Entry>
        ensures { Exactly (λ e. (kind ≡ kind_of e) × (seats.bits ≡ seats_of e)) result }
    {
        if kind == DECISION {
            return Some(Entry::Decision(seats));
        }
        let seat = seats.single()?;
        match kind {
            VOTE => Some(Entry::Vote(seat)),
            KEPT => Some(Entry::Kept(seat)),
            UNDONE => Some(Entry::Undone(seat)),
            _ => None,
        }
    }
}
