ghost use Rattle.std.specs.Prelude.{◌≡◌, ◌≤◌, [], ◌∷◌, map, length};
ghost use Rattle.agreement.specs.CoordinatorRules.{to_each};
ghost use Rattle.agreement.specs.Turns.{note};
ghost use Rattle.coordinator.specs.Groups.{passes};
ghost use Rattle.seats.specs.Sizes.{seat_count};
ghost use Rattle.words.specs.Notes.{row_of};
ghost use Rattle.words.specs.Outboxes.{laid};

use crate::Coordinator;
use crate::group::Group;
use crate::table::seat_of;
use seats::seat::Seat;
use words::kind::Kind;
use words::notification::Notification;
use words::row::Row;

impl Coordinator {
    // Gives a notification of the kind to each seat of a group, in the order of seats, and answers how many it gave.
    pub(crate) fn give(&self, kind: Kind, group: Group, outbox: &mut [Row]) -> usize
        requires { seat_count ≤ length outbox.old }
        ensures rows { outbox.new ≡ laid (map row_of (to_each self.now.transaction kind (passes group) 0 self.now.table)) outbox.old }
        ensures count { result ≡ length (to_each self.now.transaction kind (passes group) 0 self.now.table) }
    {
        let mut sent = 0;
        for (number, place) in self.table.iter().enumerate() {
            if group.has(*place) {
                outbox[sent] = Row::from(Notification {
                    transaction: self.transaction,
                    seat: seat_of(number),
                    kind,
                });
                sent += 1;
            }
        }
        sent
    }

    // Gives a notification to one seat, and answers that it gave one.
    pub(crate) fn tell(&self, seat: Seat, kind: Kind, outbox: &mut [Row]) -> usize
        requires { 1 ≤ length outbox.old }
        ensures rows { outbox.new ≡ laid (map row_of (note self.now.transaction seat.value kind ∷ [])) outbox.old }
        ensures count { result ≡ 1 }
    {
        outbox[0] = Row::from(Notification {
            transaction: self.transaction,
            seat,
            kind,
        });
        1
    }
}
