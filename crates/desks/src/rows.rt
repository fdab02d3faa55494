ghost use Rattle.std.specs.Prelude.{◌≡◌, ◌+◌, ◌≤◌, ◌++◌, ◌==◌, length, vec_len, unwrap_or};
ghost use Rattle.std.specs.List.{position};
ghost use Rattle.std.specs.Vec.{vec_capacity};
ghost use Rattle.desks.specs.Rows.{is_blank, written};

use words::row::Row;

// Keeps the rows that a call wrote to a blank outbox, in memory that was reserved.
pub(crate) fn keep(given: &mut Vec<Row>, outbox: &[Row])
    requires { vec_len given.old + length outbox.now ≤ vec_capacity given.old }
    ensures { given.new.items ≡ given.old.items ++ written outbox.now }
{
    let sent = count(outbox);
    if given.extend_from_slice(&outbox[..sent]).is_err() {
        unreachable()
    }
}

// How many rows stand before the first blank one.
fn count(outbox: &[Row]) -> usize
    ensures place { result ≡ unwrap_or (position is_blank outbox.now) (length outbox.now) }
    ensures within { result ≤ length outbox.now }
{
    outbox.iter().position(is_blank).unwrap_or(outbox.len())
}

// Whether a row is no notification's.
fn is_blank(row: &Row) -> bool
    ensures { result ≡ is_blank row.now }
{
    row.kind == 0
}
