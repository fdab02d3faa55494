// Records and their bytes.
use records::codec::{RECORD_BYTES, decode, encode};
use records::record::{Entry, Record};
use records::row::Row;
use seats::seat::Seat;
use seats::set::SeatSet;
use std::test::Fail;

// The bytes of a record of transaction 7, from its kind on; the others are zero.
fn seven(tail: &[u8]) -> [u8; RECORD_BYTES] {
    let mut bytes = [0u8; RECORD_BYTES];
    bytes[3] = 7;
    for (place, b) in bytes[4..].iter_mut().zip(tail) {
        *place = *b;
    }
    bytes
}

// Whether these bytes of transaction 7 are no record's.
fn malformed(tail: &[u8]) -> bool {
    decode(&seven(tail)).is_none()
}

// A seat whose number is below 16. Each crate of examples has its own: they share no library.
pub(crate) fn seat(number: u8) -> Result<Seat, Fail> {
    Seat::new(number).ok_or_else(|| Fail::new("no such seat"))
}

#[test]
fn seats_end_at_fifteen(rt: HostRuntime) -> Result<(), Fail> {
    assert_eq!(rt; seat(15)?.number(), 15);
    assert!(rt; Seat::new(16).is_none());
    assert!(rt; Seat::new(255).is_none());
    Ok(())
}

#[test]
fn sets_have_what_was_put_in(rt: HostRuntime) -> Result<(), Fail> {
    let set = SeatSet::empty()
        .with(seat(0)?)
        .with(seat(15)?)
        .with(seat(0)?);
    assert_eq!(rt; set.bits(), 0x8001);
    assert!(rt; set.has(seat(15)?));
    assert!(rt; !set.has(seat(1)?));
    assert!(rt; !set.has_number(16));
    assert!(rt; set.single().is_none());
    assert!(rt; SeatSet::empty().single().is_none());
    assert_eq!(rt; SeatSet::only(seat(9)?).single(), Some(seat(9)?));
    Ok(())
}

// The bytes of the Decision of transaction 7 with seats 0, 1, 2 and 5: two runs, three seats from 0 on and one from 5 on.
pub(crate) fn decided() -> [u8; RECORD_BYTES] {
    seven(&[1, 2, 0, 3, 5, 1])
}

#[test]
fn a_decision_reads_back(rt: HostRuntime) {
    let bytes = decided();
    let decision = Record::new(7, Entry::Decision(SeatSet::from_bits(0b10_0111)));
    assert!(rt; encode(&decision) == bytes);
    assert_eq!(rt; decode(&bytes), Some(decision));
}

#[test]
fn every_kind_reads_back(rt: HostRuntime) -> Result<(), Fail> {
    let all = [
        Record::new(0, Entry::Decision(SeatSet::empty())),
        Record::new(u32::MAX, Entry::Decision(SeatSet::from_bits(0xffff))),
        Record::new(1 << 24, Entry::Decision(SeatSet::from_bits(0x5555))),
        Record::new(1 << 16, Entry::Vote(seat(0)?)),
        Record::new(1 << 8, Entry::Kept(seat(15)?)),
        Record::new(1, Entry::Undone(seat(7)?)),
    ];
    for record in all {
        assert_eq!(rt; decode(&encode(&record)), Some(record));
        assert_eq!(rt; Record::try_from(Row::from(&record)), Ok(record));
    }
    Ok(())
}

#[test]
fn the_largest_records_fill_their_places(rt: HostRuntime) {
    let whole = Record::new(7, Entry::Decision(SeatSet::from_bits(0xffff)));
    assert!(rt; encode(&whole) == seven(&[1, 1, 0, 16]));
    let odd = Record::new(7, Entry::Decision(SeatSet::from_bits(0xaaaa)));
    assert!(rt; encode(&odd) == seven(&[1, 8, 1, 1, 3, 1, 5, 1, 7, 1, 9, 1, 11, 1, 13, 1, 15, 1]));
    assert_eq!(rt; decode(&encode(&odd)), Some(odd));
}

#[test]
fn each_broken_rule_is_refused(rt: HostRuntime) {
    assert!(rt; malformed(&[0, 1, 5, 1]), "kind 0");
    assert!(rt; malformed(&[5, 1, 5, 1]), "kind 5");
    assert!(rt;
        malformed(&[1, 9, 0, 1, 2, 1, 4, 1, 6, 1, 8, 1, 10, 1, 12, 1, 14, 1]),
        "nine pairs"
    );
    assert!(rt; malformed(&[1, 1, 5, 0]), "a length of 0");
    assert!(rt; malformed(&[1, 1, 15, 2]), "past seat 15");
    assert!(rt; malformed(&[1, 1, 16, 1]), "from seat 16 on");
    assert!(rt; malformed(&[1, 1, 255, 255]), "far past seat 15");
    assert!(rt; malformed(&[1, 2, 5, 1, 0, 3]), "out of order");
    assert!(rt; malformed(&[1, 2, 0, 3, 2, 1]), "overlapping");
    assert!(rt; malformed(&[1, 2, 0, 2, 2, 1]), "touching");
    assert!(rt;
        malformed(&[1, 1, 0, 1, 9]),
        "an unused offset that is not zero"
    );
    assert!(rt;
        malformed(&[1, 0, 0, 0, 0, 0, 0, 0, 0, 0, 0, 0, 0, 0, 0, 0, 0, 1]),
        "the last byte not zero"
    );
    assert!(rt; malformed(&[2, 0]), "a Vote with no seat");
    assert!(rt; malformed(&[2, 1, 0, 2]), "a Vote with two neighbours");
    assert!(rt; malformed(&[3, 2, 0, 1, 2, 1]), "a Kept with two seats");
    assert!(rt; malformed(&[4, 0]), "an Undone with no seat");
}

#[test]
fn only_whole_records_are_read(rt: HostRuntime) {
    let bytes = decided();
    assert!(rt; decode(&[]).is_none());
    assert!(rt; decode(&bytes[0..21]).is_none());
    assert!(rt; decode(&[0u8; 23]).is_none());
    assert!(rt; decode(&seven(&[1, 0])).is_some());
}

// Whether a row of transaction 1 is a record's.
fn is_read(kind: u8, seats: u16) -> bool {
    let row = Row {
        transaction: 1,
        kind,
        seats,
    };
    Record::try_from(row).is_ok()
}

#[test]
fn rows_are_read_back_with_a_check(rt: HostRuntime) {
    assert!(rt; !is_read(0, 1), "kind 0");
    assert!(rt; !is_read(5, 1), "kind 5");
    assert!(rt; !is_read(2, 0), "a Vote with no seat");
    assert!(rt; !is_read(3, 3), "a Kept with two seats");
    assert!(rt; is_read(1, 0), "a Decision with no seat");
}
