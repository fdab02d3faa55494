// The queue, the trace and the board.
use crate::relay;
use crate::word_examples::seven;
use boards::board::Board;
use lines::line::{Counted, Line};
use lines::queue::Queue;
use lines::trace::TraceEntry;
use std::test::Fail;
use words::fault::Fault;
use words::kind::Kind;
use words::row::Row;

#[test]
fn an_empty_buffer_drops_all(rt: HostRuntime) -> Result<(), Fail> {
    let mut none: [Row; 0] = [];
    let mut queue = Queue::new(&mut none);
    queue.post(seven(1, Kind::Prepare)?);
    assert_eq!(rt; queue.posts(), 1);
    assert_eq!(rt; queue.len(), 0);
    assert!(rt; queue.take().is_none());
    Ok(())
}

#[test]
fn one_place_holds_the_oldest(rt: HostRuntime) -> Result<(), Fail> {
    let mut rows = [Row::BLANK; 1];
    let mut queue = Queue::new(&mut rows);
    queue.post(seven(1, Kind::Prepare)?);
    queue.post(seven(2, Kind::Prepare)?);
    assert_eq!(rt; queue.posts(), 2);
    assert_eq!(rt; queue.len(), 1);
    assert_eq!(rt; queue.take(), Some(seven(1, Kind::Prepare)?));
    assert!(rt; queue.take().is_none());
    queue.post(seven(3, Kind::Commit)?);
    assert_eq!(rt; queue.take(), Some(seven(3, Kind::Commit)?));
    Ok(())
}

#[test]
fn a_queue_goes_round_in_order(rt: HostRuntime) -> Result<(), Fail> {
    let mut rows = [Row::BLANK; 3];
    let mut queue = Queue::new(&mut rows);
    queue.post(seven(0, Kind::Prepare)?);
    queue.post(seven(1, Kind::Prepare)?);
    for seat in 2..16u8 {
        queue.post(seven(seat, Kind::Prepare)?);
        assert_eq!(rt; queue.len(), 3);
        assert_eq!(rt; queue.take(), Some(seven(seat - 2, Kind::Prepare)?));
    }
    assert_eq!(rt; queue.posts(), 16);
    assert_eq!(rt; queue.take(), Some(seven(14, Kind::Prepare)?));
    assert_eq!(rt; queue.take(), Some(seven(15, Kind::Prepare)?));
    assert!(rt; queue.take().is_none());
    Ok(())
}

#[test]
fn rows_are_posted_in_their_order(rt: HostRuntime) -> Result<(), Fail> {
    let mut rows = [Row::BLANK; 4];
    let mut queue = Queue::new(&mut rows);
    queue.post_all(&[
        Row::from(seven(4, Kind::Commit)?),
        Row::BLANK,
        Row::from(seven(2, Kind::Rollback)?),
    ]);
    assert_eq!(rt; queue.posts(), 2);
    assert_eq!(rt; queue.take(), Some(seven(4, Kind::Commit)?));
    assert_eq!(rt; queue.take(), Some(seven(2, Kind::Rollback)?));
    assert!(rt; queue.take().is_none());
    Ok(())
}

#[test]
fn a_queue_holds_a_trace(rt: HostRuntime) {
    let mut entries = [TraceEntry::BLANK; 2];
    let mut trace = Queue::new(&mut entries);
    trace.push(TraceEntry::of(3u8, None));
    trace.push(TraceEntry::of(7u8, Some(Fault::Inconsistent)));
    trace.push(TraceEntry::of(7u8, None));
    assert_eq!(rt; trace.posts(), 3);
    assert_eq!(rt; trace.pop(), Some(TraceEntry { state: 3, fault: 0 }));
    assert_eq!(rt; trace.pop(), Some(TraceEntry { state: 7, fault: 9 }));
    assert!(rt; trace.pop().is_none());
}

#[test]
fn a_board_shows_again_and_goes_round(rt: HostRuntime) -> Result<(), Fail> {
    let mut board = Board::new();
    assert!(rt; board.take().is_none());
    board.post(seven(15, Kind::Prepared)?);
    board.post(seven(0, Kind::Prepare)?);
    // cell 0, then cell 31, then round to cell 0
    assert_eq!(rt; board.take(), Some(seven(0, Kind::Prepare)?));
    assert_eq!(rt; board.take(), Some(seven(15, Kind::Prepared)?));
    assert_eq!(rt; board.take(), Some(seven(0, Kind::Prepare)?));
    assert_eq!(rt; board.posts(), 2);
    Ok(())
}

#[test]
fn a_board_overwrites_its_cell_alone(rt: HostRuntime) -> Result<(), Fail> {
    let mut board = Board::new();
    board.post(seven(3, Kind::Prepare)?);
    board.post(seven(3, Kind::Prepared)?);
    board.post(seven(3, Kind::Commit)?);
    assert_eq!(rt; board.take(), Some(seven(3, Kind::Commit)?));
    assert_eq!(rt; board.take(), Some(seven(3, Kind::Prepared)?));
    assert_eq!(rt; board.take(), Some(seven(3, Kind::Commit)?));
    assert_eq!(rt; board.posts(), 3);
    Ok(())
}

#[test]
fn a_relay_joins_two_lines(rt: HostRuntime) -> Result<(), Fail> {
    let mut rows = [Row::BLANK; 2];
    let mut queue = Queue::new(&mut rows);
    let mut board = Board::new();
    assert!(rt; !relay(&mut queue, &mut board));
    queue.post(seven(9, Kind::Aborted)?);
    assert!(rt; relay(&mut queue, &mut board));
    assert!(rt; !relay(&mut queue, &mut board));
    assert_eq!(rt; board.take(), Some(seven(9, Kind::Aborted)?));
    assert_eq!(rt; board.posts(), 1);
    Ok(())
}

// What a line tells of itself.
fn told<L: Counted>(line: &L) -> (u64, bool) {
    (line.posts(), line.is_full())
}

#[test]
fn lines_tell_of_themselves(rt: HostRuntime) -> Result<(), Fail> {
    let mut rows = [Row::BLANK; 1];
    let mut queue = Queue::new(&mut rows);
    let mut board = Board::default();
    assert_eq!(rt; told(&queue), (0, false));
    assert_eq!(rt; told(&board), (0, false));
    queue.post(seven(1, Kind::Prepare)?);
    board.post(seven(1, Kind::Prepare)?);
    assert_eq!(rt; told(&queue), (1, true));
    assert_eq!(rt; told(&board), (1, false));
    Ok(())
}
