// What the program says, and the words of its call.
use records::record::{Entry, Record};
use seats::seat::Seat;
use seats::set::SeatSet;
use std::alloc::{AllocError, Global};
use std::process::Abort;
use std::test::Fail;
use wording::call::{Command, parse};
use wording::text::Hex;

// A seat whose number is below 16. Each crate of examples has its own: they share no library.
fn seat(number: u8) -> Result<Seat, Fail> {
    Seat::new(number).ok_or_else(|| Fail::new("no such seat"))
}

#[test]
fn records_in_words(rt: HostRuntime) -> Result<(), Fail> {
    let heap = rt.alloc();
    let decision = Record::new(7, Entry::Decision(SeatSet::from_bits(0b10_0111)));
    assert_eq!(rt;
        decision.to_string(heap)?.as_str(),
        "transaction 7: Decision, seats 0 1 2 5"
    );
    let none = Record::new(u32::MAX, Entry::Decision(SeatSet::empty()));
    assert_eq!(rt;
        none.to_string(heap)?.as_str(),
        "transaction 4294967295: Decision, no seats"
    );
    let kept = Record::new(0, Entry::Kept(seat(15)?));
    assert_eq!(rt;
        kept.to_string(heap)?.as_str(),
        "transaction 0: Kept, seat 15"
    );
    let undone = Record::new(1, Entry::Undone(seat(0)?));
    assert_eq!(rt;
        undone.to_string(heap)?.as_str(),
        "transaction 1: Undone, seat 0"
    );
    Ok(())
}

#[test]
fn bytes_in_hexadecimal(rt: HostRuntime) -> Result<(), Fail> {
    assert_eq!(rt;
        Hex(&[0, 9, 10, 255, 0x3c]).to_string(rt.alloc())?.as_str(),
        " 00 09 0a ff 3c"
    );
    Ok(())
}

// Asks for a command by these words.
fn ask(
    rt: &impl Abort,
    heap: Global,
    words: &[&str],
    wanted: Option<Command<'_>>,
) -> Result<(), AllocError> {
    let mut texts = Vec::new(heap);
    for word in words {
        texts.push(String::from_str(heap, word)?)?;
    }
    assert_eq!(rt; parse(&texts), wanted);
    Ok(())
}

#[test]
fn calls_of_rehearsals_and_journals(rt: HostRuntime) -> Result<(), Fail> {
    let heap = rt.alloc();
    let journal = |file, count| Some(Command::Journal { file, count });
    let script = |file| Some(Command::RehearseFile { file });
    ask(&rt, heap, &[], Some(Command::Step))?;
    ask(&rt, heap, &["--help"], Some(Command::Help))?;
    ask(&rt, heap, &["rehearse"], Some(Command::Rehearse))?;
    ask(&rt, heap, &["rehearse", "tray"], script("tray"))?;
    ask(&rt, heap, &["rehearse", "f", "g"], None)?;
    ask(&rt, heap, &["journal"], Some(Command::Demonstrate))?;
    ask(&rt, heap, &["journal", "f", "3"], journal("f", "3"))?;
    ask(&rt, heap, &["journal", "3", "f"], journal("3", "f"))?;
    ask(&rt, heap, &["journal", "f"], None)?;
    ask(&rt, heap, &["journal", "f", "3", "x"], None)?;
    ask(&rt, heap, &["journals", "f", "3"], None)?;
    ask(&rt, heap, &[""], None)?;
    Ok(())
}

#[test]
fn calls_of_lines_and_parties(rt: HostRuntime) -> Result<(), Fail> {
    let heap = rt.alloc();
    let queue = |places| Some(Command::Queue { places });
    let coordinator = |bytes| Some(Command::CoordinatorOnJournal { bytes });
    let participant = |bytes| Some(Command::ParticipantOnJournal { bytes });
    let on_tray = Some(Command::CoordinatorOnTray);
    ask(&rt, heap, &["line", "queue", "3"], queue("3"))?;
    ask(&rt, heap, &["line", "board"], Some(Command::Board))?;
    ask(&rt, heap, &["line", "queue"], None)?;
    ask(&rt, heap, &["board", "line"], None)?;
    ask(&rt, heap, &["coordinator", "tray"], on_tray)?;
    ask(
        &rt,
        heap,
        &["coordinator", "journal", "44"],
        coordinator("44"),
    )?;
    ask(&rt, heap, &["coordinator"], None)?;
    let on_tray = Some(Command::ParticipantOnTray);
    ask(&rt, heap, &["participant", "tray"], on_tray)?;
    ask(
        &rt,
        heap,
        &["participant", "journal", "44"],
        participant("44"),
    )?;
    ask(&rt, heap, &["participant", "tray", "44"], None)?;
    ask(&rt, heap, &["participant", "board"], None)?;
    Ok(())
}
