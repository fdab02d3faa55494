// Gatherers, over a tray, over a journal and over one another.
use crate::journal_examples::{fill, holds, journal, vote};
use logs::gatherer::Gatherer;
use logs::log::{Full, Log};
use logs::tray::Tray;
use std::test::Fail;

#[test]
fn the_ninth_record_passes_eight_down(rt: HostRuntime) -> Result<(), Fail> {
    let mut log = Gatherer::over(Tray::new());
    for held in 1..9u32 {
        let _ = log.add(vote(held - 1)?);
        assert_eq!(rt; log.holding(), held as usize);
        assert_eq!(rt; log.below().count(), 0);
    }
    let _ = log.add(vote(8)?);
    assert_eq!(rt; log.holding(), 1);
    assert_eq!(rt; log.below().count(), 8);
    holds(&rt, &log, 9)
}

#[test]
fn securing_passes_all_down(rt: HostRuntime) -> Result<(), Fail> {
    let mut log = Gatherer::over(Tray::new());
    fill(&mut log, 3)?;
    log.secure();
    assert_eq!(rt; log.holding(), 0);
    holds(&rt, log.below(), 3)?;
    log.restart(0);
    holds(&rt, &log, 3)
}

#[test]
fn a_restart_loses_what_is_held(rt: HostRuntime) -> Result<(), Fail> {
    for (n, kept) in [(0, 0), (5, 5), (8, 8), (9, 8)] {
        let mut log = Gatherer::over(Tray::new());
        fill(&mut log, 10)?;
        log.restart(n);
        assert_eq!(rt; log.holding(), 0);
        holds(&rt, &log, kept)?;
    }
    Ok(())
}

#[test]
fn a_gatherer_is_full_when_the_log_below_will_be(rt: HostRuntime) -> Result<(), Fail> {
    let mut log = Gatherer::over(journal(rt.alloc(), 66)?);
    fill(&mut log, 3)?;
    assert_eq!(rt; log.spare(), 0);
    assert_eq!(rt; log.add(vote(3)?), Err(Full { capacity: 3 }));
    assert_eq!(rt; log.holding(), 3);
    log.secure();
    holds(&rt, &log, 3)?;
    assert_eq!(rt; log.into_below().into_bytes().len(), 66);
    Ok(())
}

#[test]
fn a_pile_is_a_log(rt: HostRuntime) -> Result<(), Fail> {
    let mut log = Gatherer::over(Gatherer::over(journal(rt.alloc(), 22 * 40)?));
    fill(&mut log, 50)?;
    holds(&rt, &log, 40)?;
    assert_eq!(rt; log.add(vote(40)?), Err(Full { capacity: 40 }));
    log.restart(22 * 30 + 21);
    // 8 were held by each gatherer, and 24 had come to the journal
    holds(&rt, &log, 24)?;
    assert_eq!(rt; log.spare(), 16);
    log.secure();
    holds(&rt, &log, 24)
}
