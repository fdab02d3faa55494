// A stream of calls, as bench/README.md says it: four bytes each, and any bytes mean calls.
use crate::game::Game;
use crate::keeping::Kept;
use crate::sink::Sink;
use journals::journal::Journal;
use lines::queue::Queue;
use logs::gatherer::Gatherer;
use logs::tray::Tray;
use std::alloc::{AllocError, Global};
use words::row::Row;

// How many bytes say a call.
const CALL_BYTES: usize = 4;

// The least and the most places of the line.
const LEAST_PLACES: usize = 16;

const PLACES: usize = 47;

// What the first four bytes say.
#[derive(Clone, Copy, Drop)]
pub(crate) struct Setting {
    // how many records a journal has room for
    pub(crate) places: u32,
    // how many records of another transaction every log holds
    pub(crate) held: u32,
    // the first transaction
    pub(crate) transaction: u32,
}

// A call as it is said.
#[derive(Clone, Copy, Drop)]
pub(crate) struct Said {
    // which call
    pub(crate) call: u8,
    // whose
    pub(crate) who: u8,
    // what it hands over
    pub(crate) what: u8,
    // how many places its outbox has, and by which number a log restarts
    pub(crate) number: u8,
}

impl Said {
    // The call that four bytes say.
    fn of(part: &[u8]) -> Option<Said> {
        match *part {
            [call, who, what, number] => Some(Said {
                call,
                who,
                what,
                number,
            }),
            _ => None,
        }
    }
}

fn play_over<L: Kept>(
    alloc: Global,
    setting: Setting,
    calls: &[u8],
    sink: &mut Sink<'_>,
) -> Result<(), AllocError> {
    let mut places = [Row::BLANK; PLACES];
    let length = LEAST_PLACES + setting.transaction as usize % (PLACES - LEAST_PLACES);
    let line = Queue::new(&mut places[..length]);
    let mut game: Game<'_, L> = Game::set(alloc, setting, line)?;
    for part in calls.chunks_exact(CALL_BYTES).skip(1) {
        if let Some(said) = Said::of(part) {
            game = game.play(said, sink);
        }
    }
    game.end(sink);
    Ok(())
}

// Plays the calls on a coordinator and four participants, and tells after each what there is to see, and at the end the logs. Answers how many bytes it told.
#[unsafe(no_mangle)]
pub extern "C" fn measured_play(alloc: Global, calls: &[u8], out: &mut [u8]) -> usize {
    let mut sink = Sink::new(out);
    let Some(
        Said {
            call: logs,
            who: places,
            what: held,
            number: transaction,
        },
    ) = calls.get(..CALL_BYTES).and_then(Said::of)
    else {
        return 0;
    };
    let setting = Setting {
        places: u32::from(places % 64),
        held: u32::from(held % 32),
        transaction: u32::from(transaction) << 16 | u32::from(held),
    };
    let played = match logs % 4 {
        0 => play_over::<Tray>(alloc, setting, calls, &mut sink),
        1 => play_over::<Gatherer<Tray>>(alloc, setting, calls, &mut sink),
        2 => play_over::<Journal>(alloc, setting, calls, &mut sink),
        _ => play_over::<Gatherer<Journal>>(alloc, setting, calls, &mut sink),
    };
    match played {
        Ok(()) => sink.filled(),
        Err(_) => 0,
    }
}
