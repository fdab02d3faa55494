ghost use Rattle.std.specs.Prelude.{◌≡◌, MatchResult};
ghost use Rattle.agreement.specs.World.{Reached};
ghost use Rattle.rehearsals.specs.Plays.{Agrees, Halts, Opened, Rehearsed, Resting, Step, Stopped, scene_of};
ghost use Rattle.lines.specs.Lines.{Chain};

use super::{Rehearsal, Unfinished};
use crate::moves::Move;
use crate::trace::Entry;
use desks::desk::Desk;
use lines::line::Line;
use logs::log::Log;
use std::alloc::{AllocError, Global};

impl<C: Log, P: Log + Drop, N: Line> Rehearsal<C, P, N> {
    // A rehearsal of a transaction that was just opened, with nobody at its seats; without memory for them what was given comes back.
    pub fn open(
        transaction: u32,
        log: C,
        line: N,
        logs: Vec<P>,
        alloc: Global,
    ) -> Result<Rehearsal<C, P, N>, (C, N, Vec<P>)>
        ensures { MatchResult result (λ r. Opened C.Log P.Log N.Line transaction log line logs.items r) (λ back. back ≡ (log, line, logs)) }
    {
        match Desk::open(transaction, log, line, alloc) {
            Ok(desk) => Ok(Rehearsal {
                desk,
                logs,
                trace: Vec::new(alloc),
            }),
            Err((log, line)) => Err((log, line, logs)),
        }
    }

    // Makes a move, and writes it to the trace; without memory it is not made.
    pub fn play_one(&mut self, next: Move) -> Result<(), AllocError>
        ensures { MatchResult result (λ _. Step C.Log P.Log N.Line self.old next self.new) (λ _. Resting C.Log P.Log N.Line self.old self.new) }
    {
        self.trace.reserve(1)?;
        let event = self.make(next)?;
        let desk = &self.desk;
        let entry = Entry {
            event,
            coordinator: desk.state(),
            participant: next.seat().and_then(|seat| desk.state_at(seat)),
            given: desk.given().len(),
        };
        self.trace.push_reserved(entry);
        Ok(())
    }

    // Plays the moves in their order. Without memory for one of them it plays no further, and answers its number, counted from 0.
    pub fn play(&mut self, moves: &[Move]) -> Result<(), usize>
        ensures played { MatchResult result (λ _. Chain (Step C.Log P.Log N.Line) self.old moves.now self.new) (λ n. Halts C.Log P.Log N.Line self.old moves.now n self.new) }
        ensures agreement { Reached self.old.desk.transaction (scene_of C.Log P.Log N.Line self.old) → Reached self.old.desk.transaction (scene_of C.Log P.Log N.Line self.new) × Agrees self.old.desk.transaction (scene_of C.Log P.Log N.Line self.new) }
    {
        for (number, next) in moves.iter().enumerate() {
            if self.play_one(*next).is_err() {
                return Err(number);
            }
        }
        Ok(())
    }
}

// Opens a transaction and plays the moves in their order.
pub fn rehearse<C: Log, P: Log + Drop, N: Line>(
    transaction: u32,
    log: C,
    line: N,
    logs: Vec<P>,
    moves: &[Move],
    alloc: Global,
) -> Result<Rehearsal<C, P, N>, Unfinished<C, P, N>>
    ensures { MatchResult result (λ r. Rehearsed C.Log P.Log N.Line transaction log line logs.items moves.now r) (λ u. Stopped C.Log P.Log N.Line transaction log line logs moves.now u) }
{
    let mut rehearsal = match Rehearsal::open(transaction, log, line, logs, alloc) {
        Ok(rehearsal) => rehearsal,
        Err((log, line, logs)) => return Err(Unfinished::NotOpened(log, line, logs)),
    };
    match rehearsal.play(moves) {
        Ok(()) => Ok(rehearsal),
        Err(number) => Err(Unfinished::Halted(rehearsal, number)),
    }
}
