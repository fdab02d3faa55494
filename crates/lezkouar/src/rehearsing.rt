// Rehearses a step from a script: its commands are worked out into moves beside, and then one call plays them all and promises agreement of what it played.
use crate::codes::code_of;
use crate::input::{Lines, Numbered, STANDARD_INPUT};
use crate::refusal::Refusal;
use crate::script::{LineChoice, Script};
use crate::staging::{Logs, Staging};
use crate::tracing::{Ending, how_ended, print_summary, print_trace};
use boards::board::Board;
use lines::line::Line;
use lines::queue::Queue;
use lines::trace::TraceEntry;
use logs::log::Log;
use rehearsals::moves::Move;
use rehearsals::rehearsal::{Rehearsal, Unfinished, rehearse};
use std::alloc::Global;
use std::fs;
use std::io::{Input, Read};
use words::row::Row;

// Rehearses the step of a script on standard input.
pub(crate) fn rehearse_input(rt: &HostRuntime) -> Result<(), Refusal<'static>> {
    rehearse_from(rt, STANDARD_INPUT, rt.reader())
}

// Rehearses the step of a script in a file.
pub(crate) fn rehearse_file<'a>(rt: &HostRuntime, file: &'a str) -> Result<(), Refusal<'a>> {
    let opened = fs::open(rt, file).map_err(|why| Refusal::Unread { file, why })?;
    rehearse_from(rt, file, opened)
}

// Rehearses the step of the script that a reader gives, which has this name.
fn rehearse_from<'a, R: Read + Drop>(
    rt: &HostRuntime,
    name: &'a str,
    reader: R,
) -> Result<(), Refusal<'a>> {
    let script = read_script(name, reader, rt.alloc())?;
    perform(rt, &script)?;
    Ok(())
}

// Reads a script to the end.
fn read_script<'a, R: Read + Drop>(
    name: &'a str,
    reader: R,
    alloc: Global,
) -> Result<Script, Refusal<'a>> {
    let mut script = Script::new(alloc);
    let mut lines = Lines::of(name, reader, alloc)?;
    for _ in 0..u64::MAX {
        let Some(Numbered { number, text }) = lines.next()? else {
            break;
        };
        script.read(alloc, number, text)?;
    }
    Ok(script)
}

// Rehearses the step of a script that comes in parts, and tells how those ended that did.
pub(crate) fn rehearse_parts(rt: &HostRuntime, parts: &[&str]) -> Result<Ending, Refusal<'static>> {
    let mut script = Script::new(rt.alloc());
    let lines = parts.iter().flat_map(|part| part.lines());
    for (number, line) in (1u64..).zip(lines) {
        script.read(rt.alloc(), number, line)?;
    }
    perform(rt, &script)
}

// Rehearses a script that was read.
fn perform(rt: &HostRuntime, script: &Script) -> Result<Ending, Refusal<'static>> {
    let alloc = rt.alloc();
    let Some(opening) = script.opening else {
        return Err(Refusal::NoScript);
    };
    let transaction = opening.transaction;
    let beside = opening.logs(script.joins(), alloc)?;
    match opening.line {
        LineChoice::Board => {
            let moves = work_out(alloc, script, transaction, beside, Board::new())?;
            // the logs beside are gone by now: no more than one set of logs is there at a time
            let logs = opening.logs(script.joins(), alloc)?;
            play(rt, transaction, logs, Board::new(), &moves)
        }
        LineChoice::Queue(places) => {
            let mut rows = vec![in alloc; Row::BLANK; places]?;
            let moves = work_out(alloc, script, transaction, beside, Queue::new(&mut rows))?;
            let logs = opening.logs(script.joins(), alloc)?;
            play(rt, transaction, logs, Queue::new(&mut rows), &moves)
        }
    }
}

// The moves that the commands of a script come to.
fn work_out<L: Log + Drop, N: Line + Drop>(
    alloc: Global,
    script: &Script,
    transaction: u32,
    logs: Logs<L>,
    line: N,
) -> Result<Vec<Move>, Refusal<'static>> {
    let opened = Rehearsal::open(transaction, logs.coordinators, line, logs.stores, alloc);
    let rehearsal = opened.map_err(|_| Refusal::Unplayed)?;
    let mut staging = Staging::of(rehearsal, alloc);
    let followed = staging.follow(script);
    let moves = staging.end();
    followed?;
    Ok(moves)
}

// Plays the moves in one call, and prints the trace and how it ended.
fn play<L: Log + Drop, N: Line + Drop>(
    rt: &HostRuntime,
    transaction: u32,
    logs: Logs<L>,
    line: N,
    moves: &[Move],
) -> Result<Ending, Refusal<'static>> {
    let played = rehearse(
        transaction,
        logs.coordinators,
        line,
        logs.stores,
        moves,
        rt.alloc(),
    );
    let rehearsal = match played {
        Ok(rehearsal) => rehearsal,
        Err(Unfinished::NotOpened(_, _, _)) => return Err(Refusal::Unplayed),
        Err(Unfinished::Halted(rehearsal, _)) => {
            rehearsal.close();
            return Err(Refusal::Unplayed);
        }
    };
    let printed = print_all(rt, moves, &rehearsal);
    let ending = how_ended(rehearsal.desk());
    rehearsal.close();
    printed?;
    Ok(ending)
}

// Prints the trace and the summary. The trace's state codes and fault numbers come out of one queue, with a place for each move.
fn print_all<L: Log + Drop, N: Line>(
    rt: &HostRuntime,
    moves: &[Move],
    rehearsal: &Rehearsal<L, L, N>,
) -> Result<(), Refusal<'static>> {
    let mut places = vec![in rt.alloc(); TraceEntry::BLANK; moves.len()]?;
    let mut codes = Queue::new(&mut places);
    for entry in rehearsal.trace() {
        codes.push(code_of(entry));
    }
    print_trace(rt, moves, rehearsal.trace(), &mut codes, rehearsal.desk())?;
    println!(rt; "summary")?;
    print_summary(rt, rehearsal.desk())?;
    Ok(())
}
