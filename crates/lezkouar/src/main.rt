// lezkouar: rehearses steps from scripts, plays a coordinator, a participant or a line from standard input, and prints the records of journals.
#![tactic(auto)]

mod calling;
mod carrying;
mod codes;
mod coordinating;
mod exploring;
mod input;
mod limits;
mod playing;
mod reading;
mod refusal;
mod rehearsing;
mod scene;
mod script;
mod showing;
mod staging;
mod step;
mod storing;
mod tables;
mod tracing;

use carrying::{play_board, play_queue};
use coordinating::play_coordinator;
use exploring::explore;
use journals::journal::Journal;
use logs::tray::Tray;
use reading::{read_bytes, read_places};
use refusal::Refusal;
use rehearsing::{rehearse_file, rehearse_input};
use showing::{demonstrate, inspect};
use std::alloc::AllocError;
use std::io::ErrorKind;
use std::process::ExitCode;
use std::{env, io};
use step::rehearse_step;
use storing::play_store;
use tables::{Form, print_tables};
use wording::call::{Command, USAGE, parse};

// Why the words of the call can't be told: one is no UTF-8 text, or there is no memory.
fn not_told(why: io::Error) -> Refusal<'static> {
    match why.kind() {
        ErrorKind::InvalidData => Refusal::NoWord,
        _ => Refusal::Memory(AllocError),
    }
}

// The words of the call, without the program's name.
fn words_of_call(rt: &HostRuntime) -> Result<Vec<String>, Refusal<'static>> {
    let mut words = Vec::new(rt.alloc());
    for word in env::args(rt).map_err(not_told)?.skip(1) {
        words.push(word)?;
    }
    Ok(words)
}

// A journal of so many bytes, without records.
fn journal<'a>(rt: &HostRuntime, bytes: &'a str) -> Result<Journal, Refusal<'a>> {
    let length = read_bytes(bytes).ok_or(Refusal::Bytes(bytes))?;
    Ok(Journal::create(vec![in rt.alloc(); 0; length]?))
}

// Does what the words of the call ask for: a match, since each command is another call.
fn run<'a>(rt: &HostRuntime, words: &'a [String]) -> Result<(), Refusal<'a>> {
    match parse(words).ok_or(Refusal::Unknown)? {
        Command::Step => rehearse_step(rt),
        Command::Demonstrate => demonstrate(rt),
        Command::Help => Ok(println!(rt; "{USAGE}")?),
        Command::Journal { file, count } => {
            let count = count.parse::<usize>().map_err(|_| Refusal::Count(count))?;
            inspect(rt, file, count)
        }
        Command::Queue { places } => {
            let places = read_places(places).ok_or(Refusal::Places(places))?;
            play_queue(rt, places)
        }
        Command::Board => play_board(rt),
        Command::CoordinatorOnTray => play_coordinator(rt, Tray::new()),
        Command::CoordinatorOnJournal { bytes } => play_coordinator(rt, journal(rt, bytes)?),
        Command::ParticipantOnTray => play_store(rt, Tray::new()),
        Command::ParticipantOnJournal { bytes } => play_store(rt, journal(rt, bytes)?),
        Command::Rehearse => rehearse_input(rt),
        Command::RehearseFile { file } => rehearse_file(rt, file),
        Command::Explore { options } => explore(rt, options),
        Command::Tables => print_tables(rt, Form::Markdown),
        Command::TablesAsCsv => print_tables(rt, Form::Csv),
    }
}

// Says on standard error why a call was refused; where that can't be written to either, the status alone tells.
fn refuse(rt: &HostRuntime, why: &Refusal<'_>) -> ExitCode {
    let _ = eprintln!(rt; "lezkouar: {why}");
    ExitCode::FAILURE
}

fn main(rt: HostRuntime) -> ExitCode {
    let words = match words_of_call(&rt) {
        Ok(words) => words,
        Err(why) => return refuse(&rt, &why),
    };
    match run(&rt, &words) {
        Ok(()) => ExitCode::SUCCESS,
        Err(why) => refuse(&rt, &why),
    }
}
