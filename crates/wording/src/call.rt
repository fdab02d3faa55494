ghost use Rattle.std.specs.Prelude.{◌≡◌, map, string_bytes};
ghost use Rattle.wording.specs.Calls.{asked_one, asked_two, asked_three, asked_by, asked};

// How the program is called.
pub const USAGE: &str = "lezkouar: step transactions for engineering desktops

usage:
  lezkouar                            rehearse a built-in step whose coordinator is cut
  lezkouar rehearse [FILE]            rehearse a step from a script, or from standard input
  lezkouar explore [OPTIONS]          walk through every situation that a step comes to
  lezkouar tables [--csv]             print the state tables, each cell as the engine fills it
  lezkouar coordinator tray           play a step's coordinator over a tray
  lezkouar coordinator journal BYTES  the same over a journal of BYTES bytes
  lezkouar participant tray           play a store's side of a step over a tray
  lezkouar participant journal BYTES  the same over a journal of BYTES bytes
  lezkouar line queue PLACES          post and take on a queue of PLACES notifications
  lezkouar line board                 post and take on a board
  lezkouar journal                    show what a journal holds after a power cut
  lezkouar journal FILE COUNT         print the first COUNT records of a journal file
  lezkouar --help                     print this text

rehearse, coordinator, participant and line read a command a line; # begins a comment.
BYTES is at most 16777216 and PLACES 1048576; a script comes to at most 1000000 moves.
rehearse: open T [log LOG] [stores LOG] [line LINE], register volatile|durable, join SEAT,
  commit, rollback, outcome, vote SEAT prepared|readonly|aborted, settle WHO, expire WHO,
  resend WHO, cut WHO N, say SEAT KIND, post, post I, take, receive WHO I, deliver, run N.
  LOG is tray, journal BYTES or gathered LOG; LINE is queue PLACES or board; WHO is
  coordinator or a seat.
explore: --stores N (2), --volatile M (1), --steps S (all), --log LOG (tray), --line LINE
  or any (any).
coordinator: register volatile|durable, commit, rollback, outcome, receive SEAT KIND,
  receive T SEAT KIND, settle, expire, resend, cut N, outbox N, fill N, log.
participant: receive KIND, receive T SEAT KIND, vote BALLOT, settle, expire, resend,
  cut N, outbox N, fill N, log.
line: post T SEAT KIND, take.";

// What a call of the program asks for; the words as they were given.
#[derive(Clone, Copy, PartialEq, Eq, Debug)]
pub enum Command<'a> {
    // Rehearse the built-in step.
    Step,
    // Show what a journal holds after a power cut.
    Demonstrate,
    // Say how the program is called.
    Help,
    // Print so many records of a journal file.
    Journal { file: &'a str, count: &'a str },
    // Play on a queue of so many places.
    Queue { places: &'a str },
    // Play on a board.
    Board,
    // Play a coordinator over a tray.
    CoordinatorOnTray,
    // Play a coordinator over a journal of so many bytes.
    CoordinatorOnJournal { bytes: &'a str },
    // Play a participant over a tray.
    ParticipantOnTray,
    // Play a participant over a journal of so many bytes.
    ParticipantOnJournal { bytes: &'a str },
    // Rehearse a step from a script on standard input.
    Rehearse,
    // Rehearse a step from a script in a file.
    RehearseFile { file: &'a str },
    // Walk through every situation, as these words say.
    Explore { options: &'a [String] },
    // Print the state tables.
    Tables,
    // Print them as comma-separated values.
    TablesAsCsv,
}

// The command that the words of a call, without the program's name, ask for, or none where they are no call.
pub fn parse(words: &[String]) -> Option<Command<'_>>
    ensures { asked result ≡ asked_by (map string_bytes words.now) }
{
    match words {
        [] => Some(Command::Step),
        [first, options @ ..] if first.as_str() == "explore" => Some(Command::Explore { options }),
        [word] => one_word(word.as_str()),
        [first, second] => two_words(first.as_str(), second.as_str()),
        [first, second, third] => three_words(first.as_str(), second.as_str(), third.as_str()),
        _ => None,
    }
}

// What one word asks for.
fn one_word(word: &str) -> Option<Command<'_>>
    ensures { asked result ≡ asked_one word.now }
{
    match word {
        "--help" => Some(Command::Help),
        "journal" => Some(Command::Demonstrate),
        "rehearse" => Some(Command::Rehearse),
        "tables" => Some(Command::Tables),
        _ => None,
    }
}

// What two words ask for.
fn two_words<'a>(first: &'a str, second: &'a str) -> Option<Command<'a>>
    ensures { asked result ≡ asked_two first.now second.now }
{
    match (first, second) {
        ("rehearse", file) => Some(Command::RehearseFile { file }),
        ("tables", "--csv") => Some(Command::TablesAsCsv),
        ("line", "board") => Some(Command::Board),
        ("coordinator", "tray") => Some(Command::CoordinatorOnTray),
        ("participant", "tray") => Some(Command::ParticipantOnTray),
        _ => None,
    }
}

// What three words ask for.
fn three_words<'a>(first: &'a str, second: &'a str, third: &'a str) -> Option<Command<'a>>
    ensures { asked result ≡ asked_three first.now second.now third.now }
{
    match (first, second) {
        ("journal", file) => Some(Command::Journal { file, count: third }),
        ("line", "queue") => Some(Command::Queue { places: third }),
        ("coordinator", "journal") => Some(Command::CoordinatorOnJournal { bytes: third }),
        ("participant", "journal") => Some(Command::ParticipantOnJournal { bytes: third }),
        _ => None,
    }
}
