// The play of a line of notifications: posts and takes, and tells what each did.
use crate::calling::words_of;
use crate::codes::Codes;
use crate::playing::{Play, play_all};
use crate::reading::read_notification;
use crate::refusal::{Refusal, Slip};
use boards::board::Board;
use lines::line::Counted;
use lines::queue::Queue;
use std::io;
use words::notification::Notification;
use words::row::Row;

// What a line of input asks for.
#[derive(Clone, Copy)]
enum Step {
    Post(Notification),
    Take,
}

// A line that is played.
#[derive(Drop)]
struct Carrying<N> {
    line: N,
}

impl<N: Counted> Carrying<N> {
    // Prints what became of a notification, and the number of posts.
    fn tell(&self, rt: &HostRuntime, what: &str, notification: Notification) -> io::Result<()> {
        let posts = self.line.posts();
        println!(rt; "{what}: {notification} (posts {posts})")
    }
}

impl<N: Counted> Play for Carrying<N> {
    type Step = Step;

    fn read(&self, line: &str) -> Result<Option<Step>, Slip> {
        match words_of(line).as_slice() {
            [] => Ok(None),
            ["take"] => Ok(Some(Step::Take)),
            ["post", transaction, seat, kind] => {
                let notification = read_notification(transaction, seat, kind)?;
                Ok(Some(Step::Post(notification)))
            }
            ["post", ..] => Err(Slip::PostParts),
            _ => Err(Slip::Step),
        }
    }

    // A line has no state and no fault, so nothing goes through the queue.
    fn take(
        &mut self,
        rt: &HostRuntime,
        _codes: &mut Codes<'_>,
        step: Step,
    ) -> Result<(), Refusal<'static>> {
        // a match: two calls with other arguments
        match step {
            Step::Post(notification) => {
                let what = if self.line.is_full() {
                    "dropped"
                } else {
                    "posted"
                };
                self.line.post(notification);
                self.tell(rt, what, notification)?;
            }
            Step::Take => match self.line.take() {
                Some(notification) => self.tell(rt, "took", notification)?,
                None => {
                    let posts = self.line.posts();
                    println!(rt; "nothing waits (posts {posts})")?;
                }
            },
        }
        Ok(())
    }
}

// Plays on a queue of so many places.
pub(crate) fn play_queue(rt: &HostRuntime, places: usize) -> Result<(), Refusal<'static>> {
    let mut rows = vec![in rt.alloc(); Row::BLANK; places]?;
    let mut game = Carrying {
        line: Queue::new(&mut rows),
    };
    play_all(rt, &mut game)
}

// Plays on a board.
pub(crate) fn play_board(rt: &HostRuntime) -> Result<(), Refusal<'static>> {
    let mut game = Carrying { line: Board::new() };
    play_all(rt, &mut game)
}
