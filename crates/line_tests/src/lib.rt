// Code over any line, and examples of words and lines, worked out from docs/PROTOCOL.md and docs/LINES.md.
#![tactic(auto)]

ghost use Rattle.std.specs.Prelude.{◌≡◌, ◌++◌};
ghost use Rattle.lines.specs.Lines.{Within};
ghost use Rattle.line_tests.specs.Relays.{Relayed, posts_after};

use lines::line::Line;

#[cfg(test)]
mod carried;
#[cfg(test)]
mod word_examples;

// Takes one notification from a line and posts the very same on another; whether there was one. Nothing comes to the other line that waited on neither.
pub fn relay<N: Line, M: Line>(from: &mut N, to: &mut M) -> bool
    ensures relayed { Relayed N.Line M.Line from.old to.old from.new to.new result }
    ensures taken { Within (N.Line.waiting from.new) (N.Line.waiting from.old) }
    ensures posted { Within (M.Line.waiting to.new) (M.Line.waiting to.old ++ N.Line.waiting from.old) }
    ensures unposted { N.Line.posts from.new ≡ N.Line.posts from.old }
    ensures counted { M.Line.posts to.new ≡ posts_after result (M.Line.posts to.old) }
{
    match from.take() {
        Some(notification) => {
            to.post(notification);
            true
        }
        None => false,
    }
}
