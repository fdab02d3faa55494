// Reads the lines of an input.
use crate::limits::MOST_LINE_BYTES;
use crate::refusal::{Refusal, Slip};
use std::alloc::Global;
use std::io::{BufRead, BufReader, Read};
use std::str;

// The name of standard input.
pub(crate) const STANDARD_INPUT: &str = "standard input";

// An input, which is read a line at a time: no more of it lies in memory than one line.
#[derive(Drop)]
pub(crate) struct Lines<'a, R> {
    // what is said of it where it can't be read
    name: &'a str,
    reader: BufReader<R>,
    line: Vec<u8>,
    // of the line that was read last, counted from 1
    number: u64,
}

// A line of input, with its number.
#[derive(Clone, Copy)]
pub(crate) struct Numbered<'a> {
    pub(crate) number: u64,
    pub(crate) text: &'a str,
}

impl<'a, R: Read + Drop> Lines<'a, R> {
    // The lines of a reader, of which none is read yet.
    pub(crate) fn of(name: &'a str, reader: R, alloc: Global) -> Result<Lines<'a, R>, Refusal<'a>> {
        let reader = BufReader::new(alloc, reader).map_err(|why| Refusal::Unread {
            file: name,
            why,
        })?;
        Ok(Lines {
            name,
            reader,
            line: Vec::new(alloc),
            number: 0,
        })
    }

    // The next line, with its end, or none where the input ends. A byte-order mark before the first is passed over.
    pub(crate) fn next(&mut self) -> Result<Option<Numbered<'_>>, Refusal<'a>> {
        if !self.read()? {
            return Ok(None);
        }
        let number = self.number;
        if self.line.len() > MOST_LINE_BYTES {
            let slip = Slip::LongLine;
            return Err(Refusal::Line { number, slip });
        }
        let bytes = match self.line.as_slice() {
            // the bytes of a byte-order mark
            [0xEF, 0xBB, 0xBF, rest @ ..] if number == 1 => rest,
            bytes => bytes,
        };
        match str::from_utf8(bytes) {
            Ok(text) => Ok(Some(Numbered { number, text })),
            Err(_) => Err(Refusal::Line {
                number,
                slip: Slip::NoText,
            }),
        }
    }

    // Reads the bytes of the next line, one more than a line has at most, and tells whether there are any.
    fn read(&mut self) -> Result<bool, Refusal<'a>> {
        self.line.clear();
        let most = u64::try_from(MOST_LINE_BYTES)
            .unwrap_or(u64::MAX)
            .saturating_add(1);
        let read = self
            .reader
            .by_ref()
            .take(most)
            .read_until(b'\n', &mut self.line);
        let count = read.map_err(|why| Refusal::Unread {
            file: self.name,
            why,
        })?;
        self.number = self.number.saturating_add(1);
        Ok(count > 0)
    }
}
