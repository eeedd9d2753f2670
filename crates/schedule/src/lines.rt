// Standard input line by line, in fixed memory: a piece of it, one read each, and the line that is begun.
use std::io::{self, Read};

// A line that fills all this room is longer than any good line.
const ROOM: usize = 65545;

// The bytes from `at` to `end` of the piece are still to be cut; `held` bytes of a line are begun.
#[derive(Drop)]
pub(crate) struct Lines<R> {
    input: R,
    ended: bool,
    piece: [u8; 65536],
    at: usize,
    end: usize,
    line: [u8; ROOM],
    held: usize,
}

impl<R: Read + Drop> Lines<R> {
    pub(crate) fn new(input: R) -> Lines<R> {
        Lines {
            input,
            ended: false,
            piece: [0; 65536],
            at: 0,
            end: 0,
            line: [0; ROOM],
            held: 0,
        }
    }

    fn rest(&self) -> &[u8] {
        self.piece.get(self.at..self.end).unwrap_or_default()
    }

    /// Whether the next line is here whole, so that it takes no read.
    pub(crate) fn has_line(&self) -> bool {
        self.rest().contains(&b'\n')
    }

    /// The next line without its line feed, which the last may lack; None at the end of the input. Of a line that is
    /// too long as much is held as there is room for.
    pub(crate) fn next(&mut self) -> io::Result<Option<&[u8]>> {
        self.held = 0;
        for _ in 0..u64::MAX {
            if self.hold() {
                return Ok(Some(self.text()));
            }
            if !self.read()? {
                return Ok((self.held > 0).then(|| self.text()));
            }
        }
        Ok(None)
    }

    fn text(&self) -> &[u8] {
        self.line.get(..self.held).unwrap_or_default()
    }

    // Holds what the piece has of the line. Whether its line feed follows.
    fn hold(&mut self) -> bool {
        let rest = self.piece.get(self.at..self.end).unwrap_or_default();
        let feed = rest.iter().position(|c| *c == b'\n');
        let n = feed.unwrap_or(rest.len());
        let from = self.held.min(ROOM);
        let fits = n.min(ROOM - from);
        self.line[from..from + fits].copy_from_slice(&rest[..fits]);
        self.held = from + fits;
        self.at = self.at.saturating_add(n).saturating_add(1);
        feed.is_some()
    }

    // One read. Whether anything came: the end of the input is the end for good, also of a terminal's.
    fn read(&mut self) -> io::Result<bool> {
        if !self.ended {
            self.at = 0;
            self.end = 0;
            self.end = self.input.read(&mut self.piece)?;
            self.ended = self.end == 0;
        }
        Ok(!self.ended)
    }
}
