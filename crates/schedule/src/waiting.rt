// Standard output in fixed memory: what is printed waits, and is written when that is asked for, or behind a line where
// there is no room for the next one.
use std::io::{self, Write};

// Some four hundred lines. Only the words, which come last, may take more.
const ROOM: usize = 16384;

// The longest line of an action, a refusal and a record.
const LINE: usize = 41;

#[derive(Drop)]
pub(crate) struct Waiting<'a, P> {
    rt: &'a P,
    bytes: [u8; ROOM],
    filled: usize,
}

impl<P: Print> Waiting<'_, P> {
    pub(crate) fn new(rt: &P) -> Waiting<'_, P> {
        Waiting {
            rt,
            bytes: [0; ROOM],
            filled: 0,
        }
    }
}

impl<P: Print> Write for Waiting<'_, P> {
    fn write(&mut self, text: &[u8]) -> io::Result<usize> {
        if ROOM - self.filled.min(ROOM) < text.len() {
            self.flush()?;
        }
        let from = self.filled.min(ROOM);
        let n = text.len().min(ROOM - from);
        self.bytes[from..from + n].copy_from_slice(&text[..n]);
        self.filled = from + n;
        if text.last() == Some(&b'\n') && ROOM - self.filled.min(ROOM) < LINE {
            self.flush()?;
        }
        Ok(n)
    }

    // A write that fails is not tried again.
    fn flush(&mut self) -> io::Result<()> {
        let waits = self.bytes.get(..self.filled).unwrap_or_default();
        self.filled = 0;
        self.rt.write_all(waits)
    }
}
