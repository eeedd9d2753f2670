// How the example programs show keys, and the words of a table: capital hexadecimal digits, a blank before each.
// Nothing here is part of the table.
#![tactic(auto)]

use std::fmt;

// Two digits each: the keys of the examples have no more.
#[derive(Clone, Copy)]
pub struct Keys<'a>(pub &'a [u32]);

impl fmt::Display for Keys<'_> {
    fn fmt<W: fmt::Write>(&self, f: &mut fmt::Formatter<W>) -> fmt::Result {
        for key in self.0 {
            write!(f, " {key:02X}")?;
        }
        Ok(())
    }
}

// Four digits each. In the table a word is two bytes, low byte first.
#[derive(Clone, Copy)]
pub struct Words<'a>(pub &'a [u8]);

impl fmt::Display for Words<'_> {
    fn fmt<W: fmt::Write>(&self, f: &mut fmt::Formatter<W>) -> fmt::Result {
        for pair in self.0.chunks_exact(2) {
            write!(f, " {:04X}", u16::from_le_bytes([pair[0], pair[1]]))?;
        }
        Ok(())
    }
}
