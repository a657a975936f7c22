ghost use Rattle.std.specs.Prelude.{◌≡◌, [], IfOk, OnErr, option_map};
ghost use Rattle.session_text.specs.Taking.{Kept, given, line_at_end, step};

use crate::request::LONGEST;
use pg_types::NoMemory;
use std::alloc::Global;
use std::marker::Model;
use std::mem;

/// The lines of a source, which is taken byte for byte. A line ends with a newline, which does not belong to it. One
/// of more than 4096 bytes is given as soon as it is too long, and passed over up to its end.
#[derive(Drop)]
pub struct LineReader {
    line: Vec<u8>,
    passing: bool,
}

impl Model for LineReader {
    ghost use Rattle.std.specs.Prelude.{if◌then◌else◌};
    ghost use Rattle.session_text.specs.Taking.{Taking, Kept, Passing};

    ghost Value = { Taking };

    ghost view = { λ reader. if reader.passing then Passing else Kept reader.line.items };
}

impl LineReader {
    /// Before the first byte. It takes no memory.
    pub fn new(alloc: Global) -> LineReader
        ensures { result ≡ Kept [] }
    {
        LineReader {
            line: Vec::new(alloc),
            passing: false,
        }
    }

    /// Takes the next byte, and gives the line that ends with it or becomes too long by it.
    ///
    /// # Errors
    /// For want of memory; the reader is as before then.
    pub fn take(&mut self, alloc: Global, byte: u8) -> Result<Option<Vec<u8>>, NoMemory>
        ensures taken { IfOk result (λ _. self.new ≡ (step self.old byte).0) }
        ensures line { IfOk result (λ line. option_map (λ text. text.items) line ≡ (step self.old byte).1) }
        ensures err { OnErr result (self.new ≡ self.old) }
    {
        if byte == b'\n' {
            return Ok(self.end(alloc));
        }
        if self.passing {
            return Ok(None);
        }
        self.line.push(byte)?;
        if self.line.len() <= LONGEST {
            return Ok(None);
        }
        self.passing = true;
        Ok(Some(mem::replace(&mut self.line, Vec::new(alloc))))
    }

    // Ends the line, and gives it if it was not given yet.
    fn end(&mut self, alloc: Global) -> Option<Vec<u8>>
        ensures taken { self.new ≡ (step self.old 10).0 }
        ensures line { option_map (λ text. text.items) result ≡ (step self.old 10).1 }
    {
        let line = mem::replace(&mut self.line, Vec::new(alloc));
        if self.passing {
            self.passing = false;
            return None;
        }
        Some(line)
    }

    /// The line behind the last newline, at the end of the source: none where no byte stands there.
    pub fn last(self) -> Option<Vec<u8>>
        ensures { given (option_map (λ text. text.items) result) ≡ line_at_end self }
    {
        if self.passing || self.line.is_empty() {
            None
        } else {
            Some(self.line)
        }
    }
}
