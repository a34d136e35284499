//! The inputs of a case: files in memory, or one input that never ends, and what was opened of them.

ghost use Rattle.std.specs.Prelude.{◌≡◌, ◌<◌, ◌^◌};
ghost use Rattle.outside.specs.Inputs.{InputState, Stays, OpenGives, ReadGives};
ghost use Rattle.tests.specs.Given.{state_of};

use outside::{Failed, Inputs, MemInputs, OpenError};

/// What a run may open.
#[derive(Drop)]
pub struct Given {
    /// Files in memory.
    pub files: MemInputs,
    /// Whether each input is the line below without an end, and no file exists.
    pub is_endless: bool,
    /// What each read of an endless input gives.
    pub line: Vec<u8>,
    /// How many endless inputs were opened.
    pub opens: u64,
    /// The names of the inputs that were opened, each in brackets. That of standard input is empty.
    pub opened: String,
}

/// Notes that the input of this name was opened. If memory runs out, the note is cut short.
fn note(opened: &mut String, name: &str) {
    let _ = opened.push('[');
    let _ = opened.push_str(name);
    let _ = opened.push(']');
}

impl Inputs for Given {
    ghost state = { state_of };

    fn open(&mut self, name: &str) -> Result<(), OpenError> {
        if self.is_endless {
            self.opens = self.opens.saturating_add(1);
            note(&mut self.opened, name);
            return Ok(());
        }
        let result = self.files.open(name);
        if result.is_ok() {
            note(&mut self.opened, name);
        }
        result
    }

    fn read(&mut self, buf: &mut [u8]) -> Result<usize, Failed> {
        if !self.is_endless {
            return self.files.read(buf);
        }
        let count = buf.len().min(self.line.len());
        buf[..count].copy_from_slice(&self.line[..count]);
        Ok(count)
    }
}
