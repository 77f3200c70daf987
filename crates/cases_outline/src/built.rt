// A text that is put together of others, in fixed memory.
ghost use Rattle.std.specs.Prelude.{◌≤◌};
ghost use Rattle.cases_outline.specs.declared.built.TheConstants.{LONG};

// The most bytes of a text that a byte is put into or left out of, and of a row of lines.
pub const LONG: usize = 64;

// The bytes, and how many of them are the text: those from the first on.
#[derive(Drop)]
pub struct Built {
    bytes: [u8; LONG],
    long: usize,
    ghost within: { long ≤ LONG },
}

impl Built {
    // The empty text.
    pub fn new() -> Built {
        Built {
            bytes: [0; LONG],
            long: 0,
        }
    }

    // Puts bytes at the end, if they have room there.
    pub fn add(&mut self, more: &[u8]) -> Option<()> {
        let end = self.long.checked_add(more.len())?;
        self.bytes.get_mut(self.long..end)?.copy_from_slice(more);
        self.long = end;
        Some(())
    }

    pub fn text(&self) -> &[u8] {
        &self.bytes[..self.long]
    }
}
