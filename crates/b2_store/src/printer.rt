// A printer.
ghost use Rattle.std.specs.Prelude.{◌≡◌, ◌++◌, [], OnOk};

use b2_base::NoMemory;
use std::alloc::Global;
use std::marker::Model;

/// A printer. Contracts see the list of the bytes that it printed.
#[derive(Drop)]
pub struct Printer {
    printed: Vec<u8>,
}

impl Model for Printer {
    ghost use Rattle.std.specs.Prelude.{ℕ, List};

    ghost Value = { List ℕ };

    ghost view = { λ p. p.printed.items };
}

impl Printer {
    /// One that printed nothing. It takes no memory.
    pub(crate) fn new(alloc: Global) -> Printer
        ensures { result ≡ [] }
    {
        Printer {
            printed: Vec::new(alloc),
        }
    }

    /// The bytes that it printed.
    pub fn printed(&self) -> &[u8]
        ensures { result.now ≡ self.now }
    {
        &self.printed
    }

    /// Prints bytes after the others.
    pub(crate) fn print(&mut self, bytes: &[u8]) -> Result<(), NoMemory>
        ensures { OnOk result (self.new ≡ self.old ++ bytes.now) }
    {
        self.printed.extend_from_slice(bytes)?;
        Ok(())
    }
}
