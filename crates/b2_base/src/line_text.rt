// A short line of text that takes no memory.
ghost use Rattle.std.specs.Prelude.{◌≡◌, ◌+◌, ◌≤◌, ◌++◌, length, []};

use arrayvec::ArrayVec;
use std::marker::Model;

/// A line of up to 240 bytes. Contracts see it as its bytes.
#[derive(Drop)]
pub struct LineText {
    bytes: ArrayVec<u8, 240>,
}

impl Model for LineText {
    ghost use Rattle.std.specs.Prelude.{ℕ, List, ◌≤◌, length};

    ghost Value = { List ℕ };

    ghost view = { λ s. s.bytes.items };

    ghost invariant = { λ s. length s.bytes.items ≤ 240 };
}

impl LineText {
    pub fn empty() -> LineText
        ensures value { result ≡ [] }
        ensures len { length result ≡ 0 }
    {
        LineText {
            bytes: ArrayVec::new(),
        }
    }

    /// Adds bytes at the end.
    pub fn add(&mut self, bytes: &[u8])
        requires { length self.old + length bytes.now ≤ 240 }
        ensures added { self.new ≡ self.old ++ bytes.now }
        ensures len { length self.new ≡ length self.old + length bytes.now }
    {
        let _ = self.bytes.try_extend_from_slice(bytes);
    }

    pub fn bytes(&self) -> &[u8]
        ensures { result.now ≡ self.now }
    {
        self.bytes.as_slice()
    }
}
