// The names of files outside: short lists of bytes that take no memory.
ghost use Rattle.std.specs.Prelude.{◌≡◌, ◌+◌, ◌≤◌, ◌++◌, length, [], IfSome, true};
ghost use Rattle.std.specs.List.{list_all};
ghost use Rattle.b2_base.specs.Names.{is_file_name, is_name_byte, file_name_of};

use arrayvec::ArrayVec;
use std::marker::Model;

/// A name of up to 200 bytes. Contracts see it as its bytes.
#[derive(Drop)]
pub struct FileName {
    bytes: ArrayVec<u8, 200>,
}

impl Model for FileName {
    ghost use Rattle.std.specs.Prelude.{ℕ, List, ◌≤◌, length};

    ghost Value = { List ℕ };

    ghost view = { λ s. s.bytes.items };

    ghost invariant = { λ s. length s.bytes.items ≤ 200 };
}

impl FileName {
    /// The name without a byte, which stands for standard output.
    pub fn empty() -> FileName
        ensures { result ≡ [] }
    {
        FileName {
            bytes: ArrayVec::new(),
        }
    }

    /// A name that a command line may give, None where the bytes are none: 1 to 190 letters, digits, `.`, `_`, `-`
    /// and `/`.
    pub fn of(bytes: &[u8]) -> Option<FileName>
        ensures value { result ≡ file_name_of bytes.now }
        ensures short { IfSome result (λ name. length name ≤ 190) }
    {
        if !is_name(bytes) {
            return None;
        }
        Some(FileName::empty().with(bytes))
    }

    /// The name with an ending.
    pub fn with(mut self, ending: &[u8]) -> FileName
        requires { length self + length ending.now ≤ 200 }
        ensures { result ≡ self ++ ending.now }
    {
        let _ = self.bytes.try_extend_from_slice(ending);
        self
    }

    pub fn bytes(&self) -> &[u8]
        ensures value { result.now ≡ self.now }
        ensures short { length self.now ≤ 200 }
    {
        self.bytes.as_slice()
    }
}

/// Whether a command line may give this name.
fn is_name(bytes: &[u8]) -> bool
    ensures value { result ≡ is_file_name bytes.now }
    ensures short { result ≡ true → length bytes.now ≤ 190 }
{
    bytes.len() >= 1 && bytes.len() <= 190 && all_name_bytes(bytes)
}

fn all_name_bytes(bytes: &[u8]) -> bool
    ensures { result ≡ list_all is_name_byte bytes.now }
{
    bytes.iter().all(|b| is_byte_of_name(*b))
}

/// Whether a name may have this byte.
fn is_byte_of_name(b: u8) -> bool
    ensures { result ≡ is_name_byte b }
{
    b.is_ascii_alphanumeric() || b == b'.' || b == b'_' || b == b'-' || b == b'/'
}
