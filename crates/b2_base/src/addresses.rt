// The addresses of devices.
ghost use Rattle.std.specs.Prelude.{◌≡◌, ◌≤◌, ◌<◌, ◌++◌, [], ◌∷◌, length, true};
ghost use Rattle.b2_base.specs.Names.{is_address, address_of};

use crate::lexical::is_hex_digit;
use arrayvec::ArrayVec;
use std::marker::Model;

/// Three upper hexadecimal digits. Contracts see them as their bytes.
#[derive(Clone, Copy, PartialEq, Eq)]
pub struct Addr {
    digits: [u8; 3],
}

impl Model for Addr {
    ghost use Rattle.std.specs.Prelude.{ℕ, List, ◌≡◌, true};
    ghost use Rattle.b2_base.specs.Names.{is_address};

    ghost Value = { List ℕ };

    ghost view = { λ a. a.digits };

    ghost invariant = { λ a. is_address a.digits ≡ true };

    ghost inverse = { λ bytes. record { digits = bytes } };
}

/// The address 005, the terminal's.
impl Default for Addr {
    ghost use Rattle.std.specs.Prelude.{◌≡◌, codes};

    ghost is_default = { λ a. a ≡ codes "005" };

    fn default() -> Addr {
        Addr { digits: *b"005" }
    }
}

impl Addr {
    /// The address of these bytes, None where they aren't three upper hexadecimal digits.
    pub fn of(bytes: &[u8]) -> Option<Addr>
        ensures { result ≡ address_of bytes.now }
    {
        match bytes {
            [a, b, c] if is_hex_digit(*a) && is_hex_digit(*b) && is_hex_digit(*c) => Some(Addr {
                digits: [*a, *b, *c],
            }),
            _ => None,
        }
    }

    /// Its three digits.
    pub fn bytes(&self) -> [u8; 3]
        ensures value { result ≡ self.now }
        ensures legal { is_address result ≡ true }
    {
        self.digits
    }
}

/// At most 12 addresses, in order.
#[derive(Drop)]
pub struct AddrList {
    addresses: ArrayVec<Addr, 12>,
}

impl Model for AddrList {
    ghost use Rattle.std.specs.Prelude.{ℕ, List, ◌≤◌, length};

    ghost Value = { List (List ℕ) };

    ghost view = { λ s. s.addresses.items };

    ghost invariant = { λ s. length s.addresses.items ≤ 12 };
}

impl AddrList {
    pub fn new() -> AddrList
        ensures { result ≡ [] }
    {
        AddrList {
            addresses: ArrayVec::new(),
        }
    }

    /// The addresses in order.
    pub fn addresses(&self) -> &[Addr]
        ensures value { result.now ≡ self.now }
        ensures few { length self.now ≤ 12 }
    {
        self.addresses.as_slice()
    }

    /// Adds an address at the end.
    pub fn push(&mut self, address: Addr)
        requires { length self.old < 12 }
        ensures { self.new ≡ self.old ++ address ∷ [] }
    {
        let _ = self.addresses.try_push(address);
    }
}
