// The numbers of partitions and terminals.
ghost use Rattle.std.specs.Prelude.{◌≡◌, ◌≤◌, ◌-◌, ◌==◌, ℕ, if◌then◌else◌};
ghost use Rattle.std.specs.Int.{bit_at};
ghost use Rattle.b2_base.specs.Places.{part_of, term_of, bit_of};

use std::marker::Model;

/// A partition, from 1 to 16. Contracts see it as its number.
#[derive(Clone, Copy, PartialEq, Eq)]
pub struct Part {
    number: u8,
}

impl Model for Part {
    ghost use Rattle.std.specs.Prelude.{ℕ, ◌≤◌};

    ghost Value = { ℕ };

    ghost view = { λ p. p.number };

    ghost invariant = { λ p. (1 ≤ p.number) × (p.number ≤ 16) };

    ghost inverse = { λ n. record { number = n } };
}

/// The first partition.
impl Default for Part {
    ghost use Rattle.std.specs.Prelude.{◌≡◌};

    ghost is_default = { λ p. p ≡ 1 };

    fn default() -> Part {
        Part { number: 1 }
    }
}

impl Part {
    /// The partition of a number, None outside 1 to 16.
    pub fn of(n: u8) -> Option<Part>
        ensures { result ≡ part_of n }
    {
        if n >= 1 && n <= 16 {
            Some(Part { number: n })
        } else {
            None
        }
    }

    /// The partition of a number that is known to be one.
    pub fn known(n: u8) -> Part
        requires low { 1 ≤ n }
        requires high { n ≤ 16 }
        ensures { result ≡ n }
    {
        Part { number: n }
    }

    /// Its number, from 1 to 16.
    pub fn number(self) -> u8
        ensures value { result ≡ self }
        ensures low { 1 ≤ result }
        ensures high { result ≤ 16 }
    {
        self.number
    }

    /// Its bit in a mask of partitions: that of its number less 1.
    pub fn bit(self) -> u16
        ensures value { result ≡ bit_of self }
        ensures own { (p : ℕ) → 1 ≤ p → bit_at result (p - 1) ≡ (if self == p then 1 else 0) }
    {
        1 << (self.number - 1)
    }
}

/// A terminal, from 1 to 12. Contracts see it as its number.
#[derive(Clone, Copy)]
pub struct Term {
    number: u8,
}

impl Model for Term {
    ghost use Rattle.std.specs.Prelude.{ℕ, ◌≤◌};

    ghost Value = { ℕ };

    ghost view = { λ t. t.number };

    ghost invariant = { λ t. (1 ≤ t.number) × (t.number ≤ 12) };

    ghost inverse = { λ n. record { number = n } };
}

impl Term {
    /// The terminal of a number, None outside 1 to 12.
    pub fn of(n: u8) -> Option<Term>
        ensures { result ≡ term_of n }
    {
        if n >= 1 && n <= 12 {
            Some(Term { number: n })
        } else {
            None
        }
    }

    /// The terminal of a number that is known to be one.
    pub fn known(n: u8) -> Term
        requires low { 1 ≤ n }
        requires high { n ≤ 12 }
        ensures { result ≡ n }
    {
        Term { number: n }
    }

    /// Its number, from 1 to 12.
    pub fn number(self) -> u8
        ensures value { result ≡ self }
        ensures low { 1 ≤ result }
        ensures high { result ≤ 12 }
    {
        self.number
    }
}
