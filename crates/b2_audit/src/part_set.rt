// Sets of partitions.
ghost use Rattle.std.specs.Prelude.{◌≡◌};
ghost use Rattle.b2_audit.specs.PartSets.{has, with_part, without_part, has_other};

use b2_base::Part;
use std::marker::Model;

/// A set of partitions. Contracts see it as a number, in which the bit of a partition is that of its number less 1.
#[derive(Clone, Copy)]
pub struct PartSet {
    bits: u16,
}

impl Model for PartSet {
    ghost use Rattle.std.specs.Prelude.{ℕ};

    ghost Value = { ℕ };

    ghost view = { λ s. s.bits };

    ghost inverse = { λ n. record { bits = n } };
}

impl PartSet {
    /// No partition.
    pub fn none() -> PartSet
        ensures { result ≡ 0 }
    {
        PartSet { bits: 0 }
    }

    /// All sixteen partitions.
    pub fn all() -> PartSet
        ensures { result ≡ 65535 }
    {
        PartSet { bits: u16::MAX }
    }

    /// Whether a partition is in the set.
    pub fn has(self, p: Part) -> bool
        ensures { result ≡ has self p }
    {
        self.bits >> (p.number() - 1) & 1 == 1
    }

    /// The set with a partition.
    pub fn with(self, p: Part) -> PartSet
        ensures { result ≡ with_part self p }
    {
        PartSet {
            bits: self.bits | p.bit(),
        }
    }

    /// The set without a partition.
    pub fn without(self, p: Part) -> PartSet
        ensures { result ≡ without_part self p }
    {
        PartSet {
            bits: self.bits & !p.bit(),
        }
    }

    /// Whether another partition is in the set.
    pub fn has_other(self, p: Part) -> bool
        ensures { result ≡ has_other self p }
    {
        self.without(p).bits != 0
    }
}
