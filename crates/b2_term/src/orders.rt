// The order in which a terminal goes round.
ghost use Rattle.std.specs.Prelude.{◌≡◌, ◌==◌, ◌≤◌, ◌<◌, ◌++◌, ◌∷◌, [], length};
ghost use Rattle.std.specs.List.{list_any};
ghost use Rattle.b2_term.specs.Orders.{after_in, first_or, is_order, next_in, none_twice};

use arrayvec::ArrayVec;
use b2_base::Part;
use std::marker::Model;

/// At most 16 partitions, in order. Contracts see the list of their numbers.
#[derive(Drop)]
pub struct PartList {
    parts: ArrayVec<Part, 16>,
}

impl Model for PartList {
    ghost use Rattle.std.specs.Prelude.{ℕ, List, ◌≤◌, length};

    ghost Value = { List ℕ };

    ghost view = { λ l. l.parts.items };

    ghost invariant = { λ l. length l.parts.items ≤ 16 };
}

impl PartList {
    pub fn new() -> PartList
        ensures { result ≡ [] }
    {
        PartList {
            parts: ArrayVec::new(),
        }
    }

    /// The list of these partitions.
    pub fn of(parts: &[Part]) -> PartList
        requires { length parts.now ≤ 16 }
        ensures { result ≡ parts.now }
    {
        let mut list = PartList::new();
        for part in parts {
            list.push(*part);
        }
        list
    }

    /// The partitions in order.
    pub fn parts(&self) -> &[Part]
        ensures value { result.now ≡ self.now }
        ensures few { length self.now ≤ 16 }
    {
        self.parts.as_slice()
    }

    /// Adds a partition at the end.
    pub fn push(&mut self, part: Part)
        requires { length self.old < 16 }
        ensures { self.new ≡ self.old ++ part ∷ [] }
    {
        let _ = self.parts.try_push(part);
    }

    /// The list again.
    pub fn copied(&self) -> PartList
        ensures { result ≡ self.now }
    {
        PartList::of(self.parts())
    }
}

/// Whether a partition is among some.
fn is_among(part: Part, parts: &[Part]) -> bool
    ensures { result ≡ list_any (λ q. part == q) parts.now }
{
    parts.iter().any(|q| part == *q)
}

/// Whether no partition stands twice.
fn none_twice(parts: &[Part]) -> bool
    ensures { result ≡ none_twice parts.now }
{
    let mut left = parts;
    while let [part, rest @ ..] = left {
        if is_among(*part, rest) {
            return false;
        }
        left = rest;
    }
    true
}

/// Whether partitions are an order in which a terminal may go round: there is one, and none stands twice.
pub fn is_order(parts: &[Part]) -> bool
    ensures { result ≡ is_order parts.now }
{
    match parts {
        [] => false,
        [_, ..] => none_twice(parts),
    }
}

/// Those after a partition in an order, none where it isn't in it.
fn after_in(part: Part, order: &[Part]) -> &[Part]
    ensures { result.now ≡ after_in part order.now }
{
    let mut left = order;
    while let [next, others @ ..] = left {
        if *next == part {
            return others;
        }
        left = others;
    }
    left
}

/// The first of some partitions, and another where there is none.
fn first_or(other: Part, parts: &[Part]) -> Part
    ensures { result ≡ first_or other parts.now }
{
    match parts {
        [first, ..] => *first,
        [] => other,
    }
}

/// The partition after one in an order, and the order's first where none comes after it.
pub(crate) fn next_in(order: &[Part], part: Part) -> Part
    ensures { result ≡ next_in order.now part }
{
    first_or(first_or(part, order), after_in(part, order))
}
