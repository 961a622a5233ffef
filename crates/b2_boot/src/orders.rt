// The order in which a terminal goes round: whether it may be one, and what it is where none is said.
ghost use Rattle.std.specs.Prelude.{◌≡◌, ◌==◌, ◌&&◌, ◌≤◌, length, true};
ghost use Rattle.std.specs.List.{list_all, list_any};
ghost use Rattle.b2_term.specs.Orders.{is_order, none_twice};
ghost use Rattle.b2_boot.specs.Boots as spec;
ghost use Rattle.b2_boot.specs.Rows.{is_between};

use crate::rows::{PartitionRow, TerminalRow};
use b2_base::{ByteList, Part};
use b2_term::PartList;

/// Whether a partition of a number stands on a terminal.
pub fn is_partition_at(terminal: u16, number: u16, partitions: &[PartitionRow]) -> bool
    ensures { result ≡ spec.is_partition_at terminal number partitions.now }
{
    partitions
        .iter()
        .any(|p| p.number == number && p.terminal == terminal)
}

/// Whether a number is among some.
fn is_among(number: u8, numbers: &[u8]) -> bool
    ensures { result ≡ list_any (λ n. number == n) numbers.now }
{
    numbers.iter().any(|n| number == *n)
}

/// Whether no number stands twice.
fn none_twice(numbers: &[u8]) -> bool
    ensures { result ≡ none_twice numbers.now }
{
    let mut left = numbers;
    while let [number, rest @ ..] = left {
        if is_among(*number, rest) {
            return false;
        }
        left = rest;
    }
    true
}

/// Whether numbers are an order: there is one, and none stands twice.
fn is_order(numbers: &[u8]) -> bool
    ensures { result ≡ is_order numbers.now }
{
    match numbers {
        [] => false,
        [_, ..] => none_twice(numbers),
    }
}

/// Whether all numbers are those of partitions on a terminal.
fn all_stand_at(terminal: u16, numbers: &[u8], partitions: &[PartitionRow]) -> bool
    ensures { result ≡ list_all (λ n. spec.is_partition_at terminal n partitions.now) numbers.now }
{
    numbers
        .iter()
        .all(|n| is_partition_at(terminal, u16::from(*n), partitions))
}

/// Whether a terminal may go round in an order, where one is said.
fn order_fits(terminal: u16, order: &Option<ByteList>, partitions: &[PartitionRow]) -> bool
    ensures { result ≡ spec.order_fits terminal order.now partitions.now }
{
    match order {
        Some(numbers) => {
            is_order(numbers.bytes()) && all_stand_at(terminal, numbers.bytes(), partitions)
        }
        None => true,
    }
}

/// 15: each terminal may go round in its order.
pub fn all_orders_fit(terminals: &[TerminalRow], partitions: &[PartitionRow]) -> bool
    ensures { result ≡ spec.all_orders_fit terminals.now partitions.now }
{
    terminals
        .iter()
        .all(|t| order_fits(t.number, &t.order, partitions))
}

/// The partitions of a terminal.
fn partitions_at(terminal: u16, partitions: &[PartitionRow]) -> PartList
    requires few { length partitions.now ≤ 16 }
    requires numbers { list_all spec.is_numbered partitions.now ≡ true }
    ensures { result ≡ spec.partitions_at terminal partitions.now }
{
    let mut list = PartList::new();
    for p in partitions {
        if p.terminal == terminal {
            list.push(Part::known(p.number as u8));
        }
    }
    list
}

/// The partitions of these numbers.
fn parts_of(numbers: &[u8]) -> PartList
    requires few { length numbers.now ≤ 16 }
    requires numbers { list_all (is_between 1 16) numbers.now ≡ true }
    ensures { result ≡ numbers.now }
{
    let mut list = PartList::new();
    for n in numbers {
        list.push(Part::known(*n));
    }
    list
}

/// The order in which a terminal goes round: its partitions where none is said.
pub fn order_of(terminal: u16, order: &Option<ByteList>, partitions: &[PartitionRow]) -> PartList
    requires few { length partitions.now ≤ 16 }
    requires numbers { list_all spec.is_numbered partitions.now ≡ true }
    requires said { spec.may_be_order order.now ≡ true }
    ensures { result ≡ spec.order_of terminal order.now partitions.now }
{
    match order {
        Some(numbers) => parts_of(numbers.bytes()),
        None => partitions_at(terminal, partitions),
    }
}
