// Ascending lists of the numbers of lines.
ghost use Rattle.std.specs.Prelude.{◌≡◌, ◌≤◌, ◌==◌, ℕ, false, true, length, slice_get, vec_capacity};
ghost use Rattle.std.specs.Option.{option_map_or};
ghost use Rattle.std.specs.List.Sorted.{IsStrictlySortedBy};
ghost use Rattle.std.specs.Ordering.{nat_cmp};
ghost use Rattle.b2_text.specs.Members.{IsRankOf, with_member, without_members};

use crate::packed::{put_in, take_out};

/// The place of a number in a list, where it is or would stand.
pub fn rank(numbers: &Vec<u16>, n: u32) -> usize
    requires { IsStrictlySortedBy nat_cmp numbers.now.items }
    ensures { IsRankOf n numbers.now.items result }
{
    numbers.partition_point(|number| u32::from(*number) < n)
}

/// Whether a number stands at a place of a list.
fn number_stands_at(numbers: &Vec<u16>, i: usize, n: u16) -> bool
    ensures { result ≡ option_map_or (λ m. m == n) (slice_get numbers.now.items i) false }
{
    match numbers.get(i) {
        Some(number) => *number == n,
        None => false,
    }
}

/// Puts a number into a list, in which it may stand already. There is room for it, so that no memory is taken.
fn add_member(numbers: &mut Vec<u16>, n: u16)
    requires ordered { IsStrictlySortedBy nat_cmp numbers.old.items }
    requires room { length (with_member true n numbers.old.items) ≤ vec_capacity numbers.old }
    ensures items { numbers.new.items ≡ with_member true n numbers.old.items }
    ensures capacity { vec_capacity numbers.old ≤ vec_capacity numbers.new }
{
    let i = rank(numbers, u32::from(n));
    if number_stands_at(numbers, i, n) {
        return;
    }
    put_in(numbers, i, &[n]);
}

/// Takes a number out of a list, in which it may not stand at all. The memory stays.
fn remove_member(numbers: &mut Vec<u16>, n: u16)
    requires { IsStrictlySortedBy nat_cmp numbers.old.items }
    ensures items { numbers.new.items ≡ with_member false n numbers.old.items }
    ensures capacity { vec_capacity numbers.old ≤ vec_capacity numbers.new }
{
    let i = rank(numbers, u32::from(n));
    if number_stands_at(numbers, i, n) {
        take_out(numbers, i, i + 1);
    }
}

/// Has a number stand in a list, or not. There is room for it, so that no memory is taken.
pub fn set_member(numbers: &mut Vec<u16>, n: u16, stands: bool)
    requires ordered { IsStrictlySortedBy nat_cmp numbers.old.items }
    requires room { length (with_member stands n numbers.old.items) ≤ vec_capacity numbers.old }
    ensures items { numbers.new.items ≡ with_member stands n numbers.old.items }
    ensures capacity { vec_capacity numbers.old ≤ vec_capacity numbers.new }
{
    if stands {
        add_member(numbers, n);
    } else {
        remove_member(numbers, n);
    }
}

/// Takes the numbers out of a list that stand from one to another. The memory stays.
pub fn take_members(numbers: &mut Vec<u16>, from: u16, to: u16)
    requires ordered { IsStrictlySortedBy nat_cmp numbers.old.items }
    requires order { from ≤ to }
    ensures items { numbers.new.items ≡ without_members from to numbers.old.items }
    ensures capacity { vec_capacity numbers.new ≡ vec_capacity numbers.old }
{
    let i = rank(numbers, u32::from(from));
    let j = rank(numbers, u32::from(to) + 1);
    take_out(numbers, i, j);
}
