// Rows of elements in memory that was taken before.
ghost use Rattle.std.specs.Prelude.{◌≡◌, ◌+◌, ◌≤◌, length, vec_len, vec_capacity};
ghost use Rattle.std.specs.List.{remove_range, splice};
ghost use Rattle.b2_text.specs.Packed.{with_part};

/// Writes elements over those from a place on.
fn write_slice<T: Copy>(row: &mut [T], at: usize, with: &[T])
    requires { at + length with.now ≤ length row.old }
    ensures { row.new ≡ with_part row.old at with.now }
{
    row[at..at + with.len()].copy_from_slice(with);
}

/// Writes elements over those from a place on.
fn write<T: Copy>(row: &mut Vec<T>, at: usize, with: &[T])
    requires { at + length with.now ≤ vec_len row.old }
    ensures items { row.new.items ≡ with_part row.old.items at with.now }
    ensures capacity { vec_capacity row.new ≡ vec_capacity row.old }
{
    write_slice(row, at, with);
}

/// Puts elements in at a place. There is room for them, so that no memory is taken.
pub fn put_in<T: Copy>(row: &mut Vec<T>, at: usize, with: &[T])
    requires place { at ≤ vec_len row.old }
    requires room { vec_len row.old + length with.now ≤ vec_capacity row.old }
    ensures items { row.new.items ≡ splice row.old.items at at with.now }
    ensures capacity { vec_capacity row.old ≤ vec_capacity row.new }
{
    let len = row.len();
    let _widened = row.extend_from_slice(with);
    row.copy_within(at..len, at + with.len());
    write(row, at, with);
}

/// Takes the elements out that stand from a place up to another. The memory stays.
pub fn take_out<T: Copy>(row: &mut Vec<T>, from: usize, to: usize)
    requires order { from ≤ to }
    requires within { to ≤ vec_len row.old }
    ensures items { row.new.items ≡ remove_range row.old.items from to }
    ensures capacity { vec_capacity row.new ≡ vec_capacity row.old }
{
    let len = row.len();
    row.copy_within(to..len, from);
    row.truncate(len - (to - from));
}
