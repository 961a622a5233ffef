// Writing into a block of bytes, and into the table of places.
ghost use Rattle.std.specs.Prelude.{◌≡◌, ◌≤◌, ◌<◌, ◌+◌, ◌-◌, ℕ, List, ◌++◌, map, length, take, drop, replicate, slice_set, IfOk};
ghost use Rattle.std.specs.List.{copy_within};
ghost use Rattle.std.specs.Fn.{FnOnceReturnsAtMut};
ghost use Rattle.b2_alpha.specs.Values.{padded};
ghost use Rattle.b2_dec.specs.Packing.{packed};
ghost use Rattle.b2_vars.specs.Block.{names, head_bytes, dimension_bytes, lowered};
ghost use Rattle.b2_vars.specs.Shapes.{overhead};
ghost use Rattle.b2_vars.specs.Variables.{overwritten, bytes_from};

use crate::entry::{NAMES, name_bytes, two_bytes};
use crate::name::Var;
use crate::shape::Shape;
use b2_base::NoMemory;
use b2_dec::{Dec, pack};
use std::alloc::Global;

/// Overwrites the bytes from a place on.
#[tactic(auto, using(crate::proofs::Overwriting::vec_whole, crate::proofs::Overwriting::length_overwritten))]
pub fn write(all: &mut Vec<u8>, at: usize, bytes: &[u8])
    requires { at + length bytes.now ≤ length all.old.items }
    ensures { all.new.items ≡ overwritten at bytes.now all.old.items }
{
    write_in(all, at, bytes);
}

/// Writes one byte `n` times from a place on.
#[tactic(auto, using(crate::proofs::Overwriting::vec_whole, crate::proofs::Overwriting::length_overwritten))]
pub fn fill(all: &mut Vec<u8>, at: usize, n: usize, byte: u8)
    requires { at + n ≤ length all.old.items }
    ensures { all.new.items ≡ overwritten at (replicate n byte) all.old.items }
{
    fill_in(all, at, n, byte);
}

/// Assigns to the `n` bytes from a place on: cut or padded with blanks.
#[tactic(auto, using(crate::proofs::Overwriting::vec_whole, crate::proofs::Overwriting::length_overwritten))]
pub fn assign(all: &mut Vec<u8>, at: usize, n: usize, bytes: &[u8])
    requires { at + n ≤ length all.old.items }
    ensures { all.new.items ≡ overwritten at (padded n bytes.now) all.old.items }
{
    assign_in(all, at, n, bytes);
}

/// Hands the `n` bytes from a place on to a closure, which may change them.
#[tactic(auto, using(crate::proofs::Overwriting::vec_whole, crate::proofs::Overwriting::length_overwritten))]
pub fn change<F: FnOnce(&mut [u8])>(all: &mut Vec<u8>, at: usize, n: usize, f: F)
    requires room { at + n ≤ length all.old.items }
    requires callable { F.IsAlwaysCallable f }
    ensures { (y : List ℕ) × (length y ≡ n) × FnOnceReturnsAtMut F.FnOnce f (bytes_from at n all.old.items) tt y × (all.new.items ≡ overwritten at y all.old.items) }
{
    change_in(all, at, n, f);
}

/// Writes a number in the eight bytes from a place on.
#[tactic(auto, using(crate::proofs::Overwriting::vec_whole, crate::proofs::Overwriting::length_overwritten))]
pub fn write_number(all: &mut Vec<u8>, at: usize, n: Dec)
    requires { at + 8 ≤ length all.old.items }
    ensures { all.new.items ≡ overwritten at (packed n) all.old.items }
{
    write_number_in(all, at, n);
}

/// Writes what stands before the values of an entry.
#[tactic(auto, using(crate::proofs::Overwriting::vec_whole, crate::proofs::Overwriting::length_overwritten))]
pub fn write_head(all: &mut Vec<u8>, at: usize, v: Var, shape: Shape, common: bool)
    requires { at + overhead v ≤ length all.old.items }
    ensures { all.new.items ≡ overwritten at (head_bytes v shape common) all.old.items }
{
    write_head_in(all, at, v, shape, common);
}

/// Moves the bytes from a place up to an end to a lower place.
#[tactic(auto, using(crate::proofs::Overwriting::vec_whole, crate::proofs::Overwriting::length_overwritten))]
pub fn close_up(all: &mut Vec<u8>, from: usize, end: usize, to: usize)
    requires order { to ≤ from }
    requires span { from ≤ end }
    requires room { end ≤ length all.old.items }
    ensures { all.new.items ≡ copy_within all.old.items from end to }
{
    close_up_in(all, from, end, to);
}

/// Puts the first `n` of the bytes from a place up to an end after the others.
#[tactic(auto, using(crate::proofs::Overwriting::vec_whole, crate::proofs::Overwriting::length_overwritten))]
pub fn turn(all: &mut Vec<u8>, at: usize, n: usize, end: usize)
    requires span { at + n ≤ end }
    requires room { end ≤ length all.old.items }
    ensures { all.new.items ≡ take at all.old.items ++ (drop n (take (end - at) (drop at all.old.items)) ++ (take n (take (end - at) (drop at all.old.items)) ++ drop end all.old.items)) }
{
    turn_in(all, at, n, end);
}

fn write_in(all: &mut [u8], at: usize, bytes: &[u8])
    requires { at + length bytes.now ≤ length all.old }
    ensures { all.new ≡ overwritten at bytes.now all.old }
{
    all[at..at + bytes.len()].copy_from_slice(bytes);
}

fn fill_in(all: &mut [u8], at: usize, n: usize, byte: u8)
    requires { at + n ≤ length all.old }
    ensures { all.new ≡ overwritten at (replicate n byte) all.old }
{
    all[at..at + n].fill(byte);
}

fn assign_in(all: &mut [u8], at: usize, n: usize, bytes: &[u8])
    requires { at + n ≤ length all.old }
    ensures { all.new ≡ overwritten at (padded n bytes.now) all.old }
{
    b2_alpha::assign(&mut all[at..at + n], bytes);
}

fn change_in<F: FnOnce(&mut [u8])>(all: &mut [u8], at: usize, n: usize, f: F)
    requires room { at + n ≤ length all.old }
    requires callable { F.IsAlwaysCallable f }
    ensures { (y : List ℕ) × (length y ≡ n) × FnOnceReturnsAtMut F.FnOnce f (bytes_from at n all.old) tt y × (all.new ≡ overwritten at y all.old) }
{
    f(&mut all[at..at + n]);
}

fn write_number_in(all: &mut [u8], at: usize, n: Dec)
    requires { at + 8 ≤ length all.old }
    ensures { all.new ≡ overwritten at (packed n) all.old }
{
    write_in(all, at, &pack(n));
}

fn write_head_in(all: &mut [u8], at: usize, v: Var, shape: Shape, common: bool)
    requires { at + overhead v ≤ length all.old }
    ensures { all.new ≡ overwritten at (head_bytes v shape common) all.old }
{
    write_in(all, at, &name_bytes(v, common));
    if v.alpha {
        write_in(all, at + 4, &[shape.len]);
        write_dimensions(all, at + 5, v, shape);
    } else {
        write_dimensions(all, at + 4, v, shape);
    }
}

/// Writes the dimensions of an array.
fn write_dimensions(all: &mut [u8], at: usize, v: Var, shape: Shape)
    requires { at + length (dimension_bytes v shape) ≤ length all.old }
    ensures { all.new ≡ overwritten at (dimension_bytes v shape) all.old }
{
    if v.array {
        write_in(all, at, &two_bytes(shape.rows));
        write_in(all, at + 2, &two_bytes(shape.cols));
    }
}

fn close_up_in(all: &mut [u8], from: usize, end: usize, to: usize)
    requires order { to ≤ from }
    requires span { from ≤ end }
    requires room { end ≤ length all.old }
    ensures { all.new ≡ copy_within all.old from end to }
{
    all.copy_within(from..end, to);
}

fn turn_in(all: &mut [u8], at: usize, n: usize, end: usize)
    requires span { at + n ≤ end }
    requires room { end ≤ length all.old }
    ensures { all.new ≡ take at all.old ++ (drop n (take (end - at) (drop at all.old)) ++ (take n (take (end - at) (drop at all.old)) ++ drop end all.old)) }
{
    all[at..end].rotate_left(n);
}

/// Lowers each place past another.
pub fn lower(places: &mut Vec<u32>, past: u32, by: u32)
    ensures { places.new.items ≡ map (lowered past by) places.old.items }
{
    lower_in(places, past, by);
}

fn lower_in(places: &mut [u32], past: u32, by: u32)
    ensures { places.new ≡ map (lowered past by) places.old }
{
    for i in 0..places.len() {
        places[i] = lowered(past, by, places[i]);
    }
}

/// A place past another, lower by as many bytes.
fn lowered(past: u32, by: u32, place: u32) -> u32
    ensures { result ≡ lowered past by place }
{
    if place > past {
        place.saturating_sub(by)
    } else {
        place
    }
}

/// Puts a place under a number.
pub fn set_place(places: &mut Vec<u32>, n: usize, place: usize)
    requires named { n < length places.old.items }
    requires small { place ≤ 4294967295 }
    ensures { places.new.items ≡ slice_set places.old.items n place }
{
    places[n] = place as u32;
}

/// The places of names that stand nowhere.
pub fn no_places(alloc: Global) -> Result<Vec<u32>, NoMemory>
    ensures { IfOk result (λ places. places.items ≡ replicate names 0) }
{
    Ok(vec![in alloc; 0; NAMES]?)
}

/// No name stands anywhere any more.
pub fn forget(places: &mut Vec<u32>)
    ensures { places.new.items ≡ replicate (length places.old.items) 0 }
{
    places.fill(0);
}
