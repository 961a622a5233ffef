// The block of bytes that holds the variables, and the table of their places.
ghost use Rattle.std.specs.Prelude.{◌≡◌, ◌≤◌, ◌<◌, ◌+◌, ◌-◌, ◌*◌, ◌^◌, ℕ, List, [], ◌∷◌, ◌++◌, true, false, nat_lt, length, get_or, IfOk, IfSome, IsSome, None, is_some};
ghost use Rattle.std.specs.Borrow.{sem};
ghost use Rattle.std.specs.FinMap as map;
ghost use Rattle.std.specs.Fn.{FnOnceReturnsAtMut};
ghost use Rattle.b2_alpha.specs.Values.{padded};
ghost use Rattle.b2_dec.specs.Number.{zero_number};
ghost use Rattle.b2_vars.specs.Block.{StandsAt, place_of, state_of};
ghost use Rattle.b2_vars.specs.BlockLending.{LendsBytes};
ghost use Rattle.b2_vars.specs.Calls.{ChangesPart, common_only, with_variable, with_change, with_bytes_of};
ghost use Rattle.b2_base.specs.Lexical.{is_letter};
ghost use Rattle.b2_vars.specs.Names.{is_legal_name, scalar_named};
ghost use Rattle.b2_vars.specs.Shapes.{has_dimensions, has_length, size_of, cost, cells, overhead, number_cells};
ghost use Rattle.b2_vars.specs.Tables.{table_of, count_of, shape_at, variable_at, IsSound, IsVariable};
ghost use Rattle.b2_vars.specs.Variables.{fresh, bytes_from, with_number, with_bytes, reshaped};

use crate::entry::{
    common_at, item_at, number_of, number_of_scalar, part_at, read_number, shape_at,
};
use crate::keeping::keep_common;
use crate::name::Var;
use crate::shape::{Shape, alpha_bytes, cost, number_cells, overhead, size_of};
use crate::writing::{
    assign, change, close_up, fill, forget, lower, no_places, set_place, turn, write, write_head,
    write_number,
};
use b2_base::NoMemory;
use b2_dec::Dec;
use std::alloc::Global;
use std::marker::Model;

/// The most bytes that a block has: a place in it takes four bytes.
const MOST_AREA: usize = 4_294_967_295;

/// Variables in one block of bytes that is taken at the start, each an entry of its name, its shape and its values, and
/// beside it the place of each name. Contracts see the area and the entries in their order.
#[derive(Drop)]
pub struct Block {
    /// The entries, and after them the bytes that are free.
    bytes: Vec<u8>,
    /// How many bytes the entries take.
    used: usize,
    /// The place of each name's entry counted from 1, and 0 where it has none.
    places: Vec<u32>,
}

impl Model for Block {
    ghost use Rattle.std.specs.Prelude.{length};
    ghost use Rattle.b2_vars.specs.Block.{BlockState, coded_block, entries_in, IsLaid};

    ghost Value = { BlockState };

    ghost coded = { coded_block };

    ghost view = { λ b. record { area = length b.bytes.items; entries = entries_in b.used b.bytes.items } };

    ghost invariant = { λ b. IsLaid b.bytes.items b.used b.places.items (entries_in b.used b.bytes.items) };
}

impl Block {
    /// No entries, in an area of `area` bytes. Want of memory is the answer where the area is above 4,294,967,295 too.
    pub fn new(alloc: Global, area: usize) -> Result<Block, NoMemory>
        ensures { IfOk result (λ b. b ≡ record { area = area; entries = [] }) }
    {
        if area > MOST_AREA {
            return Err(NoMemory);
        }
        Ok(Block {
            bytes: vec![in alloc; 0; area]?,
            used: 0,
            places: no_places(alloc)?,
        })
    }

    /// How many bytes are free.
    pub fn free(&self) -> usize
        ensures free { result ≡ self.now.area - count_of (table_of self.now.entries) }
        ensures sound { IsSound self.now.area (count_of (table_of self.now.entries)) (table_of self.now.entries) }
    {
        self.bytes.len() - self.used
    }

    /// How many bytes the entries take.
    pub fn count(&self) -> usize
        ensures count { result ≡ count_of (table_of self.now.entries) }
        ensures fits { result ≤ self.now.area }
    {
        self.used
    }

    /// The place of a name's entry counted from 1, and 0 where it has none.
    #[inline(always)]
    pub fn place(&self, v: Var) -> usize
        requires { is_legal_name v ≡ true }
        ensures place { result ≡ place_of v self.now.entries }
        ensures there { nat_lt 0 result ≡ map.contains_key (table_of self.now.entries) v }
        ensures sound { IfSome (map.get (table_of self.now.entries) v) (IsVariable v) }
        ensures whole { IsSound self.now.area (count_of (table_of self.now.entries)) (table_of self.now.entries) }
    {
        item_at(&self.places, number_of(v))
    }

    /// The place of the entry of a numeric scalar, by its letter and its digit counted from 1, 0 where it has none.
    pub fn scalar_place(&self, letter: u8, digit: u8) -> usize
        requires letter { is_letter letter ≡ true }
        requires digit { digit ≤ 10 }
        ensures place { result ≡ place_of (scalar_named letter digit) self.now.entries }
        ensures there { nat_lt 0 result ≡ map.contains_key (table_of self.now.entries) (scalar_named letter digit) }
        ensures sound { IfSome (map.get (table_of self.now.entries) (scalar_named letter digit)) (IsVariable (scalar_named letter digit)) }
        ensures whole { IsSound self.now.area (count_of (table_of self.now.entries)) (table_of self.now.entries) }
    {
        item_at(&self.places, number_of_scalar(letter, digit))
    }

    /// The number of the numeric scalar at a place, whose name this is.
    pub fn scalar(&self, letter: u8, digit: u8, place: usize) -> Dec
        requires at { StandsAt (scalar_named letter digit) place self.now.entries }
        requires room { 0 < length (variable_at (scalar_named letter digit) (table_of self.now.entries)).numbers }
        ensures { result ≡ get_or (variable_at (scalar_named letter digit) (table_of self.now.entries)).numbers 0 zero_number }
    {
        read_number(&self.bytes, place + 3)
    }

    /// The place of a name under which a variable stands.
    #[inline(always)]
    pub fn known_place(&self, v: Var) -> usize
        requires { IsSome (map.get (table_of self.now.entries) v) }
        ensures at { StandsAt v result self.now.entries }
        ensures sound { IsVariable v (variable_at v (table_of self.now.entries)) }
    {
        item_at(&self.places, number_of(v))
    }

    /// The shape of the variable at a place.
    pub fn shape(&self, v: Var, place: usize) -> Shape
        requires { StandsAt v place self.now.entries }
        ensures shape { result ≡ shape_at v (table_of self.now.entries) }
        ensures sound { IsVariable v (variable_at v (table_of self.now.entries)) }
    {
        shape_at(v, &self.bytes, place - 1)
    }

    /// Whether the variable at a place is common.
    pub fn is_common(&self, v: Var, place: usize) -> bool
        requires { StandsAt v place self.now.entries }
        ensures { result ≡ (variable_at v (table_of self.now.entries)).common }
    {
        common_at(&self.bytes, place - 1)
    }

    /// The number at a place along the rows of the variable at a place.
    pub fn number(&self, v: Var, place: usize, cell: usize) -> Dec
        requires at { StandsAt v place self.now.entries }
        requires room { cell < length (variable_at v (table_of self.now.entries)).numbers }
        ensures { result ≡ get_or (variable_at v (table_of self.now.entries)).numbers cell zero_number }
    {
        read_number(&self.bytes, place - 1 + overhead(v) + cell * 8)
    }

    /// The bytes of all values of the variable at a place.
    pub fn bytes(&self, v: Var, place: usize) -> &[u8]
        requires { StandsAt v place self.now.entries }
        ensures { result.now ≡ (variable_at v (table_of self.now.entries)).bytes }
    {
        let shape = shape_at(v, &self.bytes, place - 1);
        let start = bytes_start(v, place, shape);
        part_at(&self.bytes, start, alpha_bytes(shape))
    }

    /// The `n` bytes after the first `from` of the variable at a place.
    pub fn part(&self, v: Var, place: usize, from: usize, n: usize) -> &[u8]
        requires at { StandsAt v place self.now.entries }
        requires room { from + n ≤ length (variable_at v (table_of self.now.entries)).bytes }
        ensures { result.now ≡ bytes_from from n (variable_at v (table_of self.now.entries)).bytes }
    {
        let shape = shape_at(v, &self.bytes, place - 1);
        let start = bytes_start(v, place, shape);
        part_at(&self.bytes, start + from, n)
    }

    /// Puts a number in its place in the variable at a place.
    pub fn set_number(&mut self, v: Var, place: usize, cell: usize, n: Dec)
        requires at { StandsAt v place self.old.entries }
        requires room { cell < length (variable_at v (table_of self.old.entries)).numbers }
        ensures { state_of self.new ≡ with_change v (with_number cell n) (state_of self.old) }
    {
        let _legal = n.is_zero();
        write_number(&mut self.bytes, place - 1 + overhead(v) + cell * 8, n);
    }

    /// Puts a number in its place in the numeric scalar at a place, whose name this is.
    pub fn set_scalar(&mut self, letter: u8, digit: u8, place: usize, n: Dec)
        requires at { StandsAt (scalar_named letter digit) place self.old.entries }
        requires room { 0 < length (variable_at (scalar_named letter digit) (table_of self.old.entries)).numbers }
        ensures { state_of self.new ≡ with_change (scalar_named letter digit) (with_number 0 n) (state_of self.old) }
    {
        let _legal = n.is_zero();
        write_number(&mut self.bytes, place + 3, n);
    }

    /// Overwrites the bytes after the first `from` of the variable at a place.
    pub fn write(&mut self, v: Var, place: usize, from: usize, bytes: &[u8])
        requires at { StandsAt v place self.old.entries }
        requires room { from + length bytes.now ≤ length (variable_at v (table_of self.old.entries)).bytes }
        ensures { state_of self.new ≡ with_bytes_of v from (state_of self.old) bytes.now }
    {
        let shape = shape_at(v, &self.bytes, place - 1);
        let start = bytes_start(v, place, shape);
        write(&mut self.bytes, start + from, bytes);
    }

    /// Assigns to the `n` bytes after the first `from` of the variable at a place: cut or padded with blanks.
    pub fn assign(&mut self, v: Var, place: usize, from: usize, n: usize, bytes: &[u8])
        requires at { StandsAt v place self.old.entries }
        requires room { from + n ≤ length (variable_at v (table_of self.old.entries)).bytes }
        ensures { state_of self.new ≡ with_bytes_of v from (state_of self.old) (padded n bytes.now) }
    {
        let shape = shape_at(v, &self.bytes, place - 1);
        let start = bytes_start(v, place, shape);
        assign(&mut self.bytes, start + from, n, bytes);
    }

    /// Hands the `n` bytes after the first `from` of the variable at a place to a closure, which may change them.
    pub fn change<F: FnOnce(&mut [u8])>(
        &mut self,
        v: Var,
        place: usize,
        from: usize,
        n: usize,
        f: F,
    )
        requires at { StandsAt v place self.old.entries }
        requires room { from + n ≤ length (variable_at v (table_of self.old.entries)).bytes }
        requires callable { F.IsAlwaysCallable f }
        ensures { ChangesPart (λ x y. FnOnceReturnsAtMut F.FnOnce f x tt y) v from n (state_of self.old) (state_of self.new) }
    {
        let shape = shape_at(v, &self.bytes, place - 1);
        let start = bytes_start(v, place, shape);
        change(&mut self.bytes, start + from, n, f);
    }

    /// The `n` bytes after the first `from` of the variable at a place, to be written. Its entry is moved after all others
    /// first, so that the bytes in use end where those of the variable end.
    pub fn part_mut(&mut self, v: Var, place: usize, from: usize, n: usize) -> &mut [u8]
        requires at { StandsAt v place self.old.entries }
        requires room { from + n ≤ length (variable_at v (table_of self.old.entries)).bytes }
        ensures* writes_back { sem 𝓛 (LendsBytes self.entry v from result) }
        ensures part { result.now ≡ bytes_from from n (variable_at v (table_of self.old.entries)).bytes }
    {
        let shape = shape_at(v, &self.bytes, place - 1);
        let size = cost(v, shape);
        turn(&mut self.bytes, place - 1, size, self.used);
        lower(&mut self.places, place as u32, size as u32);
        set_place(&mut self.places, number_of(v), self.used - size + 1);
        let start = self.used - alpha_bytes(shape) + from;
        let end = start + n;
        self.bytes.slice_mut(start..end)
    }

    /// Puts a new variable of zeros or blanks after the others.
    pub fn add(&mut self, v: Var, shape: Shape, common: bool)
        requires missing { map.get (table_of self.old.entries) v ≡ None }
        requires named { is_legal_name v ≡ true }
        requires dimensions { has_dimensions v shape ≡ true }
        requires value_length { has_length v shape ≡ true }
        requires room { count_of (table_of self.old.entries) + cost v shape ≤ self.old.area }
        ensures { state_of self.new ≡ with_variable v (fresh v shape common) (state_of self.old) }
    {
        let at = self.used;
        let values = at + overhead(v);
        let numbers = number_cells(v, shape) * 8;
        write_head(&mut self.bytes, at, v, shape, common);
        fill(&mut self.bytes, values, numbers, 0);
        fill(&mut self.bytes, values + numbers, alpha_bytes(shape), b' ');
        set_place(&mut self.places, number_of(v), at + 1);
        self.used = at + cost(v, shape);
    }

    /// Gives the variable at a place another shape that takes no more, and closes the block up.
    pub fn reshape(&mut self, v: Var, place: usize, shape: Shape)
        requires at { StandsAt v place self.old.entries }
        requires dimensions { has_dimensions v shape ≡ true }
        requires value_length { has_length v shape ≡ true }
        requires room { size_of v shape ≤ size_of v (shape_at v (table_of self.old.entries)) }
        ensures { state_of self.new ≡ with_change v (reshaped v shape) (state_of self.old) }
    {
        let at = place - 1;
        let old = shape_at(v, &self.bytes, at);
        let common = common_at(&self.bytes, at);
        let old_size = size_of(v, old);
        let new_size = size_of(v, shape);
        let gap = old_size - new_size;
        let old_end = at + cost(v, old);
        let new_end = at + cost(v, shape);
        write_head(&mut self.bytes, at, v, shape, common);
        close_up(&mut self.bytes, old_end, self.used, new_end);
        lower(&mut self.places, place as u32, gap as u32);
        self.used -= gap;
    }

    /// Keeps the common variables, and closes the block up in one pass.
    pub fn retain_common(&mut self)
        ensures { state_of self.new ≡ record { area = self.old.area; table = common_only (table_of self.old.entries) } }
    {
        let left = keep_common(&mut self.bytes, &mut self.places, self.used);
        self.used = left;
    }

    /// No entries are left.
    pub fn clear(&mut self)
        ensures { self.new ≡ record { area = self.old.area; entries = [] } }
    {
        forget(&mut self.places);
        self.used = 0;
    }
}

/// Where the bytes of a variable's values start.
fn bytes_start(v: Var, place: usize, shape: Shape) -> usize
    requires some { 1 ≤ place }
    requires low { place < 2 ^ 63 }
    ensures start { result ≡ place - 1 + overhead v + number_cells v shape * 8 }
    ensures small { result < 2 ^ 63 + 2 ^ 40 }
{
    place - 1 + overhead(v) + number_cells(v, shape) * 8
}
