// A partition's variables.
ghost use Rattle.std.specs.Prelude.{◌≡◌, ◌≤◌, ◌<◌, ◌+◌, ◌*◌, ◌^◌, true, false, not, is_some, length, IsSome, IfSome, IfOk, OnOk, OnErr, Some, None, Ok};
ghost use Rattle.std.specs.Borrow.{sem};
ghost use Rattle.std.specs.FinMap as map;
ghost use Rattle.std.specs.Fn.{FnOnceReturnsAtMut};
ghost use Rattle.std.specs.Option.{option_map};
ghost use Rattle.b2_vars.specs.Answers.{Answers};
ghost use Rattle.b2_vars.specs.Calls.{ChangesPart, IsPart, IsCell, full, no_array, get_code, set_code, part_code, dim_code, com_code, redim_code, missing_code, with_new, with_scalar, with_change, with_bytes_of, part_place, common_only};
ghost use Rattle.b2_base.specs.Lexical.{is_letter};
ghost use Rattle.b2_vars.specs.Names.{is_legal_name, scalar_named};
ghost use Rattle.b2_vars.specs.Shapes.{has_dimensions, has_length, cell_at, size_of, alpha_bytes};
ghost use Rattle.b2_vars.specs.Tables.{count_of, shape_at, variable_at, IsVariable};
ghost use Rattle.b2_vars.specs.Variables.{VariableState, fresh, value_at, number_at, alpha_at, is_alpha, bytes_from, with_number, with_alpha, with_value, reshaped};
ghost use Rattle.b2_vars.specs.VarsLending.{LendsPart, LendsAll};

use crate::block::Block;
use crate::checks;
use crate::name::{Var, scalar_named};
use crate::shape::{Shape, alpha_bytes, cell_at, cost, scalar_shape};
use b2_base::codes::{A02_DATA_AREA, P59_NO_ARRAY};
use b2_base::{Code, NoMemory};
use b2_dec::{Bytes, Dec, Value};
use std::alloc::Global;
use std::marker::Model;

/// The blanks of an alpha scalar that was never set.
const BLANKS: [u8; 16] = [b' '; 16];

/// Variables within an area of bytes. Contracts see the area, and a finite map from names to shapes and values.
#[derive(Drop)]
pub struct Vars {
    block: Block,
}

impl Model for Vars {
    ghost use Rattle.b2_vars.specs.Block.{state_of};
    ghost use Rattle.b2_vars.specs.Tables.{VarsState, coded_vars};

    ghost Value = { VarsState };

    ghost coded = { coded_vars };

    ghost view = { λ v. state_of v.block };
}

impl Vars {
    /// No variables, in an area of `area` bytes. It takes all the memory that they ever use, and answers want of it where the
    /// area is above 4,294,967,295 too.
    pub fn new(alloc: Global, area: usize) -> Result<Vars, NoMemory>
        ensures { IfOk result (λ v. v ≡ record { area = area; table = map.empty }) }
    {
        Ok(Vars {
            block: Block::new(alloc, area)?,
        })
    }

    /// The shape of a variable, None where nothing stands under the name.
    pub fn shape(&self, v: Var) -> Option<Shape>
        requires { is_legal_name v ≡ true }
        ensures shape { result ≡ option_map (λ (x : VariableState). x.shape) (map.get self.now.table v) }
        ensures sound { IfSome (map.get self.now.table v) (IsVariable v) }
    {
        let place = self.block.place(v);
        if place == 0 {
            return None;
        }
        Some(self.block.shape(v, place))
    }

    /// What the variables take, at most the area.
    pub fn count(&self) -> usize
        ensures count { result ≡ count_of self.now.table }
        ensures fits { result ≤ self.now.area }
    {
        self.block.count()
    }

    /// A value. A scalar that was never set is zero or 16 blanks. P59 and P57 come in this order, each exactly where the
    /// array isn't there or has no such element.
    pub fn get(&self, v: Var, r: u16, c: u16) -> Result<Value, Code>
        requires { is_legal_name v ≡ true }
        ensures value { IfOk result (λ x. x ≡ value_at v (cell_at (shape_at v self.now.table) r c) (map.get self.now.table v)) }
        ensures code { Answers (get_code v r c self.now.table) result }
    {
        if !v.alpha {
            return Ok(Value::Number(self.number(v, r, c)?));
        }
        let mut bytes = Bytes::new();
        bytes.extend(self.alpha(v, r, c)?);
        Ok(Value::Alpha(bytes))
    }

    /// A number, as `get`.
    pub fn number(&self, v: Var, r: u16, c: u16) -> Result<Dec, Code>
        requires named { is_legal_name v ≡ true }
        requires number { v.alpha ≡ false }
        ensures value { IfOk result (λ x. x ≡ number_at (cell_at (shape_at v self.now.table) r c) (map.get self.now.table v)) }
        ensures code { Answers (get_code v r c self.now.table) result }
    {
        let place = self.block.place(v);
        if place == 0 {
            checks::cell_of(&self.block, v, r, c)?;
            return Ok(Dec::zero());
        }
        let cell = checks::cell_in(&self.block, v, place, r, c)?;
        Ok(self.block.number(v, place, cell))
    }

    /// The number of a numeric scalar, by its letter and its digit counted from 1, 0 where it has none.
    pub fn scalar(&self, letter: u8, digit: u8) -> Dec
        requires letter { is_letter letter ≡ true }
        requires digit { digit ≤ 10 }
        ensures value { result ≡ number_at (cell_at (shape_at (scalar_named letter digit) self.now.table) 0 0) (map.get self.now.table (scalar_named letter digit)) }
        ensures there { get_code (scalar_named letter digit) 0 0 self.now.table ≡ None }
    {
        let place = self.block.scalar_place(letter, digit);
        if place == 0 {
            return Dec::zero();
        }
        self.block.scalar(letter, digit, place)
    }

    /// The bytes of an alpha value, as `get`.
    pub fn alpha(&self, v: Var, r: u16, c: u16) -> Result<&[u8], Code>
        requires named { is_legal_name v ≡ true }
        requires alpha { v.alpha ≡ true }
        ensures value { IfOk result (λ x. x.now ≡ alpha_at (cell_at (shape_at v self.now.table) r c) (map.get self.now.table v)) }
        ensures short { IfOk result (λ x. length x.now ≤ 124) }
        ensures code { Answers (get_code v r c self.now.table) result }
    {
        let place = self.block.place(v);
        if place == 0 {
            checks::cell_of(&self.block, v, r, c)?;
            return Ok(&BLANKS);
        }
        let cell = checks::cell_in(&self.block, v, place, r, c)?;
        let len = usize::from(self.block.shape(v, place).len);
        Ok(self.block.part(v, place, cell * len, len))
    }

    /// Assigns a value of the variable's kind: bytes are cut to the variable's length or padded with blanks. A scalar that
    /// isn't there is made first. P59, P57 and A02 come in this order, each exactly where the array isn't there, it has no
    /// such element, or the new scalar would take the count past the area. After an error all is as before.
    pub fn set(&mut self, v: Var, r: u16, c: u16, x: &Value) -> Result<(), Code>
        requires named { is_legal_name v ≡ true }
        requires kind { is_alpha x.now ≡ v.alpha }
        ensures ok { OnOk result (self.new ≡ with_change v (with_value (cell_at (shape_at v self.old.table) r c) x.now) (with_scalar v self.old)) }
        ensures code { Answers (set_code v r c self.old) result }
        ensures err { OnErr result (self.new ≡ self.old) }
    {
        match x {
            Value::Number(n) => self.set_number(v, r, c, *n),
            Value::Alpha(bytes) => self.set_alpha(v, r, c, bytes.bytes()),
        }
    }

    /// Assigns a number, as `set`.
    pub fn set_number(&mut self, v: Var, r: u16, c: u16, n: Dec) -> Result<(), Code>
        requires named { is_legal_name v ≡ true }
        requires number { v.alpha ≡ false }
        ensures ok { OnOk result (self.new ≡ with_change v (with_number (cell_at (shape_at v self.old.table) r c) n) (with_scalar v self.old)) }
        ensures code { Answers (set_code v r c self.old) result }
        ensures err { OnErr result (self.new ≡ self.old) }
    {
        let place = self.block.place(v);
        if place == 0 {
            return self.set_new_number(v, r, c, n);
        }
        let cell = checks::cell_in(&self.block, v, place, r, c)?;
        self.block.set_number(v, place, cell, n);
        Ok(())
    }

    /// Assigns a number to a numeric scalar, by its letter and its digit counted from 1, 0 where it has none. A scalar that
    /// isn't there is made first. Whether there was room for that; else all is as before.
    pub fn set_scalar(&mut self, letter: u8, digit: u8, n: Dec) -> bool
        requires letter { is_letter letter ≡ true }
        requires digit { digit ≤ 10 }
        ensures set { result ≡ true → self.new ≡ with_change (scalar_named letter digit) (with_number (cell_at (shape_at (scalar_named letter digit) self.old.table) 0 0) n) (with_scalar (scalar_named letter digit) self.old) }
        ensures room { result ≡ not (is_some (set_code (scalar_named letter digit) 0 0 self.old)) }
        ensures unchanged { result ≡ false → self.new ≡ self.old }
    {
        let place = self.block.scalar_place(letter, digit);
        if place == 0 {
            return self.set_new_scalar(letter, digit, n);
        }
        self.block.set_scalar(letter, digit, place, n);
        true
    }

    /// Reaches a value, as `get`, and doesn't read it.
    pub fn reach_value(&self, v: Var, r: u16, c: u16) -> Result<(), Code>
        requires { is_legal_name v ≡ true }
        ensures { Answers (get_code v r c self.now.table) result }
    {
        let _place = self.block.place(v);
        checks::require_value(&self.block, v, r, c)
    }

    /// Assigns bytes to an alpha value, as `set`.
    pub fn set_alpha(&mut self, v: Var, r: u16, c: u16, bytes: &[u8]) -> Result<(), Code>
        requires named { is_legal_name v ≡ true }
        requires alpha { v.alpha ≡ true }
        ensures ok { OnOk result (self.new ≡ with_change v (with_alpha (cell_at (shape_at v self.old.table) r c) bytes.now) (with_scalar v self.old)) }
        ensures code { Answers (set_code v r c self.old) result }
        ensures err { OnErr result (self.new ≡ self.old) }
    {
        let cell = self.reach(v, r, c)?;
        self.put_alpha(v, cell, bytes);
        Ok(())
    }

    /// Reaches a part of an alpha value, `n` bytes after its first `from`. This is the test that `part_mut`, `set_part` and
    /// `change_part` want passed, and a scalar that isn't there is made. P59, P57, P34 and A02 come in this order, each
    /// exactly where the array isn't there, it has no such element, the value has no such part, or the new scalar would
    /// take the count past the area. After an error all is as before.
    pub fn reach_part(&mut self, v: Var, r: u16, c: u16, from: usize, n: usize) -> Result<(), Code>
        requires { is_legal_name v ≡ true }
        ensures ok { OnOk result (self.new ≡ with_scalar v self.old) }
        ensures part { OnOk result (IsPart v r c from n self.new.table) }
        ensures code { Answers (part_code v r c from n self.old) result }
        ensures err { OnErr result (self.new ≡ self.old) }
    {
        let _cell = checks::cell_of(&self.block, v, r, c)?;
        checks::require_part(&self.block, v, from, n)?;
        self.make_scalar(v)
    }

    /// A part of an alpha value, to be written.
    pub fn part_mut(&mut self, v: Var, r: u16, c: u16, from: usize, n: usize) -> &mut [u8]
        requires { IsPart v r c from n self.old.table }
        ensures* writes_back { sem 𝓛 (LendsPart self.entry v r c from result) }
        ensures part { result.now ≡ bytes_from (part_place v r c from self.old.table) n (variable_at v self.old.table).bytes }
    {
        let at = self.part_place(v, r, c, from);
        let place = self.block.known_place(v);
        self.block.part_mut(v, place, at, n)
    }

    /// Puts bytes into a part of an alpha value. Nothing else changes.
    pub fn set_part(&mut self, v: Var, r: u16, c: u16, from: usize, bytes: &[u8])
        requires { IsPart v r c from (length bytes.now) self.old.table }
        ensures { self.new ≡ with_bytes_of v (part_place v r c from self.old.table) self.old bytes.now }
    {
        let at = self.part_place(v, r, c, from);
        let place = self.block.known_place(v);
        self.block.write(v, place, at, bytes);
    }

    /// Hands a part of an alpha value to a closure, which may change it. Nothing else changes.
    pub fn change_part<F: FnOnce(&mut [u8])>(
        &mut self,
        v: Var,
        r: u16,
        c: u16,
        from: usize,
        n: usize,
        change: F,
    )
        requires part { IsPart v r c from n self.old.table }
        requires callable { F.IsAlwaysCallable change }
        ensures { ChangesPart (λ x y. FnOnceReturnsAtMut F.FnOnce change x tt y) v (part_place v r c from self.old.table) n self.old self.new }
    {
        let at = self.part_place(v, r, c, from);
        let place = self.block.known_place(v);
        self.block.change(v, place, at, n, change);
    }

    /// The bytes of all values of an alpha array, along rows. P59 comes exactly where nothing stands under the name.
    pub fn all(&self, v: Var) -> Result<&[u8], Code>
        requires { is_legal_name v ≡ true }
        ensures value { IfOk result (λ x. x.now ≡ (variable_at v self.now.table).bytes) }
        ensures long { IfOk result (λ x. length x.now ≡ alpha_bytes (shape_at v self.now.table)) }
        ensures code { Answers (missing_code v self.now.table) result }
    {
        let place = self.block.place(v);
        if place == 0 {
            return Err(Code::known(P59_NO_ARRAY));
        }
        Ok(self.block.bytes(v, place))
    }

    /// Reaches all values of a variable, the test that `all_mut` and `change_all` want passed. P59 comes exactly where
    /// nothing stands under the name.
    pub fn reach_all(&self, v: Var) -> Result<(), Code>
        requires { is_legal_name v ≡ true }
        ensures there { OnOk result (IsSome (map.get self.now.table v)) }
        ensures code { Answers (missing_code v self.now.table) result }
    {
        checks::require_variable(&self.block, v)
    }

    /// The bytes of all values of an alpha array, along rows, to be written.
    pub fn all_mut(&mut self, v: Var) -> &mut [u8]
        requires { IsSome (map.get self.old.table v) }
        ensures* writes_back { sem 𝓛 (LendsAll self.entry v result) }
        ensures all { result.now ≡ (variable_at v self.old.table).bytes }
    {
        let place = self.block.known_place(v);
        let n = alpha_bytes(self.block.shape(v, place));
        self.block.part_mut(v, place, 0, n)
    }

    /// Hands the bytes of all values of an alpha array to a closure, which may change them. Nothing else changes.
    pub fn change_all<F: FnOnce(&mut [u8])>(&mut self, v: Var, change: F)
        requires there { IsSome (map.get self.old.table v) }
        requires callable { F.IsAlwaysCallable change }
        ensures { ChangesPart (λ x y. FnOnceReturnsAtMut F.FnOnce change x tt y) v 0 (length (variable_at v self.old.table).bytes) self.old self.new }
    {
        let place = self.block.known_place(v);
        let n = alpha_bytes(self.block.shape(v, place));
        self.block.change(v, place, 0, n, change);
    }

    /// Makes a variable that isn't common, of zeros or blanks. Where it is there in the same shape, nothing happens. P50,
    /// P53, P55 and A02 come in this order, each exactly where the name can't have these dimensions or this length, it is
    /// there in another shape, or the count would pass the area. After an error all is as before.
    pub fn dim(&mut self, v: Var, shape: Shape) -> Result<(), Code>
        requires { is_legal_name v ≡ true }
        ensures ok { OnOk result (self.new ≡ record self.old { table = with_new v shape false self.old.table }) }
        ensures code { Answers (dim_code v shape self.old) result }
        ensures err { OnErr result (self.new ≡ self.old) }
    {
        checks::require_allowed(v, shape)?;
        checks::require_shape(&self.block, v, shape)?;
        self.make(v, shape, false)
    }

    /// Makes a common variable, as `dim`; P56, before P55, comes exactly where it is there and not common.
    pub fn com(&mut self, v: Var, shape: Shape) -> Result<(), Code>
        requires { is_legal_name v ≡ true }
        ensures ok { OnOk result (self.new ≡ record self.old { table = with_new v shape true self.old.table }) }
        ensures code { Answers (com_code v shape self.old) result }
        ensures err { OnErr result (self.new ≡ self.old) }
    {
        checks::require_allowed(v, shape)?;
        checks::require_common(&self.block, v)?;
        checks::require_shape(&self.block, v, shape)?;
        self.make(v, shape, true)
    }

    /// Gives a variable another shape: its values stay along rows, and what the shape has no room for goes. P59, P50, P53
    /// and P55 come in this order, each exactly where nothing stands under the name, it can't have these dimensions or this
    /// length, or the shape takes more than the variable has. After an error all is as before.
    pub fn redim(&mut self, v: Var, shape: Shape) -> Result<(), Code>
        requires { is_legal_name v ≡ true }
        ensures ok { OnOk result (self.new ≡ with_change v (reshaped v shape) self.old) }
        ensures code { Answers (redim_code v shape self.old.table) result }
        ensures err { OnErr result (self.new ≡ self.old) }
    {
        checks::require_variable(&self.block, v)?;
        checks::require_allowed(v, shape)?;
        checks::require_room(&self.block, v, shape)?;
        self.reshape(v, shape);
        Ok(())
    }

    /// No variables are left.
    pub fn clear(&mut self)
        ensures { self.new ≡ record self.old { table = map.empty } }
    {
        self.block.clear();
    }

    /// Only the common variables are left.
    pub fn clear_non_common(&mut self)
        ensures { self.new ≡ record self.old { table = common_only self.old.table } }
    {
        self.block.retain_common();
    }

    /// Reaches a value, whose place along rows it gives; a scalar that isn't there is made.
    fn reach(&mut self, v: Var, r: u16, c: u16) -> Result<usize, Code>
        requires { is_legal_name v ≡ true }
        ensures place { IfOk result (λ cell. cell ≡ cell_at (shape_at v self.old.table) r c) }
        ensures ok { OnOk result (self.new ≡ with_scalar v self.old) }
        ensures there { IfOk result (λ cell. IsCell v cell self.new.table) }
        ensures code { Answers (set_code v r c self.old) result }
        ensures err { OnErr result (self.new ≡ self.old) }
    {
        let cell = checks::cell_of(&self.block, v, r, c)?;
        self.make_scalar(v)?;
        Ok(cell)
    }

    /// Where a part stands among the bytes of its variable.
    #[inline(always)]
    fn part_place(&self, v: Var, r: u16, c: u16, from: usize) -> usize
        requires { IsPart v r c from 0 self.now.table }
        ensures place { result ≡ part_place v r c from self.now.table }
        ensures small { result < 2 ^ 63 }
    {
        let place = self.block.known_place(v);
        let shape = self.block.shape(v, place);
        cell_at(shape, r, c) * usize::from(shape.len) + from
    }

    /// Assigns a number to a variable that may not be there.
    fn set_new_number(&mut self, v: Var, r: u16, c: u16, n: Dec) -> Result<(), Code>
        requires named { is_legal_name v ≡ true }
        requires number { v.alpha ≡ false }
        ensures ok { OnOk result (self.new ≡ with_change v (with_number (cell_at (shape_at v self.old.table) r c) n) (with_scalar v self.old)) }
        ensures code { Answers (set_code v r c self.old) result }
        ensures err { OnErr result (self.new ≡ self.old) }
    {
        let cell = self.reach(v, r, c)?;
        self.put_number(v, cell, n);
        Ok(())
    }

    /// Assigns a number to a numeric scalar that may not be there.
    fn set_new_scalar(&mut self, letter: u8, digit: u8, n: Dec) -> bool
        requires letter { is_letter letter ≡ true }
        requires digit { digit ≤ 10 }
        ensures set { result ≡ true → self.new ≡ with_change (scalar_named letter digit) (with_number (cell_at (shape_at (scalar_named letter digit) self.old.table) 0 0) n) (with_scalar (scalar_named letter digit) self.old) }
        ensures room { result ≡ not (is_some (set_code (scalar_named letter digit) 0 0 self.old)) }
        ensures unchanged { result ≡ false → self.new ≡ self.old }
    {
        match self.set_new_number(scalar_named(letter, digit), 0, 0, n) {
            Ok(()) => true,
            Err(_) => false,
        }
    }

    /// Puts a number in its place.
    fn put_number(&mut self, v: Var, cell: usize, n: Dec)
        requires number { v.alpha ≡ false }
        requires there { IsCell v cell self.old.table }
        ensures { self.new ≡ with_change v (with_number cell n) self.old }
    {
        let place = self.block.known_place(v);
        self.block.set_number(v, place, cell, n);
    }

    /// Assigns to the alpha value at a place.
    fn put_alpha(&mut self, v: Var, cell: usize, bytes: &[u8])
        requires { IsCell v cell self.old.table }
        ensures { self.new ≡ with_change v (with_alpha cell bytes.now) self.old }
    {
        let place = self.block.known_place(v);
        let len = usize::from(self.block.shape(v, place).len);
        self.block.assign(v, place, cell * len, len, bytes);
    }

    /// Gives a variable another shape that takes no more.
    fn reshape(&mut self, v: Var, shape: Shape)
        requires there { IsSome (map.get self.old.table v) }
        requires dimensions { has_dimensions v shape ≡ true }
        requires value_length { has_length v shape ≡ true }
        requires room { size_of v shape ≤ size_of v (shape_at v self.old.table) }
        ensures { self.new ≡ with_change v (reshaped v shape) self.old }
    {
        let place = self.block.known_place(v);
        self.block.reshape(v, place, shape);
    }

    /// Makes a scalar that isn't there.
    #[inline(always)]
    fn make_scalar(&mut self, v: Var) -> Result<(), Code>
        requires named { is_legal_name v ≡ true }
        requires array { no_array v self.old.table ≡ None }
        ensures ok { OnOk result (self.new ≡ with_scalar v self.old) }
        ensures there { OnOk result (IsSome (map.get self.new.table v)) }
        ensures code { Answers (full self.old.area (with_scalar v self.old).table) result }
        ensures err { OnErr result (self.new ≡ self.old) }
    {
        self.make(v, scalar_shape(v), false)
    }

    /// Makes a variable of zeros or blanks, where nothing stands under the name. A02 comes exactly where the count would
    /// pass the area.
    fn make(&mut self, v: Var, shape: Shape, common: bool) -> Result<(), Code>
        requires named { is_legal_name v ≡ true }
        requires allowed { map.get self.old.table v ≡ None → (has_dimensions v shape ≡ true) × (has_length v shape ≡ true) }
        ensures ok { OnOk result (self.new ≡ record self.old { table = with_new v shape common self.old.table }) }
        ensures there { OnOk result (IsSome (map.get self.new.table v)) }
        ensures code { Answers (full self.old.area (with_new v shape common self.old.table)) result }
        ensures err { OnErr result (self.new ≡ self.old) }
    {
        if self.block.place(v) > 0 {
            return Ok(());
        }
        self.add(v, shape, common)
    }

    /// Puts a new variable of zeros or blanks under its name.
    fn add(&mut self, v: Var, shape: Shape, common: bool) -> Result<(), Code>
        requires missing { map.get self.old.table v ≡ None }
        requires named { is_legal_name v ≡ true }
        requires dimensions { has_dimensions v shape ≡ true }
        requires value_length { has_length v shape ≡ true }
        ensures ok { OnOk result (self.new ≡ record self.old { table = map.insert self.old.table v (fresh v shape common) }) }
        ensures there { OnOk result (IsSome (map.get self.new.table v)) }
        ensures code { Answers (full self.old.area (map.insert self.old.table v (fresh v shape common))) result }
        ensures err { OnErr result (self.new ≡ self.old) }
    {
        if cost(v, shape) > self.block.free() {
            return Err(Code::known(A02_DATA_AREA));
        }
        self.block.add(v, shape, common);
        Ok(())
    }
}
