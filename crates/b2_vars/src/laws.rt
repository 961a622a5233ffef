//! Laws of the definitions that this crate's contracts cite. Each call does nothing: its contract is the law.
ghost use Rattle.std.specs.Prelude.{◌≡◌, ◌≢◌, ◌+◌, ◌*◌, ◌<◌, ◌≤◌, ℕ, List, Some, None, IsSome, true, false, length, take, drop, if◌then◌else◌};
ghost use Rattle.std.specs.Cmp.{IsTotalOrder};
ghost use Rattle.std.specs.FinMap as map;
ghost use Rattle.std.specs.FinMap.{IsAntisymmetric};
ghost use Rattle.b2_dec.specs.Number.{Number};
ghost use Rattle.b2_vars.specs.declared.name.Var.{Var};
ghost use Rattle.b2_vars.specs.declared.shape.Shape.{Shape};
ghost use Rattle.b2_vars.specs.Calls.{common_only, is_common};
ghost use Rattle.b2_vars.specs.Names.{var_cmp};
ghost use Rattle.b2_vars.specs.Shapes.{cells, cost, has_cell, cell_at, has_dimensions};
ghost use Rattle.b2_vars.specs.Tables.{Table, count_of, shape_at};
ghost use Rattle.b2_vars.specs.Variables.{VariableState, number_at, with_number, with_bytes, bytes_from};

/// The order of names is total, and no two names tie in it.
pub fn names_are_ordered()
    ensures total { IsTotalOrder var_cmp }
    ensures apart { IsAntisymmetric var_cmp }
{}

/// What a call puts under a name is found there, and every other name keeps what it had.
pub fn one_name_changes()
    ensures found { (t : Table) (v : Var) (x : VariableState) → map.get (map.insert t v x) v ≡ Some x }
    ensures others { (t : Table) (v other : Var) (x : VariableState) → other ≢ v → map.get (map.insert t v x) other ≡ map.get t other }
{}

/// What stands under a common name stays with the common variables, and nothing stands under the other names.
pub fn common_variables_stay()
    ensures { (t : Table) (v : Var) → map.get (common_only t) v ≡ (if is_common v t then map.get t v else None) }
{}

/// A number takes 12 bytes, an alpha value 5 and its length, an array of numbers 8 and 8 for each, and an alpha array 9
/// and a length for each.
pub fn costs_of_each_kind()
    ensures number { (v : Var) (s : Shape) → v.alpha ≡ false → v.array ≡ false → has_dimensions v s ≡ true → cost v s ≡ 12 }
    ensures alpha { (v : Var) (s : Shape) → v.alpha ≡ true → v.array ≡ false → has_dimensions v s ≡ true → cost v s ≡ 5 + s.len }
    ensures numbers { (v : Var) (s : Shape) → v.alpha ≡ false → v.array ≡ true → cost v s ≡ 8 + cells s * 8 }
    ensures alphas { (v : Var) (s : Shape) → v.alpha ≡ true → v.array ≡ true → cost v s ≡ 9 + cells s * s.len }
{}

/// A change of values takes nothing: where a variable keeps its shape, the count stays.
pub fn values_take_nothing()
    ensures { (t : Table) (v : Var) (x : VariableState) → IsSome (map.get t v) → x.shape ≡ shape_at v t → count_of (map.insert t v x) ≡ count_of t }
{}

/// The values of a shape stand at places of their own, as many as it has values.
pub fn values_stand_apart()
    ensures within { (s : Shape) (r c : ℕ) → has_cell s r c ≡ true → cell_at s r c < cells s }
    ensures apart { (s : Shape) (r c row col : ℕ) → has_cell s r c ≡ true → has_cell s row col ≡ true → cell_at s r c ≡ cell_at s row col → (r ≡ row) × (c ≡ col) }
{}

/// A number that is set is read back, and the other numbers of its variable stay.
pub fn numbers_are_read_back()
    ensures read { (x : VariableState) (cell : ℕ) (n : Number) → cell < length x.numbers → number_at cell (Some (with_number cell n x)) ≡ n }
    ensures others { (x : VariableState) (cell other : ℕ) (n : Number) → other ≢ cell → number_at other (Some (with_number cell n x)) ≡ number_at other (Some x) }
{}

/// Bytes that are put into a part are read back, those before and after it stay, and a variable has as many as before.
pub fn bytes_are_read_back()
    ensures read { (x : VariableState) (from : ℕ) (bytes : List ℕ) → from + length bytes ≤ length x.bytes → bytes_from from (length bytes) (with_bytes from x bytes).bytes ≡ bytes }
    ensures before { (x : VariableState) (from : ℕ) (bytes : List ℕ) → from + length bytes ≤ length x.bytes → take from (with_bytes from x bytes).bytes ≡ take from x.bytes }
    ensures after { (x : VariableState) (from : ℕ) (bytes : List ℕ) → from + length bytes ≤ length x.bytes → drop (from + length bytes) (with_bytes from x bytes).bytes ≡ drop (from + length bytes) x.bytes }
    ensures count { (x : VariableState) (from : ℕ) (bytes : List ℕ) → length (with_bytes from x bytes).bytes ≡ length x.bytes }
{}
