// DIM and COM: the variables that they make.
ghost use Rattle.std.specs.Prelude.{◌≡◌, ◌==◌, true, false, IfOk, Ok};
ghost use Rattle.b2_base.specs.Byte as byte;
ghost use Rattle.b2_base.specs.Lexical.{first};
ghost use Rattle.b2_atom.specs.declared.forms.Start.TheVariants as start;
ghost use Rattle.b2_atom.specs.declared.rows.TheConstants as row;
ghost use Rattle.b2_rows.specs.Optional.{after_maybe, maybe_phrase, maybe_tree};
ghost use Rattle.b2_rows.specs.Rows.{after_phrase, is_phrase, tree_at};
ghost use Rattle.b2_vars.specs.Names.{is_legal_name};
ghost use Rattle.b2_receiver.specs.Assigning.{Ends};
ghost use Rattle.b2_expr.specs.Reads.{Gives};
ghost use Rattle.b2_expr.specs.Scope.{surroundings};
ghost use Rattle.b2_expr.specs.Value.{in_statement};
ghost use Rattle.b2_expr.specs.Workspace.{SameReferences, workspace};
ghost use Rattle.b2_stmt_var.specs.Dimensions as spec;

use b2_atom::words::COM;
use b2_base::codes::X77_NO_PARTITION;
use b2_base::lexical::rest_after;
use b2_base::{Code, Fault, NoMemory};
use b2_dec::{fix, whole};
use b2_dims::{array_shape_at, number_at, tested_length};
use b2_expr::{Env, Workspace, surroundings_of, variable_of};
use b2_receiver::change_among;
use b2_rows::{Name, alpha_name, is_alpha_at, is_at, is_numeric_at, numeric_name};
use b2_vars::{Shape, USUAL_LENGTH, Var, Vars};

/// A variable that DIM or COM makes.
#[derive(Clone, Copy)]
pub struct Entry {
    /// Whether its name has `@`.
    pub global: bool,
    pub var: Var,
    pub shape: Shape,
}

/// The length where none is written.
fn usual_length(alpha: bool) -> u8
    ensures { result ≡ spec.usual_length alpha }
{
    if alpha { USUAL_LENGTH } else { 0 }
}

/// The shape of a scalar.
fn shape_of_length(len: u8) -> Shape
    ensures { result ≡ record { rows = 0; cols = 0; len = len } }
{
    Shape {
        rows: 0,
        cols: 0,
        len,
    }
}

/// The shape of an alpha scalar, and what stands after its length.
#[tactic(auto, using(crate::proofs::LoneRows::lone_is, crate::proofs::LoneRows::lone_usual, crate::proofs::LoneRows::lone_rest, crate::proofs::LoneRows::no_lone_rest, crate::proofs::LoneRows::lone_sum))]
fn lone_shape_at<'t>(e: &Env<'_>, text: &'t [u8]) -> Result<(Shape, &'t [u8]), Code>
    requires phrase { maybe_phrase start.Numeric row.LENGTH text.now ≡ true }
    requires alone { (first text.now == byte.opening) ≡ false }
    ensures { Gives (spec.lone_shape (in_statement (surroundings e.now)) true (maybe_tree start.Numeric row.LENGTH text.now)) (after_maybe start.Numeric row.LENGTH text.now) result }
{
    if !is_numeric_at(text) {
        return Ok((shape_of_length(USUAL_LENGTH), text));
    }
    let (x, rest) = match number_at(e, text) {
        Ok(found) => found,
        Err(code) => return Err(code),
    };
    match tested_length(true, whole(fix(x))) {
        Ok(len) => Ok((shape_of_length(len), rest)),
        Err(code) => Err(code),
    }
}

/// Whether there are such variables as a name speaks of.
fn has_variables(e: &Env<'_>, name: Name) -> bool
    ensures { result ≡ spec.has_variables (surroundings e.now) name }
{
    !name.global || e.globals.is_some()
}

/// The entry of an alpha name, and what stands after it. X77 comes at the name.
#[tactic(auto, using(crate::proofs::EntryRows::alpha_here, crate::proofs::EntryRows::alpha_shape, crate::proofs::EntryRows::alpha_length, crate::proofs::EntryRows::alpha_global, crate::proofs::EntryRows::alpha_array_is, crate::proofs::EntryRows::alpha_array_rest, crate::proofs::EntryRows::alpha_lone_is, crate::proofs::EntryRows::alpha_lone_rest, b2_expr::proofs::Names::legal_name))]
fn alpha_entry_at<'t>(e: &Env<'_>, text: &'t [u8]) -> Result<(Entry, &'t [u8]), Code>
    requires phrase { is_phrase row.DIMENSIONED_ALPHA text.now ≡ true }
    ensures entry { Gives (spec.entry_named (in_statement (surroundings e.now)) true (tree_at row.DIMENSIONED_ALPHA text.now)) (after_phrase row.DIMENSIONED_ALPHA text.now) result }
    ensures named { IfOk result (λ p. is_legal_name p.0.var ≡ true) }
{
    let (name, width) = alpha_name(text);
    if !has_variables(e, name) {
        return Err(Code::known(X77_NO_PARTITION));
    }
    let global = name.global;
    let after = rest_after(text, width);
    if !is_at(b'(', after) {
        return match lone_shape_at(e, after) {
            Ok((shape, rest)) => {
                let var = variable_of(name, false);
                Ok((Entry { global, var, shape }, rest))
            }
            Err(code) => Err(code),
        };
    }
    match array_shape_at(e, usual_length(true), true, after) {
        Ok((shape, rest)) => {
            let var = variable_of(name, true);
            Ok((Entry { global, var, shape }, rest))
        }
        Err(code) => Err(code),
    }
}

/// The entry of the name of a number, and what stands after it. X77 comes at the name.
#[tactic(auto, using(crate::proofs::EntryRows::number_here, crate::proofs::EntryRows::number_shape, crate::proofs::EntryRows::number_global, crate::proofs::EntryRows::number_array_is, crate::proofs::EntryRows::number_array_rest, crate::proofs::EntryRows::number_lone_is, crate::proofs::EntryRows::number_lone_rest, b2_expr::proofs::Names::legal_name))]
fn number_entry_at<'t>(e: &Env<'_>, text: &'t [u8]) -> Result<(Entry, &'t [u8]), Code>
    requires phrase { is_phrase row.DIMENSIONED_NUMERIC text.now ≡ true }
    ensures entry { Gives (spec.entry_named (in_statement (surroundings e.now)) false (tree_at row.DIMENSIONED_NUMERIC text.now)) (after_phrase row.DIMENSIONED_NUMERIC text.now) result }
    ensures named { IfOk result (λ p. is_legal_name p.0.var ≡ true) }
{
    let (name, width) = numeric_name(text);
    if !has_variables(e, name) {
        return Err(Code::known(X77_NO_PARTITION));
    }
    let global = name.global;
    let after = rest_after(text, width);
    if !is_at(b'(', after) {
        let var = variable_of(name, false);
        let shape = shape_of_length(0);
        return Ok((Entry { global, var, shape }, after));
    }
    match array_shape_at(e, usual_length(false), false, after) {
        Ok((shape, rest)) => {
            let var = variable_of(name, true);
            Ok((Entry { global, var, shape }, rest))
        }
        Err(code) => Err(code),
    }
}

/// The entry at a text, and what stands after it.
#[tactic(auto, using(crate::proofs::EntryRows::by_alpha, crate::proofs::EntryRows::by_alpha_is, crate::proofs::EntryRows::by_alpha_rest, crate::proofs::EntryRows::by_number, crate::proofs::EntryRows::by_number_is, crate::proofs::EntryRows::by_number_rest))]
fn dimensioned_at<'t>(e: &Env<'_>, text: &'t [u8]) -> Result<(Entry, &'t [u8]), Code>
    requires phrase { is_phrase row.DIMENSIONED text.now ≡ true }
    ensures entry { Gives (spec.entry_in (in_statement (surroundings e.now)) (tree_at row.DIMENSIONED text.now)) (after_phrase row.DIMENSIONED text.now) result }
    ensures named { IfOk result (λ p. is_legal_name p.0.var ≡ true) }
{
    if is_alpha_at(text) {
        alpha_entry_at(e, text)
    } else {
        number_entry_at(e, text)
    }
}

/// Makes a variable. Codes come as for `dim` and `com`.
#[tactic(auto, using(b2_receiver::proofs::Ended::ends_by))]
fn make(vars: &mut Vars, common: bool, entry: Entry) -> Result<(), Fault>
    requires named { is_legal_name entry.var ≡ true }
    ensures { Ends (spec.makes common entry vars.old) vars.old vars.new result }
{
    if common {
        return match vars.com(entry.var, entry.shape) {
            Ok(()) => Ok(()),
            Err(code) => Err(Fault::Code(code)),
        };
    }
    match vars.dim(entry.var, entry.shape) {
        Ok(()) => Ok(()),
        Err(code) => Err(Fault::Code(code)),
    }
}

/// Makes a variable, wherever it is to be. The code with which that ended, or none.
fn make_entry(
    work: &mut Workspace<'_>,
    common: bool,
    entry: Entry,
) -> Result<Option<Code>, NoMemory>
    requires named { is_legal_name entry.var ≡ true }
    ensures worked { IfOk result (λ code. record { work = workspace work.new; code = code } ≡ spec.makes_found common (Ok entry) (workspace work.old)) }
    ensures same_references { SameReferences work.old work.new }
{
    change_among(work, entry.global, |vars| make(vars, common, entry))
}

/// DIM and COM: makes variables, from left to right. The code with which that ended, or none.
#[tactic(auto, using(crate::proofs::EntryRows::common_is, crate::proofs::EntryRows::first_part, crate::proofs::EntryRows::first_list, crate::proofs::EntryRows::other_part, crate::proofs::EntryRows::other_list, crate::proofs::EntryRows::other_items, crate::proofs::EntryRows::no_items, crate::proofs::EntryRows::entry_shorter, crate::proofs::EntryRows::whole_items, crate::proofs::Assigned::one_more, crate::proofs::Assigned::one_coded))]
pub fn dim(work: &mut Workspace<'_>, unit: &[u8]) -> Result<Option<Code>, NoMemory>
    requires phrase { is_phrase row.DIM unit.now ≡ true }
    ensures worked { IfOk result (λ code. record { work = workspace work.new; code = code } ≡ spec.dimensions (tree_at row.DIM unit.now) (workspace work.old)) }
    ensures same_references { SameReferences work.old work.new }
{
    let common = is_at(COM, unit);
    let mut left = rest_after(unit, 1);
    loop {
        let (entry, after) = match dimensioned_at(&surroundings_of(work), left) {
            Ok(found) => found,
            Err(code) => return Ok(Some(code)),
        };
        let code = make_entry(work, common, entry)?;
        if code.is_some() {
            return Ok(code);
        }
        if !is_at(b',', after) {
            return Ok(None);
        }
        left = rest_after(after, 1);
    }
}
