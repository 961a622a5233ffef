// $PACK and $UNPACK: values in the fields of a specification.
ghost use Rattle.std.specs.Prelude.{◌≡◌, true, drop, map, IfOk, IfErr, Ok};
ghost use Rattle.b2_base.specs.Refusals.{IsRefused};
ghost use Rattle.b2_atom.specs.declared.rows.TheConstants as row;
ghost use Rattle.b2_rows.specs.CommaLists.{commas};
ghost use Rattle.b2_rows.specs.Rows.{after_phrase, is_list, is_phrase, tree_at};
ghost use Rattle.b2_pack.specs.Unpacking.{fields_in};
ghost use Rattle.b2_expr.specs.Reads.{Gives};
ghost use Rattle.b2_expr.specs.Scope.{surroundings};
ghost use Rattle.b2_expr.specs.Value.{context_of, in_statement};
ghost use Rattle.b2_expr.specs.Workspace.{SameReferences, surroundings_of as seen_by, workspace};
ghost use Rattle.b2_receiver.specs.Assigning.{value_bytes};
ghost use Rattle.b2_receiver.specs.Receivers.{IsBuffer, IsAlpha, buffer as buffer_seen};
ghost use Rattle.b2_stmt_pack.specs.Buffers.{packs_to, read_from, read_in};
ghost use Rattle.b2_stmt_pack.specs.Fields as spec;
ghost use Rattle.b2_stmt_pack.specs.Lists.{all_taken, each_of, items_at, kind_of, takes_value, value_of};

use crate::buffers::{put_values, variables_with};
use crate::lists::{give_values, kinds_at, values_at};
use b2_atom::Cursor;
use b2_base::codes::P58_SPECIFICATION;
use b2_base::lexical::rest_after;
use b2_base::{Code, Fault, NoMemory};
use b2_dec::{Bytes, Kind, Value};
use b2_expr::{Env, Workspace, surroundings_of};
use b2_pack::{is_specification, unfields};
use b2_receiver::{AlphaReceiver, Buffer, alpha_receiver, buffer, buffer_bytes, code_of_fault};
use b2_vars::Vars;
use std::alloc::Global;

/// The bytes that an alpha receiver names, in memory of their own.
#[tactic(auto, using(crate::proofs::FieldRows::few_bytes))]
fn bytes_of(vars: &Vars, of: AlphaReceiver) -> Result<Bytes, Code>
    requires named { IsAlpha of.element.var }
    ensures { result ≡ value_bytes of vars.now }
{
    match buffer_bytes(vars, &Buffer::Value(of)) {
        Ok(bytes) => match Bytes::of(bytes) {
            Some(bytes) => Ok(bytes),
            None => unreachable!(),
        },
        Err(code) => Err(code),
    }
}

/// The specification at a text, and what stands after it.
#[tactic(auto, using(crate::proofs::FieldRows::fields_variable, crate::proofs::FieldRows::fields_is, crate::proofs::FieldRows::fields_rest))]
fn specification_at<'a>(e: &Env<'_>, text: &'a [u8]) -> Result<(Bytes, &'a [u8]), Code>
    requires phrase { is_phrase row.SPECIFICATION text.now ≡ true }
    ensures { Gives (spec.bytes_of_fields (in_statement (surroundings e.now)) (tree_at row.SPECIFICATION text.now)) (after_phrase row.SPECIFICATION text.now) result }
{
    let mut c = Cursor::over(rest_after(rest_after(text, 1), 1));
    let of = match alpha_receiver(&mut c, e) {
        Ok(of) => of,
        Err(code) => return Err(code),
    };
    let vars = match variables_with(e, &Buffer::Value(of)) {
        Ok(vars) => vars,
        Err(code) => return Err(code),
    };
    match bytes_of(vars, of) {
        Ok(bytes) => Ok((bytes, c.rest())),
        Err(code) => Err(code),
    }
}

/// Packs the values that stand after the buffer at a text. The code with which that ended, or none.
#[tactic(auto, using(crate::proofs::Taking::packs_refused))]
fn pack_at(
    alloc: Global,
    work: &mut Workspace<'_>,
    pairs: &[u8],
    text: &[u8],
) -> Result<Option<Code>, NoMemory>
    requires buffer { is_phrase row.BUFFER text.now ≡ true }
    requires value { is_phrase row.OPERAND_OF_ANY_KIND (drop 1 (after_phrase row.BUFFER text.now)) ≡ true }
    requires list { is_list commas row.COMMA_OPERAND (after_phrase row.OPERAND_OF_ANY_KIND (drop 1 (after_phrase row.BUFFER text.now))) ≡ true }
    ensures worked { IfOk result (λ code. record { work = workspace work.new; code = code } ≡ packs_to (spec.values_packed pairs.now) (buffer_seen (context_of (workspace work.old)) (tree_at row.BUFFER text.now)) (each_of (value_of (context_of (workspace work.old))) (items_at row.COMMA_OPERAND row.OPERAND_OF_ANY_KIND (drop 1 (after_phrase row.BUFFER text.now)))) (workspace work.old)) }
    ensures same_references { SameReferences work.old work.new }
{
    let mut c = Cursor::over(text);
    let to = match buffer(&mut c, &surroundings_of(work)) {
        Ok(to) => to,
        Err(code) => return Ok(Some(code)),
    };
    match values_at(alloc, &surroundings_of(work), rest_after(c.rest(), 1)) {
        Ok(values) => put_values(work, &to, pairs, &values),
        Err(fault) => code_of_fault(fault),
    }
}

/// $PACK: packs values into the fields of a buffer. The code with which that ended, or none.
#[tactic(auto, using(crate::proofs::FieldRows::pack_fields, crate::proofs::FieldRows::pack_buffer, crate::proofs::FieldRows::pack_value, crate::proofs::FieldRows::pack_list, crate::proofs::FieldRows::pack_is, crate::proofs::FieldRows::pack_fine))]
pub fn pack_fields(
    alloc: Global,
    work: &mut Workspace<'_>,
    unit: &[u8],
) -> Result<Option<Code>, NoMemory>
    requires phrase { is_phrase row.FIELD_PACK unit.now ≡ true }
    ensures worked { IfOk result (λ code. record { work = workspace work.new; code = code } ≡ spec.packs (tree_at row.FIELD_PACK unit.now) (workspace work.old)) }
    ensures same_references { SameReferences work.old work.new }
{
    let (pairs, rest) = match specification_at(&surroundings_of(work), rest_after(unit, 1)) {
        Ok(found) => found,
        Err(code) => return Ok(Some(code)),
    };
    if is_specification(pairs.bytes()) {
        pack_at(alloc, work, pairs.bytes(), rest_after(rest, 1))
    } else {
        Ok(Some(Code::known(P58_SPECIFICATION)))
    }
}

/// The values of these kinds that a buffer holds, or the first code.
fn values_held(
    alloc: Global,
    vars: &Vars,
    of: &Buffer,
    pairs: &[u8],
    kinds: &[Kind],
) -> Result<Vec<Value>, Fault>
    requires named { IsBuffer of.now }
    ensures values { IfOk result (λ xs. read_in (fields_in pairs.now kinds.now) of.now vars.now ≡ Ok xs.items) }
    ensures refused { IfErr result (IsRefused (read_in (fields_in pairs.now kinds.now) of.now vars.now)) }
{
    match buffer_bytes(vars, of) {
        Ok(bytes) => unfields(alloc, pairs, kinds, bytes),
        Err(code) => Err(Fault::Code(code)),
    }
}

/// Unpacks the buffer at a text to the receivers that stand after it. The code with which that ended, or none.
fn unpack_at(
    alloc: Global,
    work: &mut Workspace<'_>,
    pairs: &[u8],
    text: &[u8],
) -> Result<Option<Code>, NoMemory>
    requires buffer { is_phrase row.BUFFER text.now ≡ true }
    requires receiver { is_phrase row.RECEIVER (drop 1 (after_phrase row.BUFFER text.now)) ≡ true }
    requires list { is_list commas row.COMMA_RECEIVER (after_phrase row.RECEIVER (drop 1 (after_phrase row.BUFFER text.now))) ≡ true }
    ensures worked { IfOk result (λ code. record { work = workspace work.new; code = code } ≡ all_taken takes_value (items_at row.COMMA_RECEIVER row.RECEIVER (drop 1 (after_phrase row.BUFFER text.now))) (read_from (fields_in pairs.now (map kind_of (items_at row.COMMA_RECEIVER row.RECEIVER (drop 1 (after_phrase row.BUFFER text.now))))) (buffer_seen (context_of (workspace work.old)) (tree_at row.BUFFER text.now)) (seen_by (workspace work.old))) (workspace work.old)) }
    ensures same_references { SameReferences work.old work.new }
{
    let mut c = Cursor::over(text);
    let of = match buffer(&mut c, &surroundings_of(work)) {
        Ok(of) => of,
        Err(code) => return Ok(Some(code)),
    };
    let receivers = rest_after(c.rest(), 1);
    let kinds = kinds_at(alloc, receivers)?;
    let vars = match variables_with(&surroundings_of(work), &of) {
        Ok(vars) => vars,
        Err(code) => return Ok(Some(code)),
    };
    match values_held(alloc, vars, &of, pairs, &kinds) {
        Ok(values) => give_values(work, receivers, &values),
        Err(fault) => code_of_fault(fault),
    }
}

/// $UNPACK: unpacks the fields of a buffer to receivers, once all values are read. The code with which that ended, or none.
#[tactic(auto, using(crate::proofs::FieldRows::unpack_fields, crate::proofs::FieldRows::unpack_buffer, crate::proofs::FieldRows::unpack_receiver, crate::proofs::FieldRows::unpack_list, crate::proofs::FieldRows::unpack_is, crate::proofs::FieldRows::unpack_fine))]
pub fn unpack_fields(
    alloc: Global,
    work: &mut Workspace<'_>,
    unit: &[u8],
) -> Result<Option<Code>, NoMemory>
    requires phrase { is_phrase row.FIELD_UNPACK unit.now ≡ true }
    ensures worked { IfOk result (λ code. record { work = workspace work.new; code = code } ≡ spec.unpacks (tree_at row.FIELD_UNPACK unit.now) (workspace work.old)) }
    ensures same_references { SameReferences work.old work.new }
{
    let (pairs, rest) = match specification_at(&surroundings_of(work), rest_after(unit, 1)) {
        Ok(found) => found,
        Err(code) => return Ok(Some(code)),
    };
    if is_specification(pairs.bytes()) {
        unpack_at(alloc, work, pairs.bytes(), rest_after(rest, 1))
    } else {
        Ok(Some(Code::known(P58_SPECIFICATION)))
    }
}
