// PACK and UNPACK: numbers side by side, by an image.
ghost use Rattle.std.specs.Prelude.{◌≡◌, true, drop, length, IfOk, IfErr, Ok};
ghost use Rattle.b2_base.specs.Refusals.{IsRefused};
ghost use Rattle.b2_atom.specs.Leaves.{leaf_width};
ghost use Rattle.b2_atom.specs.declared.forms.Leaf.TheVariants as leaf;
ghost use Rattle.b2_atom.specs.declared.rows.TheConstants as row;
ghost use Rattle.b2_atom.specs.declared.words.Origin.TheVariants.{Atoms};
ghost use Rattle.b2_rows.specs.CommaLists.{commas};
ghost use Rattle.b2_rows.specs.Rows.{after_phrase, is_list, is_phrase, tree_at};
ghost use Rattle.b2_pack.specs.Images.{image_row};
ghost use Rattle.b2_pack.specs.Unpacking.{numbers_by_rows};
ghost use Rattle.b2_expr.specs.Value.{context_of};
ghost use Rattle.b2_expr.specs.Workspace.{SameReferences, surroundings_of as seen_by, workspace};
ghost use Rattle.b2_receiver.specs.Receivers.{IsBuffer, buffer as buffer_seen};
ghost use Rattle.b2_stmt_pack.specs.Buffers.{packs_to, read_from, read_in};
ghost use Rattle.b2_stmt_pack.specs.Lists.{all_taken, each_of, items_at, number_of, takes_number};
ghost use Rattle.b2_stmt_pack.specs.Numbers as spec;

use crate::buffers::{put_numbers, variables_with};
use crate::lists::{count_at, give_numbers, numbers_at};
use b2_atom::words::Origin;
use b2_atom::{Cursor, image_width};
use b2_base::codes::P58_SPECIFICATION;
use b2_base::lexical::rest_after;
use b2_base::{Code, Fault, NoMemory};
use b2_dec::Dec;
use b2_expr::{Workspace, surroundings_of};
use b2_pack::{is_image, unpack};
use b2_receiver::{Buffer, buffer, buffer_bytes, code_of_fault};
use b2_rows::image_at;
use b2_vars::Vars;
use std::alloc::Global;

/// Packs the numbers that stand after the buffer at a text. The code with which that ended, or none.
#[tactic(auto, using(crate::proofs::Taking::packs_refused))]
fn pack_at(
    alloc: Global,
    work: &mut Workspace<'_>,
    image: &[u8],
    text: &[u8],
) -> Result<Option<Code>, NoMemory>
    requires buffer { is_phrase row.BUFFER text.now ≡ true }
    requires number { is_phrase row.SUM (drop 1 (after_phrase row.BUFFER text.now)) ≡ true }
    requires list { is_list commas row.COMMA_NUMBER (after_phrase row.SUM (drop 1 (after_phrase row.BUFFER text.now))) ≡ true }
    ensures worked { IfOk result (λ code. record { work = workspace work.new; code = code } ≡ packs_to (spec.numbers_packed image.now) (buffer_seen (context_of (workspace work.old)) (tree_at row.BUFFER text.now)) (each_of (number_of (context_of (workspace work.old))) (items_at row.COMMA_NUMBER row.SUM (drop 1 (after_phrase row.BUFFER text.now)))) (workspace work.old)) }
    ensures same_references { SameReferences work.old work.new }
{
    let mut c = Cursor::over(text);
    let to = match buffer(&mut c, &surroundings_of(work)) {
        Ok(to) => to,
        Err(code) => return Ok(Some(code)),
    };
    match numbers_at(alloc, &surroundings_of(work), rest_after(c.rest(), 1)) {
        Ok(xs) => put_numbers(work, &to, image, &xs),
        Err(fault) => code_of_fault(fault),
    }
}

/// What stands after an image and its parenthesis.
fn past_image(text: &[u8]) -> &[u8]
    ensures { result.now ≡ drop (leaf_width Atoms leaf.Image text.now) text.now }
{
    rest_after(text, image_width(Origin::Atoms, text))
}

/// PACK: packs numbers into a buffer. The code with which that ended, or none.
#[tactic(auto, using(crate::proofs::NumberRows::pack_leaf, crate::proofs::NumberRows::pack_buffer, crate::proofs::NumberRows::pack_number, crate::proofs::NumberRows::pack_list, crate::proofs::NumberRows::pack_is, crate::proofs::NumberRows::pack_fine))]
pub fn pack_numbers(
    alloc: Global,
    work: &mut Workspace<'_>,
    unit: &[u8],
) -> Result<Option<Code>, NoMemory>
    requires phrase { is_phrase row.PACK unit.now ≡ true }
    ensures worked { IfOk result (λ code. record { work = workspace work.new; code = code } ≡ spec.packs (tree_at row.PACK unit.now) (workspace work.old)) }
    ensures same_references { SameReferences work.old work.new }
{
    let text = rest_after(unit, 1);
    let image = image_at(text);
    if is_image(image) {
        pack_at(alloc, work, image, past_image(text))
    } else {
        Ok(Some(Code::known(P58_SPECIFICATION)))
    }
}

/// The n numbers that a buffer holds, or the first code.
fn numbers_held(
    alloc: Global,
    vars: &Vars,
    of: &Buffer,
    image: &[u8],
    n: usize,
) -> Result<Vec<Dec>, Fault>
    requires named { IsBuffer of.now }
    ensures numbers { IfOk result (λ xs. read_in (numbers_by_rows (image_row image.now) n) of.now vars.now ≡ Ok xs.items) }
    ensures refused { IfErr result (IsRefused (read_in (numbers_by_rows (image_row image.now) n) of.now vars.now)) }
{
    match buffer_bytes(vars, of) {
        Ok(bytes) => unpack(alloc, image, n, bytes),
        Err(code) => Err(Fault::Code(code)),
    }
}

/// Unpacks the buffer at a text to the receivers that stand after it. The code with which that ended, or none.
fn unpack_at(
    alloc: Global,
    work: &mut Workspace<'_>,
    image: &[u8],
    text: &[u8],
) -> Result<Option<Code>, NoMemory>
    requires buffer { is_phrase row.BUFFER text.now ≡ true }
    requires receiver { is_phrase row.NUMERIC_RECEIVER (drop 1 (after_phrase row.BUFFER text.now)) ≡ true }
    requires list { is_list commas row.COMMA_NUMERIC_RECEIVER (after_phrase row.NUMERIC_RECEIVER (drop 1 (after_phrase row.BUFFER text.now))) ≡ true }
    ensures worked { IfOk result (λ code. record { work = workspace work.new; code = code } ≡ all_taken takes_number (items_at row.COMMA_NUMERIC_RECEIVER row.NUMERIC_RECEIVER (drop 1 (after_phrase row.BUFFER text.now))) (read_from (numbers_by_rows (image_row image.now) (length (items_at row.COMMA_NUMERIC_RECEIVER row.NUMERIC_RECEIVER (drop 1 (after_phrase row.BUFFER text.now))))) (buffer_seen (context_of (workspace work.old)) (tree_at row.BUFFER text.now)) (seen_by (workspace work.old))) (workspace work.old)) }
    ensures same_references { SameReferences work.old work.new }
{
    let mut c = Cursor::over(text);
    let of = match buffer(&mut c, &surroundings_of(work)) {
        Ok(of) => of,
        Err(code) => return Ok(Some(code)),
    };
    let receivers = rest_after(c.rest(), 1);
    let vars = match variables_with(&surroundings_of(work), &of) {
        Ok(vars) => vars,
        Err(code) => return Ok(Some(code)),
    };
    match numbers_held(alloc, vars, &of, image, count_at(receivers)) {
        Ok(xs) => give_numbers(work, receivers, &xs),
        Err(fault) => code_of_fault(fault),
    }
}

/// UNPACK: unpacks a buffer to numeric receivers, once all numbers are read. The code with which that ended, or none.
#[tactic(auto, using(crate::proofs::NumberRows::unpack_leaf, crate::proofs::NumberRows::unpack_buffer, crate::proofs::NumberRows::unpack_receiver, crate::proofs::NumberRows::unpack_list, crate::proofs::NumberRows::unpack_is, crate::proofs::NumberRows::unpack_fine))]
pub fn unpack_numbers(
    alloc: Global,
    work: &mut Workspace<'_>,
    unit: &[u8],
) -> Result<Option<Code>, NoMemory>
    requires phrase { is_phrase row.UNPACK unit.now ≡ true }
    ensures worked { IfOk result (λ code. record { work = workspace work.new; code = code } ≡ spec.unpacks (tree_at row.UNPACK unit.now) (workspace work.old)) }
    ensures same_references { SameReferences work.old work.new }
{
    let text = rest_after(unit, 1);
    let image = image_at(text);
    if !is_image(image) {
        return Ok(Some(Code::known(P58_SPECIFICATION)));
    }
    unpack_at(alloc, work, image, past_image(text))
}
