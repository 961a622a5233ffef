// CONVERT: a number into an image, and bytes into a number.
ghost use Rattle.std.specs.Prelude.{◌≡◌, ◌≤◌, true, drop, length, IfOk};
ghost use Rattle.b2_atom.specs.declared.rows.TheConstants as row;
ghost use Rattle.b2_atom.specs.declared.forms.Leaf.TheVariants as leaf;
ghost use Rattle.b2_print.specs.Imaged.{converted};
ghost use Rattle.b2_rows.specs.Leaves.{is_leaf, leaf_bytes};
ghost use Rattle.b2_rows.specs.Rows.{is_phrase, tree_at, after_phrase};
ghost use Rattle.b2_rows.specs.Values.{image_of};
ghost use Rattle.b2_expr.specs.Workspace.{SameReferences, workspace};
ghost use Rattle.b2_stmt_io.specs.Converting as spec;
ghost use Rattle.b2_receiver.specs.Receiving.{assign_bytes_at as assigns_bytes};

use crate::typed_text::typed_number;
use b2_atom::Cursor;
use b2_base::lexical::rest_after;
use b2_base::{Code, NoMemory};
use b2_dec::{Bytes, Dec};
use b2_expr::{Workspace, alpha, number, surroundings_of};
use b2_print::convert;
use b2_receiver::{alpha_receiver, assign_number_at, give_bytes, past_alpha_receiver};
use b2_rows::{image_at, is_alpha_at};

/// The number that bytes are, for a numeric receiver.
#[tactic(auto, using(crate::proofs::ConvertRows::bytes_here, crate::proofs::ConvertRows::bytes_receiver, crate::proofs::ConvertRows::bytes_are))]
fn convert_bytes(work: &mut Workspace<'_>, text: &[u8]) -> Result<Option<Code>, NoMemory>
    requires phrase { is_phrase row.CONVERT_ALPHA text.now ≡ true }
    ensures worked { IfOk result (λ code. record { work = workspace work.new; code = code } ≡ spec.converts_bytes (tree_at row.CONVERT_ALPHA text.now) (workspace work.old)) }
    ensures same_references { SameReferences work.old work.new }
{
    let mut c = Cursor::over(text);
    let mut bytes = Bytes::new();
    match alpha(&mut c, &surroundings_of(work), &mut bytes) {
        Ok(()) => {}
        Err(code) => return Ok(Some(code)),
    }
    assign_number_at(work, typed_number(bytes.bytes()), rest_after(c.rest(), 1))
}

/// Assigns a number in an image to the alpha receiver at a text.
fn image_to(
    work: &mut Workspace<'_>,
    x: Dec,
    image: &[u8],
    text: &[u8],
) -> Result<Option<Code>, NoMemory>
    requires phrase { is_phrase row.ALPHA_RECEIVER text.now ≡ true }
    requires short { length image.now ≤ 255 }
    ensures worked { IfOk result (λ code. record { work = workspace work.new; code = code } ≡ assigns_bytes (converted image.now x) (tree_at row.ALPHA_RECEIVER text.now) (workspace work.old)) }
    ensures same_references { SameReferences work.old work.new }
{
    let to = match alpha_receiver(&mut Cursor::over(text), &surroundings_of(work)) {
        Ok(to) => to,
        Err(code) => return Ok(Some(code)),
    };
    let mut made = Bytes::new();
    match convert(image, x, &mut made) {
        Ok(()) => give_bytes(work, &to, made.bytes()),
        Err(code) => Ok(Some(code)),
    }
}

/// The image after the alpha receiver at a text.
fn image_after(text: &[u8]) -> &[u8]
    requires phrase { is_phrase row.ALPHA_RECEIVER text.now ≡ true }
    requires image { is_leaf leaf.Image (drop 1 (drop 1 (after_phrase row.ALPHA_RECEIVER text.now))) ≡ true }
    ensures { result.now ≡ image_of (leaf_bytes leaf.Image (drop 1 (drop 1 (after_phrase row.ALPHA_RECEIVER text.now)))) }
{
    image_at(rest_after(rest_after(past_alpha_receiver(text), 1), 1))
}

/// A number in an image, for an alpha receiver.
#[tactic(auto, using(crate::proofs::ConvertRows::number_here, crate::proofs::ConvertRows::number_receiver, crate::proofs::ConvertRows::image_here, crate::proofs::ConvertRows::image_short, crate::proofs::ConvertRows::number_is))]
fn convert_number(work: &mut Workspace<'_>, text: &[u8]) -> Result<Option<Code>, NoMemory>
    requires phrase { is_phrase row.CONVERT_NUMBER text.now ≡ true }
    ensures worked { IfOk result (λ code. record { work = workspace work.new; code = code } ≡ spec.converts_number (tree_at row.CONVERT_NUMBER text.now) (workspace work.old)) }
    ensures same_references { SameReferences work.old work.new }
{
    let mut c = Cursor::over(text);
    let x = match number(&mut c, &surroundings_of(work)) {
        Ok(x) => x,
        Err(code) => return Ok(Some(code)),
    };
    let receiver = rest_after(c.rest(), 1);
    image_to(work, x, image_after(receiver), receiver)
}

/// CONVERT: the code with which it ended, or none.
#[tactic(auto, using(crate::proofs::ConvertRows::alpha_here, crate::proofs::ConvertRows::alpha_is, crate::proofs::ConvertRows::other_here, crate::proofs::ConvertRows::other_is))]
pub fn convert_unit(work: &mut Workspace<'_>, unit: &[u8]) -> Result<Option<Code>, NoMemory>
    requires phrase { is_phrase row.CONVERT unit.now ≡ true }
    ensures worked { IfOk result (λ code. record { work = workspace work.new; code = code } ≡ spec.converts (tree_at row.CONVERT unit.now) (workspace work.old)) }
    ensures same_references { SameReferences work.old work.new }
{
    let text = rest_after(unit, 1);
    if is_alpha_at(text) {
        convert_bytes(work, text)
    } else {
        convert_number(work, text)
    }
}
