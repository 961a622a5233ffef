// Buffers into which something is packed.
ghost use Rattle.std.specs.Prelude.{◌≡◌, length, None, Some, IfOk, MatchResult, Ok, Err};
ghost use Rattle.b2_pack.specs.Images.{image_row};
ghost use Rattle.b2_pack.specs.Packing as packing;
ghost use Rattle.b2_receiver.specs.Receivers.{IsBuffer};
ghost use Rattle.b2_expr.specs.Scope.{surroundings};
ghost use Rattle.b2_expr.specs.Workspace.{SameReferences, among, workspace};
ghost use Rattle.b2_receiver.specs.Assigning.{Ends, is_global_buffer};
ghost use Rattle.b2_stmt_pack.specs.Buffers.{buffer_variables, name_of, room_code, room_in, where_none};
ghost use Rattle.b2_stmt_pack.specs.Fields.{values_packed};
ghost use Rattle.b2_stmt_pack.specs.Numbers.{numbers_packed};

use b2_base::{Code, Fault, NoMemory};
use b2_dec::{Dec, Value};
use b2_expr::{Env, Workspace, variables_of};
use b2_pack::{check_fields, check_pack, fields, pack};
use b2_receiver::{Buffer, buffer_bytes, change_among, change_buffer};
use b2_rows::Name;
use b2_vars::Vars;

/// The name of a buffer.
fn name_of(of: &Buffer) -> Name
    ensures { result ≡ name_of of.now }
{
    let var = match of {
        Buffer::Value(to) => to.element.var,
        Buffer::Array(array) => array.var,
    };
    Name {
        letter: var.letter,
        digit: var.digit,
        alpha: var.alpha,
        global: of.is_global(),
    }
}

/// The variables among which a buffer is: X77 where there are no `@` variables.
pub fn variables_with<'a>(e: &Env<'a>, of: &Buffer) -> Result<&'a Vars, Code>
    ensures { MatchResult result (λ vars. buffer_variables (surroundings e.now) of.now ≡ Ok vars.now) (λ code. buffer_variables (surroundings e.now) of.now ≡ Err code) }
{
    variables_of(e, name_of(of))
}

/// How many bytes a buffer has.
fn room_of(vars: &Vars, of: &Buffer) -> Result<usize, Code>
    requires named { IsBuffer of.now }
    ensures { result ≡ room_in of.now vars.now }
{
    match buffer_bytes(vars, of) {
        Ok(bytes) => Ok(bytes.len()),
        Err(code) => Err(code),
    }
}

/// The code of the buffer, or the first of numbers that are packed into it.
#[tactic(auto, using(crate::proofs::Changed::room_coded, crate::proofs::Changed::room_missing))]
fn check_buffer_numbers(vars: &Vars, to: &Buffer, image: &[u8], xs: &[Dec]) -> Result<(), Code>
    requires named { IsBuffer to.now }
    ensures { MatchResult result (λ done. room_code (packing.image_code (image_row image.now) xs.now) (room_in to.now vars.now) ≡ None) (λ code. room_code (packing.image_code (image_row image.now) xs.now) (room_in to.now vars.now) ≡ Some code) }
{
    match room_of(vars, to) {
        Ok(room) => check_pack(image, xs, room),
        Err(code) => Err(code),
    }
}

/// Packs numbers at the front of bytes; with a code these stay.
#[tactic(auto, using(crate::proofs::Changed::new_or_old))]
fn pack_into(bytes: &mut [u8], image: &[u8], xs: &[Dec])
    ensures { bytes.new ≡ where_none (packing.image_code (image_row image.now) xs.now (length bytes.old)) (packing.with_image (image_row image.now) xs.now bytes.old) bytes.old }
{
    let _packed = pack(image, xs, bytes);
}

/// Puts numbers into a buffer. A scalar that isn't there is made. After an error all is as before.
#[tactic(auto, using(crate::proofs::Changed::numbers_put, crate::proofs::Changed::numbers_refused))]
fn pack_numbers_into(vars: &mut Vars, to: &Buffer, image: &[u8], xs: &[Dec]) -> Result<(), Fault>
    requires named { IsBuffer to.now }
    ensures { Ends (numbers_packed image.now xs.now to.now vars.old) vars.old vars.new result }
{
    match check_buffer_numbers(vars, to, image, xs) {
        Ok(()) => change_buffer(vars, to, |bytes| pack_into(bytes, image, xs)),
        Err(code) => Err(Fault::Code(code)),
    }
}

/// Puts numbers into a buffer, wherever it is. The code with which that ended, or none; with one nothing changed.
pub fn put_numbers(
    work: &mut Workspace<'_>,
    to: &Buffer,
    image: &[u8],
    xs: &[Dec],
) -> Result<Option<Code>, NoMemory>
    requires named { IsBuffer to.now }
    ensures worked { IfOk result (λ code. record { work = workspace work.new; code = code } ≡ among (is_global_buffer to.now) (numbers_packed image.now xs.now to.now) (workspace work.old)) }
    ensures same_references { SameReferences work.old work.new }
{
    change_among(
        work,
        to.is_global(),
        |vars| pack_numbers_into(vars, to, image, xs),
    )
}

/// The code of the buffer, or the first of values that are packed into its fields.
#[tactic(auto, using(crate::proofs::Changed::room_coded, crate::proofs::Changed::room_missing))]
fn check_buffer_values(vars: &Vars, to: &Buffer, spec: &[u8], values: &[Value]) -> Result<(), Code>
    requires named { IsBuffer to.now }
    ensures { MatchResult result (λ done. room_code (packing.fields_code spec.now values.now) (room_in to.now vars.now) ≡ None) (λ code. room_code (packing.fields_code spec.now values.now) (room_in to.now vars.now) ≡ Some code) }
{
    match room_of(vars, to) {
        Ok(room) => check_fields(spec, values, room),
        Err(code) => Err(code),
    }
}

/// Puts values into the fields of bytes; with a code these stay.
#[tactic(auto, using(crate::proofs::Changed::new_or_old))]
fn fields_into(bytes: &mut [u8], spec: &[u8], values: &[Value])
    ensures { bytes.new ≡ where_none (packing.fields_code spec.now values.now (length bytes.old)) (packing.with_values (packing.placed_fields spec.now) values.now bytes.old) bytes.old }
{
    let _packed = fields(spec, values, bytes);
}

/// Puts values into the fields of a buffer, as `pack_numbers_into`.
#[tactic(auto, using(crate::proofs::Changed::values_put, crate::proofs::Changed::values_refused))]
fn assign_values(vars: &mut Vars, to: &Buffer, spec: &[u8], values: &[Value]) -> Result<(), Fault>
    requires named { IsBuffer to.now }
    ensures { Ends (values_packed spec.now values.now to.now vars.old) vars.old vars.new result }
{
    match check_buffer_values(vars, to, spec, values) {
        Ok(()) => change_buffer(vars, to, |bytes| fields_into(bytes, spec, values)),
        Err(code) => Err(Fault::Code(code)),
    }
}

/// Puts values into the fields of a buffer, as `put_numbers`.
pub fn put_values(
    work: &mut Workspace<'_>,
    to: &Buffer,
    spec: &[u8],
    values: &[Value],
) -> Result<Option<Code>, NoMemory>
    requires named { IsBuffer to.now }
    ensures worked { IfOk result (λ code. record { work = workspace work.new; code = code } ≡ among (is_global_buffer to.now) (values_packed spec.now values.now to.now) (workspace work.old)) }
    ensures same_references { SameReferences work.old work.new }
{
    change_among(
        work,
        to.is_global(),
        |vars| assign_values(vars, to, spec, values),
    )
}
