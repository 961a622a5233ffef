// Values in an image.
ghost use Rattle.std.specs.Prelude.{◌≡◌, false, Ok, Err, Some, None, MatchOption, if◌then◌else◌, ◌++◌, ◌-◌, ◌≤◌, ◌<◌, ◌^◌, [], ◌∷◌, length, min, OnOk, OnErr, IfOk, IfErr, IfSome};
ghost use Rattle.b2_base.specs.Byte as byte;
ghost use Rattle.b2_base.specs.Refusals.{IsRefused};
ghost use Rattle.b2_print.specs.Images.{field_width, pieces_of, fields, literals, IsFirstField};
ghost use Rattle.b2_print.specs.Filling.{filled, fits, number_filled};
ghost use Rattle.b2_print.specs.Imaged as spec;

use crate::filling::{fill_field, fill_number};
use crate::image::{Field, field_at};
use b2_base::codes::{P42_IMAGE, X71_DOES_NOT_FIT};
use b2_base::{Code, Fault, NoMemory};
use b2_dec::{Bytes, Dec, Value};
use std::alloc::Global;

/// Appends a value in a field.
fn put(alloc: Global, field: &Field<'_>, value: &Value, text: &mut Vec<u8>) -> Result<(), NoMemory>
    requires { field_width field.now < 2 ^ 63 }
    ensures { OnOk result (text.new.items ≡ text.old.items ++ filled field.now value.now) }
{
    let mut filled = vec![in alloc; b' '; field.width()]?;
    fill_field(field, value, &mut filled);
    text.extend_from_slice(&filled)?;
    Ok(())
}

/// Appends one line of the image, and gives the number of values that it took.
fn image_line(
    alloc: Global,
    image: &[u8],
    values: &[Value],
    text: &mut Vec<u8>,
) -> Result<usize, NoMemory>
    ensures line { OnOk result (text.new.items ≡ text.old.items ++ spec.line (pieces_of image.now) values.now) }
    ensures used { IfOk result (λ used. used ≡ min (length (fields (pieces_of image.now))) (length values.now)) }
{
    let mut at = 0;
    let mut used = 0;
    while at < image.len() {
        match field_at(&image[at..]) {
            None => {
                text.push(image[at])?;
                at += 1;
            }
            Some(field) => {
                if used == values.len() {
                    return Ok(used);
                }
                put(alloc, &field, &values[used], text)?;
                at += field.width();
                used += 1;
            }
        }
    }
    Ok(used)
}

/// The place of the first field of an image, and that field.
fn first_field(image: &[u8]) -> Option<(usize, Field<'_>)>
    ensures { MatchOption result
        (pieces_of image.now ≡ literals image.now)
        (λ found. IsFirstField image.now found.0 found.1) }
{
    for at in 0..image.len() {
        if let Some(field) = field_at(&image[at..]) {
            return Some((at, field));
        }
    }
    None
}

/// Whether there are values and no field for them.
fn lacks_field(image: &[u8], values: &[Value]) -> bool
    ensures { result ≡ spec.lacks_field (pieces_of image.now) values.now }
{
    match first_field(image) {
        Some(_) => false,
        None => !values.is_empty(),
    }
}

/// All lines of the image, with a newline after them unless more follows.
fn all_lines(alloc: Global, image: &[u8], values: &[Value], more: bool) -> Result<Vec<u8>, NoMemory>
    requires { spec.lacks_field (pieces_of image.now) values.now ≡ false }
    ensures { IfOk result
        (λ text. text.items ≡ spec.all_lines (pieces_of image.now) values.now ++ (if more then [] else byte.newline ∷ [])) }
{
    let mut text = Vec::new(alloc);
    let mut used = image_line(alloc, image, values, &mut text)?;
    while used < values.len() {
        text.push(b'\n')?;
        used += image_line(alloc, image, &values[used..], &mut text)?;
    }
    if !more {
        text.push(b'\n')?;
    }
    Ok(text)
}

/// Appends bytes.
fn append(into: &mut Vec<u8>, text: &[u8]) -> Result<(), NoMemory>
    ensures ok { OnOk result (into.new.items ≡ into.old.items ++ text.now) }
    ensures err { OnErr result (into.new.items ≡ into.old.items) }
{
    into.extend_from_slice(text)?;
    Ok(())
}

/// Appends the values as an image shows them, and a newline unless more follows on the line.
///
/// Values past the last field begin the image again on a new line. What is shown ends before a field that has no value.
/// P42 where there are values and the image has no field. After an error, `into` is as before.
pub fn using(
    alloc: Global,
    image: &[u8],
    items: &[Value],
    more: bool,
    into: &mut Vec<u8>,
) -> Result<(), Fault>
    ensures ok { OnOk result (Ok into.new.items ≡ spec.appended into.old.items (spec.imaged image.now items.now more)) }
    ensures code { IfErr result (IsRefused (spec.imaged image.now items.now more)) }
    ensures err { OnErr result (into.new.items ≡ into.old.items) }
{
    if lacks_field(image, items) {
        return Err(Fault::Code(Code::known(P42_IMAGE)));
    }
    let text = all_lines(alloc, image, items, more)?;
    append(into, &text)?;
    Ok(())
}

/// Sets `into` to an image with a number in its first field, up to the second one.
///
/// P42 where the image has no field, X71 where the number doesn't fit. Then `into` is as before.
pub fn convert(image: &[u8], x: Dec, into: &mut Bytes) -> Result<(), Code>
    requires { length image.now ≤ 255 }
    ensures ok { OnOk result (spec.converted image.now x ≡ Ok into.new) }
    ensures code { IfErr result (λ code. spec.converted image.now x ≡ Err code) }
    ensures err { OnErr result (into.new ≡ into.old) }
{
    let Some((start, field)) = first_field(image) else {
        return Err(Code::known(P42_IMAGE));
    };
    let Some(number) = filled_number(&field, x) else {
        return Err(Code::known(X71_DOES_NOT_FIT));
    };
    let after = start + field.width();
    into.clear();
    into.extend(&image[..start]);
    into.extend(number.bytes());
    into.extend(before_field(&image[after..]));
    Ok(())
}

/// A number in a field, None where it doesn't fit.
fn filled_number(field: &Field<'_>, x: Dec) -> Option<Bytes>
    requires { field_width field.now ≤ 255 }
    ensures text { result ≡ (if fits field.now x then Some (number_filled field.now x) else None) }
    ensures width { IfSome result (λ text. length text ≡ field_width field.now) }
{
    let mut buffer = [0; 255];
    let text = &mut buffer[..field.width()];
    if fill_number(field, x, text) {
        Bytes::of(text)
    } else {
        None
    }
}

/// The bytes of an image before its first field.
fn before_field(image: &[u8]) -> &[u8]
    ensures text { result.now ≡ spec.line (pieces_of image.now) [] }
    ensures within { length result.now ≤ length image.now }
{
    match first_field(image) {
        Some((at, _)) => &image[..at],
        None => image,
    }
}
