// The image of PACK.
ghost use Rattle.std.specs.Prelude.{◌≡◌, ◌<◌, ◌≤◌, IfSome, is_some};
ghost use Rattle.b2_pack.specs.Images as spec;

use crate::rows::{Row, SignNibble};
use b2_dectext::{Sign, marks_len, split_sign};

/// How many `#` follow a point, where a text is nothing else; none where it is empty.
fn decimals_in(text: &[u8]) -> Option<usize>
    ensures { result ≡ spec.decimals_in text.now }
{
    match text {
        [] => Some(0),
        [b'.', marks @ ..] => {
            if marks.len() >= 1 && marks_len(marks) == marks.len() {
                Some(marks.len())
            } else {
                None
            }
        }
        _ => None,
    }
}

/// The row in which an image packs a number; None where the bytes are no image.
pub(crate) fn image_row(text: &[u8]) -> Option<Row>
    ensures row { result ≡ spec.image_row text.now }
    ensures digits { IfSome result (λ row. row.digits ≤ 13) }
    ensures decimals { IfSome result (λ row. row.decimals < row.digits) }
{
    let (sign, marks) = split_sign(text);
    let whole = marks_len(marks);
    let decimals = decimals_in(&marks[whole..])?;
    if whole < 1 || whole > 13 || decimals > 13 - whole {
        return None;
    }
    Some(Row {
        sign: if sign == Sign::Unsigned {
            SignNibble::Absent
        } else {
            SignNibble::Before
        },
        digits: (whole + decimals) as u16,
        decimals: decimals as u8,
    })
}

/// Whether bytes are an image of PACK.
pub fn is_image(text: &[u8]) -> bool
    ensures { result ≡ is_some (spec.image_row text.now) }
{
    image_row(text).is_some()
}
