// Alpha operands that evaluate nothing, put after other bytes.
ghost use Rattle.std.specs.Prelude.{◌≡◌, ◌≤◌, [], true, length, MatchResult, Ok, Err};
ghost use Rattle.b2_atom.specs.declared.rows.TheConstants as row;
ghost use Rattle.b2_rows.specs.Rows.{is_phrase, tree_at, after_phrase};
ghost use Rattle.b2_expr.specs.Functions.{joined_number, joined_text};
ghost use Rattle.b2_expr.specs.Reads.{Appends};
ghost use Rattle.b2_expr.specs.Value.{bytes_of_part, hex_bytes, literal_bytes, pairs_of};

use crate::functions::{binary_bytes, whole_between};
use b2_atom::literal_width;
use b2_base::Code;
use b2_base::codes::X72_TOO_LONG;
use b2_base::lexical::{first_bytes, rest_after};
use b2_dec::{Bytes, Dec};
use b2_rows::{hex_byte_at, is_hex_at};

/// Puts bytes after others, X72 where they are more than 255.
pub fn join_text(bytes: &[u8], into: &mut Bytes) -> Result<(), Code>
    ensures { MatchResult result (λ done. joined_text into.old bytes.now ≡ Ok into.new) (λ code. joined_text into.old bytes.now ≡ Err code) }
{
    if bytes.len() + into.len() > 255 {
        return Err(Code::known(X72_TOO_LONG));
    }
    into.extend(bytes);
    Ok(())
}

/// Bytes in quotes.
#[tactic(auto, using(crate::proofs::Texts::quoted_here, crate::proofs::Texts::quoted_is, crate::proofs::Texts::quoted_rest))]
pub fn quoted_at<'a>(text: &'a [u8], into: &mut Bytes) -> Result<&'a [u8], Code>
    requires phrase { is_phrase row.LITERAL text.now ≡ true }
    ensures { Appends (literal_bytes (tree_at row.LITERAL text.now)) (after_phrase row.LITERAL text.now) into.old into.new result }
{
    match join_text(b2_rows::quoted_at(text), into) {
        Ok(()) => Ok(rest_after(text, literal_width(text))),
        Err(code) => Err(code),
    }
}

/// The bytes of pairs of hexadecimal digits, of which there is one at least, and what stands after them.
#[tactic(auto, using(crate::proofs::Pairs::pairs_here, crate::proofs::Pairs::pairs_list, crate::proofs::Pairs::pairs_is, crate::proofs::Pairs::pairs_rest, crate::proofs::Pairs::pair_here, crate::proofs::Pairs::pair_list, crate::proofs::Pairs::pair_is, crate::proofs::Pairs::pair_rest, crate::proofs::Pairs::pair_shorter, crate::proofs::Pairs::none_is, crate::proofs::Pairs::none_rest, crate::proofs::Pairs::pairs_room, crate::proofs::Pairs::pair_room, crate::proofs::Pairs::one_more))]
fn pairs_at<'a>(text: &'a [u8], into: &mut Bytes) -> &'a [u8]
    requires phrase { is_phrase row.HEX_PAIRS text.now ≡ true }
    requires empty { into.old ≡ [] }
    ensures bytes { pairs_of (tree_at row.HEX_PAIRS text.now) ≡ Ok into.new }
    ensures rest { result.now ≡ after_phrase row.HEX_PAIRS text.now }
{
    into.push(hex_byte_at(text));
    let mut left = rest_after(text, 2);
    while is_hex_at(left) {
        into.push(hex_byte_at(left));
        left = rest_after(left, 2);
    }
    left
}

/// HEX.
#[tactic(auto, using(crate::proofs::Texts::hex_pairs, crate::proofs::Texts::hex_is, crate::proofs::Texts::hex_rest))]
pub fn hex_at<'a>(text: &'a [u8], into: &mut Bytes) -> Result<&'a [u8], Code>
    requires phrase { is_phrase row.HEX text.now ≡ true }
    ensures { Appends (hex_bytes (tree_at row.HEX text.now)) (after_phrase row.HEX text.now) into.old into.new result }
{
    let mut bytes = Bytes::new();
    let rest = pairs_at(rest_after(text, 1), &mut bytes);
    match join_text(bytes.bytes(), into) {
        Ok(()) => Ok(rest_after(rest, 1)),
        Err(code) => Err(code),
    }
}

/// The bytes from one place on, and as many as are counted, or all: P34 where they aren't there.
pub fn bytes_of_part(bytes: &[u8], from: Dec, count: Option<Dec>) -> Result<&[u8], Code>
    requires short { length bytes.now ≤ 124 }
    ensures { MatchResult result (λ part. bytes_of_part bytes.now from count ≡ Ok part.now) (λ code. bytes_of_part bytes.now from count ≡ Err code) }
{
    let length = bytes.len() as u8;
    let from = whole_between(1, length, from)?;
    let left = rest_after(bytes, usize::from(from) - 1);
    match count {
        None => Ok(left),
        Some(count) => {
            let count = whole_between(1, left.len() as u8, count)?;
            Ok(first_bytes(left, usize::from(count)))
        }
    }
}

/// Puts a number without its fraction after other bytes, in `count` bytes of its own.
pub fn join_number(number: Dec, count: u8, into: &mut Bytes) -> Result<(), Code>
    requires few { count ≤ 4 }
    ensures { MatchResult result (λ done. joined_number count number into.old ≡ Ok into.new) (λ code. joined_number count number into.old ≡ Err code) }
{
    let mut bytes = [0; 4];
    let part = &mut bytes[..usize::from(count)];
    match binary_bytes(number, part) {
        Ok(()) => join_text(part, into),
        Err(code) => Err(code),
    }
}
