// What is typed: numbers with blanks round them, and the parts of a line.
ghost use Rattle.std.specs.Prelude.{◌≡◌, ◌≤◌, length};
ghost use Rattle.std.specs.List.{prefix_len};
ghost use Rattle.b2_stmt_io.specs.TypedText as spec;

use b2_base::Code;
use b2_base::codes::X73_NOT_A_NUMBER;
use b2_base::lexical::{rest_after, skip_blanks};
use b2_dec::Dec;
use b2_dectext::read;

/// The number that a text is with blanks before and after it, X73 where it isn't one or is out of range.
pub fn typed_number(text: &[u8]) -> Result<Dec, Code>
    ensures { result ≡ spec.typed_number text.now }
{
    let begun = skip_blanks(text);
    let (width, number) = read(begun);
    if !skip_blanks(rest_after(begun, width)).is_empty() {
        return Err(Code::known(X73_NOT_A_NUMBER));
    }
    match number {
        Some(x) => Ok(x),
        None => Err(Code::known(X73_NOT_A_NUMBER)),
    }
}

/// How many bytes of a line its first part is.
pub fn part_width(line: &[u8]) -> usize
    ensures width { result ≡ prefix_len spec.is_within_part line.now }
    ensures within { result ≤ length line.now }
{
    line.iter().take_while(|b| **b != b',').count()
}
