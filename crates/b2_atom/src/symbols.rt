// The items that stand for themselves: words, signs, what is typed by hand, the line's end.
ghost use Rattle.std.specs.Prelude.{◌≡◌, ◌≤◌, ◌<◌, ◌+◌};
ghost use Rattle.b2_atom.specs.Tree.{seen_output, Takes};
ghost use Rattle.b2_atom.specs.Tree.Trees.{Done};
ghost use Rattle.b2_atom.specs.Grammar as spec;

use crate::forms::{Item, Leaf};
use crate::leaves::{leaf_width, missing, refused};
use crate::output::{Output, Stop, put_code, put_line_number, put_short, put_text};
use crate::words::{LINE_MARK, Origin, ahead, is_source, short_stands, short_width, skipped};
use b2_base::codes;
use b2_base::lexical::{all_printable, at, digits_width, first_bytes, is_decimal, rest_after};

/// Reads a word or a sign.
#[tactic(auto, unfolding(crate::specs::Grammar::symbol))]
fn symbol<'a>(
    out: &mut Output,
    origin: Origin,
    wanted: u8,
    code: u8,
    text: &'a [u8],
) -> Result<&'a [u8], Stop>
    ensures { Takes (seen_output out.old) (spec.symbol origin wanted code text.now) (seen_output out.new) result }
{
    let here = skipped(origin, text);
    let (class, after) = ahead(origin, here);
    if class != wanted {
        return Err(refused(origin, code, here));
    }
    put_code(out, wanted)?;
    Ok(after)
}

/// Reads one of the words from the first to the second.
#[tactic(auto, unfolding(crate::specs::Grammar::among))]
fn among<'a>(
    out: &mut Output,
    origin: Origin,
    low: u8,
    high: u8,
    code: u8,
    text: &'a [u8],
) -> Result<&'a [u8], Stop>
    ensures { Takes (seen_output out.old) (spec.among origin low high code text.now) (seen_output out.new) result }
{
    let here = skipped(origin, text);
    let (class, after) = ahead(origin, here);
    if class < low || class > high {
        return Err(refused(origin, code, here));
    }
    put_code(out, class)?;
    Ok(after)
}

/// Reads a word that an immediate line may not have.
#[tactic(auto, unfolding(crate::specs::Grammar::program_word))]
fn program_word<'a>(
    out: &mut Output,
    origin: Origin,
    wanted: u8,
    text: &'a [u8],
) -> Result<&'a [u8], Stop>
    ensures { Takes (seen_output out.old) (spec.program_word origin wanted text.now) (seen_output out.new) result }
{
    let here = skipped(origin, text);
    let (class, after) = ahead(origin, here);
    if class != wanted {
        return Err(refused(origin, codes::S22_WORD, here));
    }
    if origin == Origin::Immediate {
        return Err(Stop::At(codes::S26_PROGRAM_ONLY, here.len()));
    }
    put_code(out, wanted)?;
    Ok(after)
}

/// Reads a short word.
#[tactic(auto, unfolding(crate::specs::Grammar::short_word))]
fn short_word<'a>(
    out: &mut Output,
    origin: Origin,
    wanted: u8,
    text: &'a [u8],
) -> Result<&'a [u8], Stop>
    ensures { Takes (seen_output out.old) (spec.short_word origin wanted text.now) (seen_output out.new) result }
{
    let here = skipped(origin, text);
    if !short_stands(origin, wanted, here) {
        return Err(refused(origin, codes::S22_WORD, here));
    }
    put_short(out, wanted)?;
    Ok(rest_after(here, short_width(origin)))
}

/// Reads a comma, which a source may leave out.
#[tactic(auto, unfolding(crate::specs::Grammar::optional_comma))]
fn optional_comma<'a>(out: &mut Output, origin: Origin, text: &'a [u8]) -> Result<&'a [u8], Stop>
    ensures { Takes (seen_output out.old) (spec.optional_comma origin text.now) (seen_output out.new) result }
{
    let here = skipped(origin, text);
    let (class, after) = ahead(origin, here);
    if class == b',' {
        put_code(out, b',')?;
        return Ok(after);
    }
    if !is_source(origin) {
        return Err(refused(origin, codes::S13_SEPARATOR, here));
    }
    put_code(out, b',')?;
    Ok(text)
}

/// Skips a word that isn't kept.
#[tactic(auto, unfolding(crate::specs::Grammar::ignored))]
fn ignored(origin: Origin, word: u8, text: &[u8]) -> &[u8]
    ensures { spec.ignored origin word text.now ≡ Ok (Done, result.now) }
{
    let (class, after) = ahead(origin, skipped(origin, text));
    if is_source(origin) && class == word {
        after
    } else {
        text
    }
}

/// A digit of a line number, which is right aligned in four.
fn line_digit(text: &[u8], count: usize, index: usize) -> u8
    requires few { count ≤ 4 }
    requires inside { index < 4 }
    ensures { result ≡ spec.line_digit text.now count index }
{
    if index + count < 4 {
        0
    } else {
        at(text, index + count - 4).saturating_sub(48)
    }
}

/// Two digits of a line number in a byte.
fn two_digits(text: &[u8], count: usize, index: usize) -> u8
    requires few { count ≤ 4 }
    requires inside { index < 3 }
    ensures { result ≡ spec.two_digits text.now count index }
{
    let high = line_digit(text, count, index).min(9);
    let low = line_digit(text, count, index + 1).min(9);
    high * 16 + low
}

/// Reads a line number that was typed.
fn typed_line_number<'a>(
    out: &mut Output,
    origin: Origin,
    code: u8,
    text: &'a [u8],
) -> Result<&'a [u8], Stop>
    ensures { Takes (seen_output out.old) (spec.typed_line_number origin code text.now) (seen_output out.new) result }
{
    let count = digits_width(text);
    if count < 1 || count > 4 {
        return Err(refused(origin, code, text));
    }
    put_line_number(out, two_digits(text, count, 0), two_digits(text, count, 2))?;
    Ok(rest_after(text, count))
}

/// Reads a line number from atoms.
fn atoms_line_number<'a>(out: &mut Output, code: u8, text: &'a [u8]) -> Result<&'a [u8], Stop>
    ensures { Takes (seen_output out.old) (spec.atoms_line_number code text.now) (seen_output out.new) result }
{
    let [LINE_MARK, high, low, rest @ ..] = text else {
        return Err(Stop::At(code, text.len()));
    };
    if !is_decimal(*high) || !is_decimal(*low) {
        return Err(Stop::At(code, text.len()));
    }
    put_line_number(out, *high, *low)?;
    Ok(rest)
}

/// Reads a line number.
fn line_number<'a>(
    out: &mut Output,
    origin: Origin,
    code: u8,
    text: &'a [u8],
) -> Result<&'a [u8], Stop>
    ensures { Takes (seen_output out.old) (spec.line_number_at origin code text.now) (seen_output out.new) result }
{
    match origin {
        Origin::Program | Origin::Immediate => typed_line_number(out, origin, code, text),
        Origin::Atoms => atoms_line_number(out, code, text),
    }
}

/// Reads everything to the line's end.
fn text_to_end<'a>(out: &mut Output, code: u8, text: &'a [u8]) -> Result<&'a [u8], Stop>
    ensures { Takes (seen_output out.old) (spec.text_to_end code text.now) (seen_output out.new) result }
{
    if !all_printable(text) {
        return Err(Stop::At(code, text.len()));
    }
    if !text.is_empty() {
        put_text(out, Origin::Atoms, Leaf::Text, text)?;
    }
    Ok(&[])
}

/// Reads a leaf by its width.
fn plain<'a>(
    out: &mut Output,
    origin: Origin,
    leaf: Leaf,
    code: u8,
    text: &'a [u8],
) -> Result<&'a [u8], Stop>
    ensures { Takes (seen_output out.old) (spec.plain origin leaf code text.now) (seen_output out.new) result }
{
    let width = leaf_width(origin, leaf, text);
    if width == 0 {
        return Err(missing(origin, leaf, code, text));
    }
    put_text(out, origin, leaf, first_bytes(text, width))?;
    Ok(rest_after(text, width))
}

/// Reads what is typed by hand.
#[tactic(auto, unfolding(crate::specs::Grammar::read_leaf))]
fn read_leaf<'a>(
    out: &mut Output,
    origin: Origin,
    leaf: Leaf,
    code: u8,
    text: &'a [u8],
) -> Result<&'a [u8], Stop>
    ensures { Takes (seen_output out.old) (spec.read_leaf origin leaf code text.now) (seen_output out.new) result }
{
    match leaf {
        Leaf::LineNumber => line_number(out, origin, code, skipped(origin, text)),
        Leaf::Text => text_to_end(out, code, text),
        _ => plain(out, origin, leaf, code, skipped(origin, text)),
    }
}

/// Reads the line's end.
#[tactic(auto, unfolding(crate::specs::Grammar::end_of_line))]
fn end_of_line<'a>(out: &mut Output, origin: Origin, text: &'a [u8]) -> Result<&'a [u8], Stop>
    ensures { Takes (seen_output out.old) (spec.end_of_line origin text.now) (seen_output out.new) result }
{
    let here = skipped(origin, text);
    if here.is_empty() {
        Ok(here)
    } else {
        Err(refused(origin, codes::S25_END, here))
    }
}

/// Reads an item that stands for itself.
pub fn read_item<'a>(
    out: &mut Output,
    origin: Origin,
    item: Item,
    text: &'a [u8],
) -> Result<&'a [u8], Stop>
    ensures { Takes (seen_output out.old) (spec.read_item origin item text.now) (seen_output out.new) result }
{
    match item {
        Item::Word(word) => symbol(out, origin, word, codes::S22_WORD, text),
        Item::Sign(sign, code) => symbol(out, origin, sign, code, text),
        Item::Among(low, high, code) => among(out, origin, low, high, code, text),
        Item::ProgramWord(word) => program_word(out, origin, word, text),
        Item::Ignored(word) => Ok(ignored(origin, word, text)),
        Item::ShortWord(word) => short_word(out, origin, word, text),
        Item::Comma => optional_comma(out, origin, text),
        Item::LeftOut => Err(Stop::At(codes::S27_LEFT_OUT, skipped(origin, text).len())),
        Item::End => end_of_line(out, origin, text),
        Item::Typed(leaf, code) => read_leaf(out, origin, leaf, code, text),
        Item::Part(_)
        | Item::Maybe(_, _)
        | Item::Either(_, _, _)
        | Item::Many(_, _)
        | Item::Nest(_)
        | Item::Statement(_) => Err(Stop::At(codes::S14_STATEMENT, 0)),
    }
}
