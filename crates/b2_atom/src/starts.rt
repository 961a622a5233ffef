// What begins a part, and which statement begins.
ghost use Rattle.std.specs.Prelude.{◌≡◌, ◌≢◌, ◌<◌, IfErr, MatchResult};
ghost use Rattle.b2_atom.specs.Words as words;
ghost use Rattle.b2_atom.specs.Grammar as spec;

use crate::forms::{Form, Position, Rule, Start};
use crate::leaves::{any_name_width, is_alpha_name, refused};
use crate::output::Stop;
use crate::rows;
use crate::table::FORMS;
use crate::words::{
    ABS_OPEN, AT_OPEN, BIN_OPEN, BOX_OPEN, FN, HASH_TERM, HEX_OPEN, HEXOF_OPEN, LINE_MARK, Origin,
    STR_OPEN, TAB_OPEN, ahead, begins_with, is_source, kept_byte, short_stands, skipped,
};
use b2_base::codes;
use b2_base::lexical::{at, first, is_digit, is_hex_digit, is_letter, rest_after};

fn is_among(low: u8, high: u8, class: u8) -> bool
    ensures { result ≡ spec.is_among low high class }
{
    class >= low && class <= high
}

fn is_line(origin: Origin, class: u8) -> bool
    ensures { result ≡ spec.is_line origin class }
{
    if is_source(origin) {
        is_digit(class)
    } else {
        class == LINE_MARK
    }
}

fn alpha_begins(origin: Origin, text: &[u8]) -> bool
    ensures { result ≡ spec.alpha_begins origin text.now }
{
    let class = ahead(origin, text).0;
    class == b'"' || is_among(HEX_OPEN, BIN_OPEN, class) || is_alpha_name(origin, text)
}

fn is_numeric_sign(class: u8) -> bool
    ensures { result ≡ spec.is_numeric_sign class }
{
    class == b'+'
        || class == b'-'
        || class == b'.'
        || class == b'('
        || is_digit(class)
        || class == FN
        || is_among(ABS_OPEN, HASH_TERM, class)
}

fn begins_name(class: u8) -> bool
    ensures { result ≡ spec.begins_name class }
{
    is_letter(class) || class == b'@'
}

fn numeric_begins(origin: Origin, text: &[u8]) -> bool
    ensures { result ≡ spec.numeric_begins origin text.now }
{
    let class = ahead(origin, text).0;
    is_numeric_sign(class) || (begins_name(class) && !is_alpha_name(origin, text))
}

fn array_begins(origin: Origin, text: &[u8]) -> bool
    ensures { result ≡ spec.starts_at origin Start.Array text.now }
{
    let width = any_name_width(origin, text);
    let after = skipped(origin, rest_after(text, width));
    width > 0 && first(after) == b'(' && first(skipped(origin, rest_after(after, 1))) == b')'
}

fn variable_begins(origin: Origin, text: &[u8]) -> bool
    ensures { result ≡ spec.variable_begins origin text.now }
{
    let class = ahead(origin, text).0;
    begins_name(class) || class == STR_OPEN
}

fn spelled_after(origin: Origin, text: &[u8], second: u8, third: u8) -> bool
    ensures { result ≡ spec.spelled_after origin text.now second third }
{
    kept_byte(origin, at(text, 0)) == second && kept_byte(origin, at(text, 1)) == third
}

fn class_at(origin: Origin, text: &[u8]) -> u8
    ensures { result ≡ spec.class_at origin text.now }
{
    ahead(origin, skipped(origin, text)).0
}

fn print_item_begins(origin: Origin, text: &[u8]) -> bool
    ensures { result ≡ spec.starts_at origin Start.PrintItem text.now }
{
    is_among(TAB_OPEN, HEXOF_OPEN, ahead(origin, text).0)
        || is_among(AT_OPEN, BOX_OPEN, ahead(origin, text).0)
        || numeric_begins(origin, text)
        || alpha_begins(origin, text)
}

/// Whether what begins a part stands at a text without blanks at its front, of which what comes first is known.
fn starts_by(origin: Origin, start: Start, class: u8, after: &[u8], text: &[u8]) -> bool
    requires class { class ≡ (words.ahead origin text.now).0 }
    requires after { after.now ≡ (words.ahead origin text.now).1 }
    ensures { result ≡ spec.starts_at origin start text.now }
{
    match start {
        Start::Code(code) => class == code,
        Start::Two(one, two) => class == one || class == two,
        Start::Three(one, two, three) => class == one || class == two || class == three,
        Start::Among(low, high) => is_among(low, high, class),
        Start::Pair(one, next) => class == one && class_at(origin, after) == next,
        Start::Letters(one, second, third) => {
            class == one && spelled_after(origin, after, second, third)
        }
        Start::ShortAfter(one, short) => {
            class == one && short_stands(origin, short, skipped(origin, after))
        }
        Start::Number => is_digit(class) || class == b'.',
        Start::Line => is_line(origin, class),
        Start::Numeric => numeric_begins(origin, text),
        Start::Alpha => alpha_begins(origin, text),
        Start::Hex => is_hex_digit(kept_byte(origin, first(text))),
        Start::Array => array_begins(origin, text),
        Start::AlphaInside => class == b'(' && alpha_begins(origin, skipped(origin, after)),
        Start::CommaOrAlpha => class == b',' || alpha_begins(origin, text),
        Start::PrintItem => print_item_begins(origin, text),
    }
}

/// Whether a part begins at a text.
#[tactic(auto, unfolding(crate::specs::Grammar::starts))]
pub fn begins(origin: Origin, start: Start, text: &[u8]) -> bool
    ensures { result ≡ spec.starts origin start text.now }
{
    let here = skipped(origin, text);
    let (class, after) = ahead(origin, here);
    starts_by(origin, start, class, after, here)
}

fn barred_following(position: Position, rule: Rule) -> bool
    ensures { result ≡ spec.barred_following position rule }
{
    position == Position::Following && rule == Rule::AfterColon
}

fn barred_line(origin: Origin, rule: Rule) -> bool
    ensures { result ≡ spec.barred_line origin rule }
{
    match (origin, rule) {
        (Origin::Immediate, Rule::Program | Rule::FirstInProgram) => true,
        (Origin::Program, Rule::Immediate) => true,
        _ => false,
    }
}

fn barred_position(position: Position, rule: Rule) -> bool
    ensures { result ≡ spec.barred_position position rule }
{
    match (position, rule) {
        (Position::First, Rule::AfterColon) => true,
        (Position::Further | Position::Following, Rule::First | Rule::FirstInProgram) => true,
        _ => false,
    }
}

/// The row of a form, where its rule allows it.
fn allowed(origin: Origin, position: Position, form: &Form, text: &[u8]) -> Result<u16, Stop>
    ensures row { result ≡ spec.allowed origin position form.now text.now }
    ensures known { IfErr result (λ e. e ≢ Stop.NoMemory) }
{
    if barred_following(position, form.rule) {
        Err(Stop::At(codes::S14_STATEMENT, text.len()))
    } else if barred_line(origin, form.rule) {
        Err(Stop::At(codes::S26_PROGRAM_ONLY, text.len()))
    } else if barred_position(position, form.rule) {
        Err(Stop::At(codes::S28_PLACE_ON_LINE, text.len()))
    } else {
        Ok(form.row)
    }
}

/// The row of the first form that begins, and else of an assignment.
#[tactic(auto, unfolding(crate::specs::Grammar::starts))]
fn row_at(forms: &[Form], origin: Origin, position: Position, text: &[u8]) -> Result<u16, Stop>
    ensures row { result ≡ spec.row_at forms.now origin position text.now }
    ensures known { IfErr result (λ e. e ≢ Stop.NoMemory) }
{
    let here = skipped(origin, text);
    let (class, after) = ahead(origin, here);
    let mut left = forms;
    while let [form, others @ ..] = left {
        if starts_by(origin, form.start, class, after, here) {
            return allowed(origin, position, form, text);
        }
        left = others;
    }
    if variable_begins(origin, text) {
        return Ok(rows::ASSIGNMENT);
    }
    Err(refused(origin, codes::S14_STATEMENT, text))
}

/// The row of a statement at a text, and where to read it.
#[tactic(auto, unfolding(crate::specs::Grammar::statement_row))]
pub fn statement_row(origin: Origin, position: Position, text: &[u8]) -> Result<(u16, &[u8]), Stop>
    ensures known { IfErr result (λ e. e ≢ Stop.NoMemory) }
    ensures row { MatchResult result (λ r. spec.statement_row origin position text.now ≡ Ok (r.0, r.1.now)) (λ e. spec.statement_row origin position text.now ≡ Err e) }
{
    let here = skipped(origin, text);
    if is_source(origin) && begins_with(b"LET", here) {
        return Ok((rows::ASSIGNMENT, rest_after(here, 3)));
    }
    let row = row_at(&FORMS, origin, position, here)?;
    Ok((row, here))
}
