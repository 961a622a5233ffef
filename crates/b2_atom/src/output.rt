// Where what is read goes to, and why a reading ends early.
ghost use Rattle.std.specs.Prelude.{◌≡◌, ◌+◌, ◌++◌, [], IfErr, OnOk, map, false};
ghost use Rattle.b2_base.specs.Lexical as lexical;
ghost use Rattle.b2_atom.specs.Words.{kept_byte};
ghost use Rattle.b2_atom.specs.Tokens as tokens;
ghost use Rattle.b2_atom.specs.Tokens.{kept_text, maybe_spaced};
ghost use Rattle.b2_atom.specs.Tokens.Token.{Coded, Short, Plain, Lined};
ghost use Rattle.b2_atom.specs.Tree.{seen_output, bytes_of, noted, Puts};

use crate::forms::Leaf;
use crate::words::{FN, LINE_MARK, Origin, REM, kept_byte, short_text, word_text};
use b2_base::lexical::{at, first, is_letter, without_zeros};
use std::alloc::{AllocError, AllocFailed, Global};

/// A source that is being written, and whether a word that ends in a letter and whether an operand stands at its end.
#[derive(Drop)]
pub struct Source {
    pub bytes: Vec<u8>,
    pub wordy: bool,
    pub operand: bool,
}

/// What a unit uses beside variables of its own partition.
#[derive(Clone, Copy)]
pub struct Uses {
    /// Whether an `@` name stands in it.
    pub globals: bool,
    /// Whether FN stands in it.
    pub functions: bool,
}

impl Uses {
    /// Neither.
    pub fn nothing() -> Uses
        ensures { result ≡ record { globals = false; functions = false } }
    {
        Uses {
            globals: false,
            functions: false,
        }
    }
}

/// Where what is read goes to: nowhere; into a note of what is used; as atoms after the bytes that are there; or as the
/// canonical source.
#[derive(Drop)]
pub enum Output {
    Silent,
    Noted(Uses),
    Written(Vec<u8>),
    Listed(Source),
}

/// Why a reading ends early: a code and how many bytes are left there, too many parentheses, or that memory fails.
#[derive(Clone, Copy)]
pub enum Stop {
    At(u8, usize),
    Deep,
    NoMemory,
}

impl From<AllocError> for Stop {
    ghost use Rattle.std.specs.Prelude.{◌≡◌};
    ghost use Rattle.b2_atom.specs.declared.output.Stop.TheVariants.{NoMemory};

    ghost from_gives = { λ _ e. e ≡ NoMemory };

    fn from(_: AllocError) -> Stop {
        Stop::NoMemory
    }
}

impl<T: Drop> From<AllocFailed<T>> for Stop {
    ghost use Rattle.std.specs.Prelude.{◌≡◌};
    ghost use Rattle.b2_atom.specs.declared.output.Stop.TheVariants.{NoMemory};

    ghost from_gives = { λ _ e. e ≡ NoMemory };

    fn from(_: AllocFailed<T>) -> Stop {
        Stop::NoMemory
    }
}

/// Appends bytes as they are kept.
fn push_kept(out: &mut Vec<u8>, origin: Origin, leaf: Leaf, bytes: &[u8]) -> Result<(), Stop>
    ensures ok { OnOk result (out.new.items ≡ out.old.items ++ kept_text origin leaf bytes.now) }
    ensures err { IfErr result (λ e. e ≡ Stop.NoMemory) }
{
    if leaf == Leaf::Literal || leaf == Leaf::Text {
        out.extend_from_slice(bytes)?;
        return Ok(());
    }
    push_upper(out, origin, bytes)
}

fn push_upper(out: &mut Vec<u8>, origin: Origin, bytes: &[u8]) -> Result<(), Stop>
    ensures ok { OnOk result (out.new.items ≡ out.old.items ++ map (kept_byte origin) bytes.now) }
    ensures err { IfErr result (λ e. e ≡ Stop.NoMemory) }
{
    let mut left = bytes;
    while let [byte, others @ ..] = left {
        out.push(kept_byte(origin, *byte))?;
        left = others;
    }
    Ok(())
}

/// The first byte of what is typed by hand, as it is kept; 0 where there is none.
fn first_kept(origin: Origin, leaf: Leaf, bytes: &[u8]) -> u8
    ensures { result ≡ lexical.first (kept_text origin leaf bytes.now) }
{
    if leaf == Leaf::Literal || leaf == Leaf::Text {
        return first(bytes);
    }
    first_upper(origin, bytes)
}

fn first_upper(origin: Origin, bytes: &[u8]) -> u8
    ensures { result ≡ lexical.first (map (kept_byte origin) bytes.now) }
{
    match bytes {
        [byte, ..] => kept_byte(origin, *byte),
        [] => 0,
    }
}

/// Appends a blank, where one stands before a token.
fn push_gap(source: &mut Source, is_apart: bool) -> Result<(), Stop>
    ensures bytes { OnOk result (source.new.bytes.items ≡ source.old.bytes.items ++ maybe_spaced is_apart []) }
    ensures wordy { source.new.wordy ≡ source.old.wordy }
    ensures operand { source.new.operand ≡ source.old.operand }
    ensures err { IfErr result (λ e. e ≡ Stop.NoMemory) }
{
    if is_apart {
        source.bytes.push(b' ')?;
    }
    Ok(())
}

fn last(text: &[u8]) -> u8
    ensures { result ≡ tokens.last text.now }
{
    at(text, text.len().saturating_sub(1))
}

fn is_closing(code: u8) -> bool
    ensures { result ≡ tokens.is_closing code }
{
    code == b':' || code == b',' || code == b';' || code == b')' || code == b'=' || code == b'/'
}

fn begins_wordy(code: u8) -> bool
    ensures { result ≡ tokens.begins_wordy (Coded code) }
{
    code >= REM && is_letter(first(word_text(code)))
}

fn ends_wordy(code: u8) -> bool
    ensures { result ≡ tokens.ends_wordy (Coded code) }
{
    code >= REM && code != REM && is_letter(last(word_text(code)))
}

/// Appends a word or a sign to a source.
fn list_code(source: &mut Source, code: u8) -> Result<(), Stop>
    ensures { Puts (seen_output (Output.Listed source.old)) (Coded code) (seen_output (Output.Listed source.new)) result }
{
    let is_apart = source.wordy && !is_closing(code) || source.operand && begins_wordy(code);
    push_gap(source, is_apart)?;
    if code >= REM {
        source.bytes.extend_from_slice(word_text(code))?;
    } else {
        source.bytes.push(code)?;
    }
    source.wordy = ends_wordy(code);
    source.operand = code == b')' || is_letter(code);
    Ok(())
}

/// Appends a short word to a source.
fn list_short(source: &mut Source, code: u8) -> Result<(), Stop>
    ensures { Puts (seen_output (Output.Listed source.old)) (Short code) (seen_output (Output.Listed source.new)) result }
{
    let is_apart = source.wordy || source.operand;
    push_gap(source, is_apart)?;
    source.bytes.extend_from_slice(short_text(code))?;
    source.wordy = true;
    source.operand = false;
    Ok(())
}

/// Whether a blank stands before what is typed by hand.
fn is_text_apart(source: &Source, origin: Origin, leaf: Leaf, bytes: &[u8]) -> bool
    ensures { result ≡ tokens.is_apart source.now.wordy source.now.operand (Plain leaf (kept_text origin leaf bytes.now)) }
{
    source.wordy && !is_closing(first_kept(origin, leaf, bytes))
}

/// Appends what is typed by hand to a source.
fn list_text(source: &mut Source, origin: Origin, leaf: Leaf, bytes: &[u8]) -> Result<(), Stop>
    ensures { Puts (seen_output (Output.Listed source.old)) (Plain leaf (kept_text origin leaf bytes.now)) (seen_output (Output.Listed source.new)) result }
{
    let is_apart = is_text_apart(source, origin, leaf, bytes);
    push_gap(source, is_apart)?;
    push_kept(&mut source.bytes, origin, leaf, bytes)?;
    source.wordy = false;
    source.operand = leaf != Leaf::Relation && leaf != Leaf::Text;
    Ok(())
}

/// Appends a line number to a source.
fn list_line(source: &mut Source, high: u8, low: u8) -> Result<(), Stop>
    ensures { Puts (seen_output (Output.Listed source.old)) (Lined high low) (seen_output (Output.Listed source.new)) result }
{
    let is_apart = source.wordy;
    push_gap(source, is_apart)?;
    let digits = [
        b'0' + high / 16,
        b'0' + high % 16,
        b'0' + low / 16,
        b'0' + low % 16,
    ];
    source.bytes.extend_from_slice(without_zeros(&digits))?;
    source.wordy = false;
    source.operand = true;
    Ok(())
}

/// Whether what is typed by hand is a name that begins with `@`.
fn is_global_name(origin: Origin, leaf: Leaf, bytes: &[u8]) -> bool
    ensures { result ≡ tokens.is_global_name (Plain leaf (kept_text origin leaf bytes.now)) }
{
    match leaf {
        Leaf::Name | Leaf::AlphaName | Leaf::LocalName => first_kept(origin, leaf, bytes) == b'@',
        _ => false,
    }
}

/// Puts a word or a sign.
pub fn put_code(output: &mut Output, code: u8) -> Result<(), Stop>
    ensures { Puts (seen_output output.old) (Coded code) (seen_output output.new) result }
{
    match output {
        Output::Silent => Ok(()),
        Output::Noted(uses) => {
            uses.functions = uses.functions || code == FN;
            Ok(())
        }
        Output::Written(bytes) => {
            bytes.push(code)?;
            Ok(())
        }
        Output::Listed(source) => list_code(source, code),
    }
}

/// Puts a short word.
pub fn put_short(output: &mut Output, code: u8) -> Result<(), Stop>
    ensures { Puts (seen_output output.old) (Short code) (seen_output output.new) result }
{
    match output {
        Output::Silent | Output::Noted(_) => Ok(()),
        Output::Written(bytes) => {
            bytes.push(code)?;
            Ok(())
        }
        Output::Listed(source) => list_short(source, code),
    }
}

/// Puts what is typed by hand.
pub fn put_text(output: &mut Output, origin: Origin, leaf: Leaf, bytes: &[u8]) -> Result<(), Stop>
    ensures { Puts (seen_output output.old) (Plain leaf (kept_text origin leaf bytes.now)) (seen_output output.new) result }
{
    match output {
        Output::Silent => Ok(()),
        Output::Noted(uses) => {
            uses.globals = uses.globals || is_global_name(origin, leaf, bytes);
            Ok(())
        }
        Output::Written(out) => push_kept(out, origin, leaf, bytes),
        Output::Listed(source) => list_text(source, origin, leaf, bytes),
    }
}

/// Puts a line number, by its two bytes of decimal digits.
pub fn put_line_number(output: &mut Output, high: u8, low: u8) -> Result<(), Stop>
    ensures { Puts (seen_output output.old) (Lined high low) (seen_output output.new) result }
{
    match output {
        Output::Silent | Output::Noted(_) => Ok(()),
        Output::Written(out) => {
            out.extend_from_slice(&[LINE_MARK, high, low])?;
            Ok(())
        }
        Output::Listed(source) => list_line(source, high, low),
    }
}

/// The bytes of an output.
pub fn bytes_of(alloc: Global, output: Output) -> Vec<u8>
    ensures { result.items ≡ bytes_of (seen_output output) }
{
    match output {
        Output::Silent | Output::Noted(_) => Vec::new(alloc),
        Output::Written(bytes) => bytes,
        Output::Listed(source) => source.bytes,
    }
}

/// What an output noted.
pub fn noted(output: &Output) -> Uses
    ensures { result ≡ noted (seen_output output.now) }
{
    match output {
        Output::Noted(uses) => *uses,
        Output::Silent | Output::Written(_) | Output::Listed(_) => Uses::nothing(),
    }
}
