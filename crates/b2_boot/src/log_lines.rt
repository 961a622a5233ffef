// A line of a log: its words, and what they ask before any number is looked at.
ghost use Rattle.std.specs.Prelude.{◌≡◌, ◌<◌, ◌∷◌, ◌++◌, IfSome, length, option_to_list};
ghost use Rattle.std.specs.Option.{option_copied};
ghost use Rattle.b2_boot.specs.LogLines as spec;
ghost use Rattle.b2_boot.specs.declared.log_lines.Asked.TheVariants as asked;

use b2_base::cut;
use b2_base::lexical::{all_printable, capped_value, digits_width, hex_value, is_hex_digit};
use std::marker::Model;

/// What a line types: a text where it lies in the log, and the key after it, if there is one. Contracts see it as the list of
/// the keys.
#[derive(Drop)]
pub struct Typed<'a> {
    text: &'a [u8],
    end: Option<u8>,
}

impl<'a> Model for Typed<'a> {
    ghost use Rattle.std.specs.Prelude.{ℕ, List, ◌++◌, option_to_list};

    ghost Value = { List ℕ };

    ghost view = { λ t. t.text.now ++ option_to_list t.end };
}

impl<'a> Typed<'a> {
    /// A text and the key after it.
    fn new(text: &'a [u8], end: Option<u8>) -> Typed<'a>
        ensures { result ≡ text.now ++ option_to_list end }
    {
        Typed { text, end }
    }

    /// The text and the key after it.
    pub fn parts(&self) -> (&'a [u8], Option<u8>)
        ensures { self.now ≡ result.0.now ++ option_to_list result.1 }
    {
        (self.text, self.end)
    }
}

/// What a line asks. A million stands for each number above it: it is out of each range.
#[derive(Drop)]
pub enum Asked<'a> {
    Keys(u32, Typed<'a>),
    Special(u32, u32),
    Front(u32, u32),
    Halt(u32),
    Reset(u32),
    Turn(u32, u32),
    Rounds(u32),
}

/// What a line says: nothing, what it asks, or the first check that it fails.
#[derive(Drop)]
pub enum LineRead<'a> {
    Nothing,
    Asks(Asked<'a>),
    Fails(u8),
}

/// A million, which stands for all numbers from there on.
const ABOVE_ALL: u32 = 1_000_000;

/// A line without the carriage return at its end.
fn without_return(line: &[u8]) -> &[u8]
    ensures { result.now ≡ spec.without_return line.now }
{
    match line {
        [front @ .., b'\r'] => front,
        _ => line,
    }
}

/// The first line of a text, and what follows its newline, if there is one.
pub fn first_line(text: &[u8]) -> (&[u8], Option<&[u8]>)
    ensures lines { spec.text_lines text.now ≡ result.0.now ∷ spec.lines_beyond (option_copied result.1) }
    ensures shorter { IfSome result.1 (λ rest. length rest.now < length text.now) }
{
    let (line, rest) = cut(text, b'\n');
    match rest {
        Some(following) => (without_return(line), Some(following)),
        None => (line, None),
    }
}

/// A number without leading zeros, None where the word is none.
pub fn plain_number(word: &[u8]) -> Option<u32>
    ensures { result ≡ spec.plain_number word.now }
{
    let [first, rest @ ..] = word else {
        return None;
    };
    if *first == b'0' && !rest.is_empty() {
        return None;
    }
    if digits_width(word) < word.len() {
        return None;
    }
    Some(capped_value(word, ABOVE_ALL))
}

/// The number that is the only argument.
fn only_number(args: Option<&[u8]>) -> Option<u32>
    ensures { result ≡ spec.only_number (option_copied args.entry) }
{
    match args {
        Some(word) => plain_number(word),
        None => None,
    }
}

/// The two numbers that are the arguments.
fn pair_in(args: Option<&[u8]>) -> Option<(u32, u32)>
    ensures { result ≡ spec.pair_in (option_copied args.entry) }
{
    let Some(args) = args else {
        return None;
    };
    let (first, rest) = cut(args, b' ');
    let Some(m) = plain_number(first) else {
        return None;
    };
    let Some(n) = only_number(rest) else {
        return None;
    };
    Some((m, n))
}

/// A byte as two upper hexadecimal digits.
fn byte_in(word: Option<&[u8]>) -> Option<u8>
    ensures { result ≡ spec.byte_in (option_copied word.entry) }
{
    let Some([high, low]) = word else {
        return None;
    };
    if is_hex_digit(*high) && is_hex_digit(*low) {
        Some(hex_value(*high) * 16 + hex_value(*low))
    } else {
        None
    }
}

/// A terminal and a text, with the key that is typed after it.
fn text_asked(args: Option<&[u8]>, end: Option<u8>) -> Option<Asked<'_>>
    ensures { result ≡ spec.text_asked (option_to_list end) (option_copied args.entry) }
{
    let Some(args) = args else {
        return None;
    };
    let (word, text) = cut(args, b' ');
    let Some(terminal) = plain_number(word) else {
        return None;
    };
    Some(Asked::Keys(terminal, Typed::new(text.unwrap_or(b""), end)))
}

/// A terminal and a byte.
fn key_asked(args: Option<&[u8]>) -> Option<Asked<'_>>
    ensures { result ≡ spec.key_asked (option_copied args.entry) }
{
    let Some(args) = args else {
        return None;
    };
    let (word, digits) = cut(args, b' ');
    let Some(terminal) = plain_number(word) else {
        return None;
    };
    let Some(byte) = byte_in(digits) else {
        return None;
    };
    Some(Asked::Keys(terminal, Typed::new(b"", Some(byte))))
}

/// A terminal and the number of a special function key.
fn special_asked(args: Option<&[u8]>) -> Option<Asked<'_>>
    ensures { result ≡ spec.asked_by_pair asked.Special (option_copied args.entry) }
{
    match pair_in(args) {
        Some((terminal, n)) => Some(Asked::Special(terminal, n)),
        None => None,
    }
}

/// A terminal and the partition that is put in front.
fn front_asked(args: Option<&[u8]>) -> Option<Asked<'_>>
    ensures { result ≡ spec.asked_by_pair asked.Front (option_copied args.entry) }
{
    match pair_in(args) {
        Some((terminal, partition)) => Some(Asked::Front(terminal, partition)),
        None => None,
    }
}

/// A partition and the quota of its turn.
fn turn_asked(args: Option<&[u8]>) -> Option<Asked<'_>>
    ensures { result ≡ spec.asked_by_pair asked.Turn (option_copied args.entry) }
{
    match pair_in(args) {
        Some((partition, quota)) => Some(Asked::Turn(partition, quota)),
        None => None,
    }
}

/// The partition that is halted.
fn halt_asked(args: Option<&[u8]>) -> Option<Asked<'_>>
    ensures { result ≡ spec.asked_by_number asked.Halt (option_copied args.entry) }
{
    match only_number(args) {
        Some(partition) => Some(Asked::Halt(partition)),
        None => None,
    }
}

/// The partition that is reset.
fn reset_asked(args: Option<&[u8]>) -> Option<Asked<'_>>
    ensures { result ≡ spec.asked_by_number asked.Reset (option_copied args.entry) }
{
    match only_number(args) {
        Some(partition) => Some(Asked::Reset(partition)),
        None => None,
    }
}

/// How many rounds are asked for.
fn rounds_asked(args: Option<&[u8]>) -> Option<Asked<'_>>
    ensures { result ≡ spec.asked_by_number asked.Rounds (option_copied args.entry) }
{
    match only_number(args) {
        Some(count) => Some(Asked::Rounds(count)),
        None => None,
    }
}

/// What is asked, unless it is misspelled.
fn unless_misspelled(found: Option<Asked<'_>>) -> LineRead<'_>
    ensures { result ≡ spec.unless_misspelled found.entry }
{
    match found {
        Some(asked) => LineRead::Asks(asked),
        None => LineRead::Fails(3),
    }
}

/// What a word and its arguments ask of partitions or of the terminals' fronts.
fn asked_by_numbers<'a>(word: &[u8], args: Option<&'a [u8]>) -> LineRead<'a>
    ensures { result ≡ spec.asked_by_numbers word.now (option_copied args.entry) }
{
    if word == b"sf".as_slice() {
        return unless_misspelled(special_asked(args));
    }
    if word == b"front".as_slice() {
        return unless_misspelled(front_asked(args));
    }
    if word == b"halt".as_slice() {
        return unless_misspelled(halt_asked(args));
    }
    if word == b"reset".as_slice() {
        return unless_misspelled(reset_asked(args));
    }
    if word == b"turn".as_slice() {
        return unless_misspelled(turn_asked(args));
    }
    if word == b"rounds".as_slice() {
        return unless_misspelled(rounds_asked(args));
    }
    LineRead::Fails(2)
}

/// What a word and its arguments ask.
fn asked_by_words<'a>(word: &[u8], args: Option<&'a [u8]>) -> LineRead<'a>
    ensures { result ≡ spec.asked_by_words word.now (option_copied args.entry) }
{
    if word == b"type".as_slice() {
        return unless_misspelled(text_asked(args, Some(b'\r')));
    }
    if word == b"keys".as_slice() {
        return unless_misspelled(text_asked(args, None));
    }
    if word == b"key".as_slice() {
        return unless_misspelled(key_asked(args));
    }
    asked_by_numbers(word, args)
}

/// What a line asks: checks 1 to 3.
pub fn asked_by_line(line: &[u8]) -> LineRead<'_>
    ensures { result ≡ spec.asked_by_line line.now }
{
    if !all_printable(line) {
        return LineRead::Fails(1);
    }
    match line {
        [] | [b'#', ..] => LineRead::Nothing,
        _ => {
            let (word, args) = cut(line, b' ');
            asked_by_words(word, args)
        }
    }
}
