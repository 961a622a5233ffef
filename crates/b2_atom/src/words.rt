// The words of the language with their codes, and which of them stands at a text.
ghost use Rattle.std.specs.Prelude.{◌≡◌, ◌≤◌, [], length, map, get_or};
ghost use Rattle.b2_atom.specs.Words as spec;

use b2_base::lexical::{first, rest_after, skip_blanks, upper};

/// Where a text is read from: a typed line of a program or an immediate one, or atoms.
#[derive(Clone, Copy)]
pub enum Origin {
    Program,
    Immediate,
    Atoms,
}

/// What stands at a text where one of the words begins that this machine leaves out.
pub const LEFT_OUT: u8 = 1;

/// The byte before the two bytes of a line number.
pub const LINE_MARK: u8 = 0xFF;

/// The first word; the others follow in the order of `WORDS`.
pub const REM: u8 = 0x80;

pub const DIM: u8 = 0x81;

pub const COM: u8 = 0x82;

pub const GOTO: u8 = 0x83;

pub const GOSUB: u8 = 0x84;

pub const GOSUB_PRIME: u8 = 0x85;

pub const RETURN: u8 = 0x86;

pub const CLEAR: u8 = 0x87;

pub const ALL: u8 = 0x88;

pub const ON: u8 = 0x89;

pub const IF: u8 = 0x8A;

pub const THEN: u8 = 0x8B;

pub const ELSE: u8 = 0x8C;

pub const END: u8 = 0x8D;

pub const FOR: u8 = 0x8E;

pub const TO: u8 = 0x8F;

pub const STEP: u8 = 0x90;

pub const NEXT: u8 = 0x91;

pub const STOP: u8 = 0x92;

pub const DEFFN: u8 = 0x93;

pub const DEFFN_PRIME: u8 = 0x94;

pub const FN: u8 = 0x95;

pub const ERROR: u8 = 0x96;

pub const READ: u8 = 0x97;

pub const DATA: u8 = 0x98;

pub const RESTORE: u8 = 0x99;

pub const LINE: u8 = 0x9A;

pub const SELECT: u8 = 0x9B;

pub const PRINT: u8 = 0x9C;

pub const PRINTUSING: u8 = 0x9D;

pub const INPUT: u8 = 0x9E;

pub const LINPUT: u8 = 0x9F;

pub const KEYIN: u8 = 0xA0;

pub const DISK: u8 = 0xA1;

pub const NO: u8 = 0xA2;

pub const GLOBAL_PART: u8 = 0xA3;

pub const DOLLAR_BREAK: u8 = 0xA4;

pub const DOLLAR_OPEN: u8 = 0xA5;

pub const DOLLAR_CLOSE: u8 = 0xA6;

pub const INIT_OPEN: u8 = 0xA7;

pub const CONVERT: u8 = 0xA8;

pub const ROTATE_OPEN: u8 = 0xA9;

pub const ROTATEC_OPEN: u8 = 0xAA;

pub const PACK_OPEN: u8 = 0xAB;

pub const UNPACK_OPEN: u8 = 0xAC;

pub const DOLLAR_PACK_OPEN: u8 = 0xAD;

pub const DOLLAR_UNPACK_OPEN: u8 = 0xAE;

pub const FROM: u8 = 0xAF;

pub const MAT: u8 = 0xB0;

pub const CON: u8 = 0xB1;

pub const ZER: u8 = 0xB2;

pub const IDN: u8 = 0xB3;

pub const TRN_OPEN: u8 = 0xB4;

pub const REDIM: u8 = 0xB5;

pub const SEARCH: u8 = 0xB6;

pub const MOVE: u8 = 0xB7;

pub const SORT: u8 = 0xB8;

pub const COPY: u8 = 0xB9;

pub const DATASAVE: u8 = 0xBA;

pub const DATALOAD: u8 = 0xBB;

pub const DC: u8 = 0xBC;

pub const OPEN: u8 = 0xBD;

pub const DSKIP: u8 = 0xBE;

pub const DBACKSPACE: u8 = 0xBF;

pub const LIMITS: u8 = 0xC0;

pub const SCRATCH: u8 = 0xC1;

pub const LS: u8 = 0xC2;

pub const LIST: u8 = 0xC3;

pub const RUN: u8 = 0xC4;

pub const CONTINUE: u8 = 0xC5;

pub const LOAD: u8 = 0xC6;

pub const SAVE: u8 = 0xC7;

pub const TAB_OPEN: u8 = 0xC8;

pub const HEXOF_OPEN: u8 = 0xC9;

pub const HEX_OPEN: u8 = 0xCA;

pub const STR_OPEN: u8 = 0xCB;

pub const BIN_OPEN: u8 = 0xCC;

pub const AND: u8 = 0xCD;

pub const OR: u8 = 0xCE;

pub const XOR: u8 = 0xCF;

pub const BOOL: u8 = 0xD0;

pub const ADD: u8 = 0xD1;

pub const ADDC: u8 = 0xD2;

pub const SUB: u8 = 0xD3;

pub const SUBC: u8 = 0xD4;

pub const DAC: u8 = 0xD5;

pub const DSC: u8 = 0xD6;

pub const ABS_OPEN: u8 = 0xD7;

pub const INT_OPEN: u8 = 0xD8;

pub const FIX_OPEN: u8 = 0xD9;

pub const SGN_OPEN: u8 = 0xDA;

pub const SQR_OPEN: u8 = 0xDB;

pub const ROUND_OPEN: u8 = 0xDC;

pub const MOD_OPEN: u8 = 0xDD;

pub const MAX_OPEN: u8 = 0xDE;

pub const MIN_OPEN: u8 = 0xDF;

pub const LEN_OPEN: u8 = 0xE0;

pub const NUM_OPEN: u8 = 0xE1;

pub const POS_OPEN: u8 = 0xE2;

pub const VAL_OPEN: u8 = 0xE3;

pub const ERR: u8 = 0xE4;

pub const HASH_PART: u8 = 0xE5;

pub const HASH_TERM: u8 = 0xE6;

pub const ROUND: u8 = 0xE7;

pub const DOLLAR_RELEASE: u8 = 0xE8;

pub const TERMINAL: u8 = 0xE9;

pub const AT_OPEN: u8 = 0xEA;

pub const BOX_OPEN: u8 = 0xEB;

/// The last word.
pub const LAST: u8 = 0xEB;

/// A short word: two letters that are a word where a row asks for it, and nowhere else.
pub const DA: u8 = 0xEC;

/// The other short word.
pub const BA: u8 = 0xED;

/// The words in the order of their codes, and after them those that this machine leaves out.
#[rattlefmt::skip]
pub const WORDS: [&[u8]; 130] = [
    b"REM",
    b"DIM",
    b"COM",
    b"GOTO",
    b"GOSUB",
    b"GOSUB'",
    b"RETURN",
    b"CLEAR",
    b"ALL",
    b"ON",
    b"IF",
    b"THEN",
    b"ELSE",
    b"END",
    b"FOR",
    b"TO",
    b"STEP",
    b"NEXT",
    b"STOP",
    b"DEFFN",
    b"DEFFN'",
    b"FN",
    b"ERROR",
    b"READ",
    b"DATA",
    b"RESTORE",
    b"LINE",
    b"SELECT",
    b"PRINT",
    b"PRINTUSING",
    b"INPUT",
    b"LINPUT",
    b"KEYIN",
    b"DISK",
    b"NO",
    b"@PART",
    b"$BREAK",
    b"$OPEN",
    b"$CLOSE",
    b"INIT(",
    b"CONVERT",
    b"ROTATE(",
    b"ROTATEC(",
    b"PACK(",
    b"UNPACK(",
    b"$PACK(",
    b"$UNPACK(",
    b"FROM",
    b"MAT",
    b"CON",
    b"ZER",
    b"IDN",
    b"TRN(",
    b"REDIM",
    b"SEARCH",
    b"MOVE",
    b"SORT",
    b"COPY",
    b"DATASAVE",
    b"DATALOAD",
    b"DC",
    b"OPEN",
    b"DSKIP",
    b"DBACKSPACE",
    b"LIMITS",
    b"SCRATCH",
    b"LS",
    b"LIST",
    b"RUN",
    b"CONTINUE",
    b"LOAD",
    b"SAVE",
    b"TAB(",
    b"HEXOF(",
    b"HEX(",
    b"STR(",
    b"BIN(",
    b"AND",
    b"OR",
    b"XOR",
    b"BOOL",
    b"ADD",
    b"ADDC",
    b"SUB",
    b"SUBC",
    b"DAC",
    b"DSC",
    b"ABS(",
    b"INT(",
    b"FIX(",
    b"SGN(",
    b"SQR(",
    b"ROUND(",
    b"MOD(",
    b"MAX(",
    b"MIN(",
    b"LEN(",
    b"NUM(",
    b"POS(",
    b"VAL(",
    b"ERR",
    b"#PART",
    b"#TERM",
    b"ROUND",
    b"$RELEASE",
    b"TERMINAL",
    b"AT(",
    b"BOX(",
    b"SIN(",
    b"COS(",
    b"TAN(",
    b"ARCSIN(",
    b"ARCCOS(",
    b"ARCTAN(",
    b"EXP(",
    b"LOG(",
    b"RND(",
    b"#PI",
    b"INV(",
    b"PLOT",
    b"HEXPRINT",
    b"HEXPACK",
    b"HEXUNPACK",
    b"$GIO",
    b"$IF",
    b"$TRAN",
    b"$FORMAT",
    b"$INIT",
    b"$MSG",
    b"$PSTAT",
];

/// How many words have a code.
pub const CODED: usize = 108;

/// Whether what is read was typed.
pub fn is_source(origin: Origin) -> bool
    ensures { result ≡ spec.is_source origin }
{
    match origin {
        Origin::Program | Origin::Immediate => true,
        Origin::Atoms => false,
    }
}

/// A byte as it is kept: a letter of a source in upper case.
pub fn kept_byte(origin: Origin, byte: u8) -> u8
    ensures { result ≡ spec.kept_byte origin byte }
{
    match origin {
        Origin::Program | Origin::Immediate => upper(byte),
        Origin::Atoms => byte,
    }
}

/// Whether a text begins with a word, in either case.
pub fn begins_with(word: &[u8], text: &[u8]) -> bool
    ensures { result ≡ spec.begins_with word.now text.now }
{
    let mut word = word;
    let mut text = text;
    while let [letter, others @ ..] = word {
        let [byte, rest @ ..] = text else {
            return false;
        };
        if *letter != upper(*byte) {
            return false;
        }
        word = others;
        text = rest;
    }
    true
}

/// The longest word of a table at a text: its length and its index, or length 0.
fn longest(table: &[&[u8]], text: &[u8]) -> (usize, usize)
    ensures index { result ≡ spec.longest (map (λ w. w.now) table.now) text.now (0, 0) 0 }
    ensures within { result.1 ≤ length table.now }
{
    let mut best = (0, 0);
    let mut left = table;
    let mut at = 0usize;
    while let [word, others @ ..] = left {
        if word.len() > best.0 && begins_with(word, text) {
            best = (word.len(), at);
        }
        left = others;
        at += 1;
    }
    best
}

/// All words.
fn words() -> &'static [&'static [u8]]
    ensures { map (λ w. w.now) result.now ≡ spec.all_words }
{
    &WORDS
}

/// The longest word at a text: its length, or 0, and its index.
#[tactic(auto, unfolding(crate::specs::Words::word_at))]
fn word_at(text: &[u8]) -> (usize, usize)
    ensures { result ≡ spec.word_at text.now }
{
    longest(words(), text)
}

/// Where the next item begins.
pub fn skipped(origin: Origin, text: &[u8]) -> &[u8]
    ensures { result.now ≡ spec.skipped origin text.now }
{
    match origin {
        Origin::Program | Origin::Immediate => skip_blanks(text),
        Origin::Atoms => text,
    }
}

/// An entry of a table, or none.
fn text_in(table: &'static [&'static [u8]], index: usize) -> &'static [u8]
    ensures { result.now ≡ get_or (map (λ w. w.now) table.now) index [] }
{
    match table.get(index) {
        Some(text) => text,
        None => &[],
    }
}

/// How a word is spelled.
pub fn word_text(code: u8) -> &'static [u8]
    ensures { result.now ≡ spec.word_text code }
{
    text_in(words(), usize::from(code.saturating_sub(REM)))
}

/// Whether a code is that of a short word.
pub fn is_short(code: u8) -> bool
    ensures { result ≡ spec.is_short code }
{
    code == DA || code == BA
}

/// The letters of a short word.
pub fn short_text(code: u8) -> &'static [u8]
    ensures { result.now ≡ spec.short_text code }
{
    match code {
        DA => b"DA",
        BA => b"BA",
        _ => &[],
    }
}

/// Whether a short word stands at a text: its letters, where no longer word begins, or its code among atoms.
pub fn short_stands(origin: Origin, code: u8, text: &[u8]) -> bool
    ensures { result ≡ spec.short_stands origin code text.now }
{
    if !is_short(code) {
        return false;
    }
    match origin {
        Origin::Program | Origin::Immediate => {
            let letters = short_text(code);
            class_at(origin, text) == first(letters) && begins_with(letters, text)
        }
        Origin::Atoms => first(text) == code,
    }
}

/// How many bytes a short word takes.
pub fn short_width(origin: Origin) -> usize
    ensures { result ≡ spec.short_width origin }
{
    match origin {
        Origin::Program | Origin::Immediate => 2,
        Origin::Atoms => 1,
    }
}

/// A word, or a longer one that is typed with blanks in it, and what follows it.
fn longer_word(code: u8, rest: &[u8]) -> (u8, &[u8])
    ensures class { result.0 ≡ (spec.longer_word code rest.now).0 }
    ensures after { result.1.now ≡ (spec.longer_word code rest.now).1 }
{
    let next = skip_blanks(rest);
    if code == DATA && begins_with(b"SAVE", next) {
        return (DATASAVE, rest_after(next, 4));
    }
    if code == DATA && begins_with(b"LOAD", next) {
        return (DATALOAD, rest_after(next, 4));
    }
    if code == PRINT && begins_with(b"USING", next) {
        return (PRINTUSING, rest_after(next, 5));
    }
    (code, rest)
}

/// What stands at a typed text and what follows it.
fn typed_ahead(text: &[u8]) -> (u8, &[u8])
    ensures class { result.0 ≡ (spec.typed_ahead text.now).0 }
    ensures after { result.1.now ≡ (spec.typed_ahead text.now).1 }
{
    let (length, index) = word_at(text);
    if length == 0 {
        return (upper(first(text)), rest_after(text, 1));
    }
    if index >= CODED {
        return (LEFT_OUT, rest_after(text, length));
    }
    longer_word(index as u8 + REM, rest_after(text, length))
}

/// What stands at a text, a word's code or a byte or 0 at the end, and what follows it.
pub fn ahead(origin: Origin, text: &[u8]) -> (u8, &[u8])
    ensures class { result.0 ≡ (spec.ahead origin text.now).0 }
    ensures after { result.1.now ≡ (spec.ahead origin text.now).1 }
{
    match origin {
        Origin::Program | Origin::Immediate => typed_ahead(text),
        Origin::Atoms => (first(text), rest_after(text, 1)),
    }
}

/// What stands at a text, without what follows it.
pub fn class_at(origin: Origin, text: &[u8]) -> u8
    ensures { result ≡ (spec.ahead origin text.now).0 }
{
    match origin {
        Origin::Program | Origin::Immediate => typed_ahead(text).0,
        Origin::Atoms => first(text),
    }
}
