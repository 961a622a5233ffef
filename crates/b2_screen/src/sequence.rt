// Bytes that come one by one: a sequence of four may be cut anywhere.
ghost use Rattle.std.specs.Prelude.{◌≡◌, ◌∷◌, []};
ghost use Rattle.b2_screen.specs.Shown.{fed, sequence_bytes, bytes_read};
ghost use Rattle.b2_base.specs.Byte.{escape};

use crate::sheet::Sheet;
use b2_base::lexical::ESCAPE;

/// What a sequence does.
#[derive(Clone, Copy)]
pub enum SequenceKind {
    /// It places the cursor.
    Placing,
    /// It draws an outline.
    Outline,
}

/// How far a sequence has come.
#[derive(Clone, Copy)]
pub enum Sequence {
    /// No sequence has begun.
    NotBegun,
    /// Its first byte was read.
    Begun,
    /// Its kind was read.
    OfKind(SequenceKind),
    /// Its kind and the first of its two numbers were read.
    WithFirst(SequenceKind, u8),
}

/// How far a sequence is after its second byte.
#[tactic(auto, unfolding(crate::specs::Shown::bytes_read))]
fn after_escape(byte: u8) -> Sequence
    ensures { sequence_bytes result ≡ (bytes_read (escape ∷ byte ∷ [])).rest }
{
    match byte {
        b'A' => Sequence::OfKind(SequenceKind::Placing),
        b'B' => Sequence::OfKind(SequenceKind::Outline),
        _ => Sequence::NotBegun,
    }
}

/// Shows one byte.
#[tactic(auto, unfolding(crate::specs::Shown::bytes_read, crate::specs::Shown::effects))]
fn feed_byte(sheet: &mut Sheet, sequence: &mut Sequence, byte: u8)
    ensures { record { sheet = sheet.new; rest = sequence_bytes sequence.new }
        ≡ fed (byte ∷ []) (record { sheet = sheet.old; rest = sequence_bytes sequence.old }) }
{
    match *sequence {
        Sequence::NotBegun if byte == ESCAPE => *sequence = Sequence::Begun,
        Sequence::NotBegun => sheet.show(byte),
        Sequence::Begun => *sequence = after_escape(byte),
        Sequence::OfKind(kind) => *sequence = Sequence::WithFirst(kind, byte),
        Sequence::WithFirst(kind, first) => {
            *sequence = Sequence::NotBegun;
            match kind {
                SequenceKind::Placing => sheet.place_cursor(first, byte),
                SequenceKind::Outline => sheet.outline(first, byte),
            }
        }
    }
}

/// Shows bytes one by one.
pub fn feed_bytes(sheet: &mut Sheet, sequence: &mut Sequence, bytes: &[u8])
    ensures { record { sheet = sheet.new; rest = sequence_bytes sequence.new }
        ≡ fed bytes.now (record { sheet = sheet.old; rest = sequence_bytes sequence.old }) }
{
    for byte in bytes {
        feed_byte(sheet, sequence, *byte);
    }
}
