// INIT, ROTATE and ROTATEC: bytes that are changed in their place.
ghost use Rattle.std.specs.Prelude.{◌≡◌, ◌≤ℤ◌, pos, negsuc, true, IfOk, Ok};
ghost use Rattle.b2_alpha.specs.Bits.{rotated};
ghost use Rattle.b2_atom.specs.declared.rows.TheConstants as row;
ghost use Rattle.b2_rows.specs.Rows.{is_phrase, tree_at};
ghost use Rattle.b2_receiver.specs.Assigning.{Ends, bytes_changed};
ghost use Rattle.b2_receiver.specs.Receivers.{IsAlpha, IsBuffer};
ghost use Rattle.b2_receiver.specs.declared.receiver.Buffer.TheVariants as buffer_kind;
ghost use Rattle.b2_expr.specs.Scope.{surroundings};
ghost use Rattle.b2_expr.specs.Value.{in_statement};
ghost use Rattle.b2_expr.specs.Workspace.{SameReferences, workspace};
ghost use Rattle.b2_stmt_var.specs.Buffers as spec;

use b2_alpha::rotate;
use b2_atom::Cursor;
use b2_atom::words::ROTATEC_OPEN;
use b2_base::codes::P34_RANGE;
use b2_base::lexical::rest_after;
use b2_base::{Code, Fault, NoMemory};
use b2_dec::{Dec, fix, whole};
use b2_expr::{Env, Workspace, number, surroundings_of};
use b2_receiver::{AlphaReceiver, Buffer, alpha_receiver, buffer, change_among, change_buffer};
use b2_rows::{hex_byte_at, is_at};
use b2_vars::Vars;

/// What ROTATE and ROTATEC ask for.
#[derive(Clone, Copy)]
pub struct Turn {
    /// The bytes that turn.
    pub to: AlphaReceiver,
    /// Whether all of them turn as one, or each by itself.
    pub whole: bool,
    /// By how many bits they turn left, from -8 to 8; below zero they turn right.
    pub bits: i8,
}

/// Fills bytes.
fn fill_bytes(bytes: &mut [u8], byte: u8)
    ensures { bytes.new ≡ spec.all_filled byte bytes.old }
{
    bytes.fill(byte);
}

/// Fills a buffer with a byte. After an error all is as before.
#[tactic(auto, using(b2_receiver::proofs::Changed::changed_ends))]
fn fill(vars: &mut Vars, to: &Buffer, byte: u8) -> Result<(), Fault>
    requires named { IsBuffer to.now }
    ensures { Ends (bytes_changed (spec.all_filled byte) to.now vars.old) vars.old vars.new result }
{
    change_buffer(vars, to, |bytes| fill_bytes(bytes, byte))
}

/// Fills a buffer with a byte, wherever it is. The code with which that ended, or none.
fn fill_buffer(work: &mut Workspace<'_>, to: &Buffer, byte: u8) -> Result<Option<Code>, NoMemory>
    requires named { IsBuffer to.now }
    ensures worked { IfOk result (λ code. record { work = workspace work.new; code = code } ≡ spec.fills byte (Ok to.now) (workspace work.old)) }
    ensures same_references { SameReferences work.old work.new }
{
    change_among(work, to.is_global(), |vars| fill(vars, to, byte))
}

/// The byte that INIT fills with.
#[tactic(auto, using(crate::proofs::BufferRows::init_pair, crate::proofs::BufferRows::init_byte))]
fn byte_of_init(unit: &[u8]) -> u8
    requires phrase { is_phrase row.INIT unit.now ≡ true }
    ensures { result ≡ spec.byte_of_init (tree_at row.INIT unit.now) }
{
    hex_byte_at(rest_after(unit, 1))
}

/// INIT: fills buffers with a byte, from left to right. The code with which that ended, or none.
#[tactic(auto, using(crate::proofs::BufferRows::first_part, crate::proofs::BufferRows::first_list, crate::proofs::BufferRows::other_part, crate::proofs::BufferRows::other_list, crate::proofs::BufferRows::other_items, crate::proofs::BufferRows::no_items, crate::proofs::BufferRows::buffer_shorter, crate::proofs::BufferRows::whole_items, crate::proofs::Assigned::one_more, crate::proofs::Assigned::one_coded))]
pub fn init(work: &mut Workspace<'_>, unit: &[u8]) -> Result<Option<Code>, NoMemory>
    requires phrase { is_phrase row.INIT unit.now ≡ true }
    ensures worked { IfOk result (λ code. record { work = workspace work.new; code = code } ≡ spec.inits (tree_at row.INIT unit.now) (workspace work.old)) }
    ensures same_references { SameReferences work.old work.new }
{
    let byte = byte_of_init(unit);
    let mut left = rest_after(unit, 4);
    loop {
        let mut c = Cursor::over(left);
        let to = match buffer(&mut c, &surroundings_of(work)) {
            Ok(to) => to,
            Err(code) => return Ok(Some(code)),
        };
        let code = fill_buffer(work, &to, byte)?;
        if code.is_some() {
            return Ok(code);
        }
        let after = c.rest();
        if !is_at(b',', after) {
            return Ok(None);
        }
        left = rest_after(after, 1);
    }
}

/// By how many bits a number turns, P34 where it is none from -8 to 8.
fn bits_of(n: Option<i64>) -> Result<i8, Code>
    ensures value { result ≡ spec.bits_in n }
    ensures low { IfOk result (λ bits. negsuc 7 ≤ℤ bits) }
    ensures high { IfOk result (λ bits. bits ≤ℤ pos 8) }
{
    match n {
        Some(n) if -8 <= n && n <= 8 => Ok(n as i8),
        _ => Err(Code::known(P34_RANGE)),
    }
}

/// What ROTATE and ROTATEC ask for: the receiver, and then by how many bits; or the first code from the left.
#[tactic(auto, using(crate::proofs::TurnRows::turn_receiver, crate::proofs::TurnRows::turn_sum, crate::proofs::TurnRows::turn_is))]
fn turn_at(e: &Env<'_>, unit: &[u8]) -> Result<Turn, Code>
    requires phrase { is_phrase row.ROTATE unit.now ≡ true }
    ensures turn { result ≡ spec.turn_in (in_statement (surroundings e.now)) (tree_at row.ROTATE unit.now) }
    ensures named { IfOk result (λ turn. IsAlpha turn.to.element.var) }
    ensures low { IfOk result (λ turn. negsuc 7 ≤ℤ turn.bits) }
    ensures high { IfOk result (λ turn. turn.bits ≤ℤ pos 8) }
{
    let mut c = Cursor::over(rest_after(unit, 1));
    let to = match alpha_receiver(&mut c, e) {
        Ok(to) => to,
        Err(code) => return Err(code),
    };
    let mut c = Cursor::over(rest_after(c.rest(), 1));
    let x = match number(&mut c, e) {
        Ok(x) => x,
        Err(code) => return Err(code),
    };
    match bits_of(whole(fix(x))) {
        Ok(bits) => {
            let whole = is_at(ROTATEC_OPEN, unit);
            Ok(Turn { to, whole, bits })
        }
        Err(code) => Err(code),
    }
}

/// Turns the bits of bytes.
fn turn_bytes(bytes: &mut [u8], asked: &Turn)
    requires low { negsuc 7 ≤ℤ asked.now.bits }
    requires high { asked.now.bits ≤ℤ pos 8 }
    ensures { bytes.new ≡ rotated asked.now.whole asked.now.bits bytes.old }
{
    rotate(bytes, asked.bits, asked.whole);
}

/// Turns the bits of a receiver. After an error all is as before.
#[tactic(auto, using(b2_receiver::proofs::Changed::changed_ends))]
fn turn_receiver(vars: &mut Vars, asked: &Turn) -> Result<(), Fault>
    requires named { IsAlpha asked.now.to.element.var }
    requires low { negsuc 7 ≤ℤ asked.now.bits }
    requires high { asked.now.bits ≤ℤ pos 8 }
    ensures { Ends (bytes_changed (rotated asked.now.whole asked.now.bits) (buffer_kind.Value asked.now.to) vars.old) vars.old vars.new result }
{
    let to = Buffer::Value(asked.to);
    change_buffer(vars, &to, |bytes| turn_bytes(bytes, asked))
}

/// Turns the bits of a receiver, wherever it is. The code with which that ended, or none.
fn turn_bits(work: &mut Workspace<'_>, asked: &Turn) -> Result<Option<Code>, NoMemory>
    requires named { IsAlpha asked.now.to.element.var }
    requires low { negsuc 7 ≤ℤ asked.now.bits }
    requires high { asked.now.bits ≤ℤ pos 8 }
    ensures worked { IfOk result (λ code. record { work = workspace work.new; code = code } ≡ spec.turns (Ok asked.now) (workspace work.old)) }
    ensures same_references { SameReferences work.old work.new }
{
    change_among(
        work,
        asked.to.element.global,
        |vars| turn_receiver(vars, asked),
    )
}

/// ROTATE and ROTATEC: turns the bits of a receiver. The code with which that ended, or none.
pub fn rotate_bits(work: &mut Workspace<'_>, unit: &[u8]) -> Result<Option<Code>, NoMemory>
    requires phrase { is_phrase row.ROTATE unit.now ≡ true }
    ensures worked { IfOk result (λ code. record { work = workspace work.new; code = code } ≡ spec.rotates (tree_at row.ROTATE unit.now) (workspace work.old)) }
    ensures same_references { SameReferences work.old work.new }
{
    match turn_at(&surroundings_of(work), unit) {
        Ok(asked) => turn_bits(work, &asked),
        Err(code) => Ok(Some(code)),
    }
}
