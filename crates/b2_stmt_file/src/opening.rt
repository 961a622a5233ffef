// DATASAVE DC OPEN and DATALOAD DC OPEN: what they ask for.
ghost use Rattle.std.specs.Prelude.{◌≡◌, ◌≤◌, true, drop};
ghost use Rattle.b2_atom.specs.Grammar.{starts};
ghost use Rattle.b2_atom.specs.declared.rows.TheConstants as row;
ghost use Rattle.b2_atom.specs.declared.words.Origin.TheVariants.{Atoms};
ghost use Rattle.b2_atom.specs.declared.forms.Start.TheVariants as start;
ghost use Rattle.b2_rows.specs.Rows.{after_phrase, is_phrase, tree_at};
ghost use Rattle.b2_expr.specs.Scope.{surroundings};
ghost use Rattle.b2_expr.specs.Value.{in_statement};
ghost use Rattle.b2_drive.specs.Drives.{drives_seen};
ghost use Rattle.b2_stmt_file.specs.Opening as spec;

use crate::slots::{count_at, past_slot, slot_written};
use b2_access::Access;
use b2_base::lexical::rest_after;
use b2_base::{Addr, Code};
use b2_drive::{Drives, drive, name_at, past_drive};
use b2_expr::{Env, past_alpha, past_sum};
use b2_rows::{is_alpha_at, is_at};

/// Whether an alpha operand begins at a text, after an opening parenthesis.
#[tactic(auto, unfolding(b2_atom::specs::Grammar::starts))]
fn is_alpha_inside(text: &[u8]) -> bool
    ensures { result ≡ starts Atoms start.AlphaInside text.now }
{
    is_at(b'(', text) && is_alpha_at(rest_after(text, 1))
}

/// The access by which a scratched file's sectors are used again, under a name.
#[tactic(auto, using(crate::proofs::OpenRows::scratched_name, crate::proofs::OpenRows::scratched_rest, crate::proofs::OpenRows::reuses_is))]
fn ask_to_reuse(e: &Env<'_>, addr: Addr, text: &[u8]) -> Result<Access, Code>
    requires phrase { is_phrase row.SCRATCHED_FILE text.now ≡ true }
    requires name { is_phrase row.ALPHA (drop 1 (after_phrase row.SCRATCHED_FILE text.now)) ≡ true }
    ensures { result ≡ spec.reuses (in_statement (surroundings e.now)) addr (tree_at row.SCRATCHED_FILE text.now) (tree_at row.ALPHA (drop 1 (after_phrase row.SCRATCHED_FILE text.now))) }
{
    let inside = rest_after(text, 1);
    let old = match name_at(e, inside) {
        Ok(old) => old,
        Err(code) => return Err(code),
    };
    let after = rest_after(past_alpha(inside), 1);
    match name_at(e, rest_after(after, 1)) {
        Ok(name) => Ok(Access::DataNew {
            addr,
            old: Some(old),
            sectors: 0,
            name,
        }),
        Err(code) => Err(code),
    }
}

/// The access by which a file of a number of sectors is made, under a name.
fn ask_to_make(e: &Env<'_>, addr: Addr, text: &[u8]) -> Result<Access, Code>
    requires phrase { is_phrase row.SUM text.now ≡ true }
    requires name { is_phrase row.ALPHA (drop 1 (after_phrase row.SUM text.now)) ≡ true }
    ensures { result ≡ spec.makes (in_statement (surroundings e.now)) addr (tree_at row.SUM text.now) (tree_at row.ALPHA (drop 1 (after_phrase row.SUM text.now))) }
{
    let sectors = match count_at(2, e, text) {
        Ok(sectors) => sectors,
        Err(code) => return Err(code),
    };
    match name_at(e, rest_after(past_sum(text), 1)) {
        Ok(name) => Ok(Access::DataNew {
            addr,
            old: None,
            sectors,
            name,
        }),
        Err(code) => Err(code),
    }
}

/// What DATASAVE DC OPEN asks for: its drive first, then the sectors or the scratched file, and then the name.
#[tactic(auto, using(crate::proofs::OpenRows::new_drive, crate::proofs::OpenRows::new_slot, crate::proofs::OpenRows::scratched_here, crate::proofs::OpenRows::scratched_then, crate::proofs::OpenRows::sectors_here, crate::proofs::OpenRows::sectors_then, crate::proofs::OpenRows::new_is, crate::proofs::OpenRows::new_reuses, crate::proofs::OpenRows::new_makes))]
pub fn ask_for_new(d: &Drives<'_>, e: &Env<'_>, text: &[u8]) -> Result<Access, Code>
    requires phrase { is_phrase row.NEW_FILE text.now ≡ true }
    ensures { result ≡ spec.asks_for_new (drives_seen d.now) (in_statement (surroundings e.now)) (tree_at row.NEW_FILE text.now) }
{
    let operands = rest_after(text, 1);
    let addr = match drive(d, operands) {
        Ok(addr) => addr,
        Err(code) => return Err(code),
    };
    let file = past_slot(past_drive(operands));
    if is_alpha_inside(file) {
        ask_to_reuse(e, addr, file)
    } else {
        ask_to_make(e, addr, file)
    }
}

/// What DATALOAD DC OPEN asks for: its drive first, and then the name.
#[tactic(auto, using(crate::proofs::OpenRows::old_drive, crate::proofs::OpenRows::old_slot, crate::proofs::OpenRows::old_name, crate::proofs::OpenRows::old_is))]
pub fn ask_for_old(d: &Drives<'_>, e: &Env<'_>, text: &[u8]) -> Result<Access, Code>
    requires phrase { is_phrase row.OLD_FILE text.now ≡ true }
    ensures { result ≡ spec.asks_for_old (drives_seen d.now) (in_statement (surroundings e.now)) (tree_at row.OLD_FILE text.now) }
{
    let operands = rest_after(text, 1);
    let addr = match drive(d, operands) {
        Ok(addr) => addr,
        Err(code) => return Err(code),
    };
    match name_at(e, past_slot(past_drive(operands))) {
        Ok(name) => Ok(Access::DataOpen { addr, name }),
        Err(code) => Err(code),
    }
}

/// The slot that holds a new file once it is open.
#[tactic(auto, using(crate::proofs::OpenRows::new_drive, crate::proofs::OpenRows::new_slot, crate::proofs::OpenRows::new_opened))]
pub fn slot_of_new(text: &[u8]) -> u8
    requires phrase { is_phrase row.NEW_FILE text.now ≡ true }
    ensures value { result ≡ spec.slot_opened (tree_at row.NEW_FILE text.now) }
    ensures small { result ≤ 15 }
{
    slot_written(past_drive(rest_after(text, 1)))
}

/// The slot that holds a file that is there once it is open.
#[tactic(auto, using(crate::proofs::OpenRows::old_drive, crate::proofs::OpenRows::old_slot, crate::proofs::OpenRows::old_opened))]
pub fn slot_of_old(text: &[u8]) -> u8
    requires phrase { is_phrase row.OLD_FILE text.now ≡ true }
    ensures value { result ≡ spec.slot_opened (tree_at row.OLD_FILE text.now) }
    ensures small { result ≤ 15 }
{
    slot_written(past_drive(rest_after(text, 1)))
}
