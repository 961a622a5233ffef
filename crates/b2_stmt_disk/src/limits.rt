// LIMITS: what it asks for, and what its receivers take.
ghost use Rattle.std.specs.Prelude.{◌≡◌, true, length, option_map, IfOk};
ghost use Rattle.b2_access.specs.Answering.{can_answer};
ghost use Rattle.b2_access.specs.Views.{limits_told};
ghost use Rattle.b2_atom.specs.declared.rows.TheConstants as row;
ghost use Rattle.b2_rows.specs.Rows.{is_phrase, tree_at};
ghost use Rattle.b2_expr.specs.Scope.{surroundings};
ghost use Rattle.b2_expr.specs.Value.{in_statement};
ghost use Rattle.b2_expr.specs.Workspace.{SameReferences, workspace};
ghost use Rattle.b2_drive.specs.Drives.{drives_seen};
ghost use Rattle.b2_stmt_disk.specs.Limits as spec;
ghost use Rattle.b2_stmt_disk.specs.Receivers.{AreReceivers, is_fourth_after, receivers_at};

use b2_access::{Access, Answer};
use b2_base::codes::D82_NO_FILE;
use b2_base::lexical::rest_after;
use b2_base::{Code, NoMemory};
use b2_dec::{Dec, Mode, round_exact};
use b2_drive::{Drives, drive, name_at, past_drive};
use b2_expr::{Env, Workspace, past_alpha};
use b2_receiver::{assign_number_at, past_number_receiver};
use b2_rows::{is_alpha_at, is_at};

/// The four numbers that LIMITS is told.
#[derive(Clone, Copy)]
pub struct Told {
    pub first: i64,
    pub second: i64,
    pub third: i64,
    pub fourth: i64,
}

/// What LIMITS asks for: its drive first, and then the name of the file, where one is written.
#[tactic(auto, using(crate::proofs::LimitsRows::limits_drive, crate::proofs::LimitsRows::file_here, crate::proofs::LimitsRows::file_name_here, crate::proofs::LimitsRows::asks_is, crate::proofs::LimitsRows::named_of_file, crate::proofs::LimitsRows::named_of_disk))]
pub fn ask_limits(d: &Drives<'_>, e: &Env<'_>, unit: &[u8]) -> Result<Access, Code>
    requires phrase { is_phrase row.LIMITS unit.now ≡ true }
    ensures { result ≡ spec.asks_limits (drives_seen d.now) (in_statement (surroundings e.now)) (tree_at row.LIMITS unit.now) }
{
    let text = rest_after(unit, 1);
    let addr = match drive(d, text) {
        Ok(addr) => addr,
        Err(code) => return Err(code),
    };
    let operands = past_drive(text);
    if !is_alpha_at(operands) {
        return Ok(Access::Limits { addr, name: None });
    }
    match name_at(e, operands) {
        Ok(name) => Ok(Access::Limits {
            addr,
            name: Some(name),
        }),
        Err(code) => Err(code),
    }
}

/// A whole number as a number.
fn whole_number(n: i64) -> Result<Dec, Code>
    ensures { result ≡ spec.whole_number n }
{
    round_exact(n < 0, n.unsigned_abs() as u128, 222, Mode::Cut)
}

/// Gives numbers to the receivers that stand at a text, from left to right. The code with which that ended, or none.
#[tactic(auto, using(crate::proofs::LimitsRows::front_of, crate::proofs::LimitsRows::first_stands, crate::proofs::LimitsRows::others_stand, crate::proofs::LimitsRows::given_next, crate::proofs::LimitsRows::given_coded))]
fn give_each(
    work: &mut Workspace<'_>,
    numbers: &[i64],
    text: &[u8],
) -> Result<Option<Code>, NoMemory>
    requires stand { AreReceivers (length numbers.now) text.now }
    ensures worked { IfOk result (λ code. record { work = workspace work.new; code = code } ≡ spec.gives_each numbers.now (receivers_at (length numbers.now) text.now) (workspace work.old)) }
    ensures same_references { SameReferences work.old work.new }
{
    let mut left = text;
    for n in numbers {
        let code = assign_number_at(work, whole_number(*n), left)?;
        if code.is_some() {
            return Ok(code);
        }
        left = rest_after(past_number_receiver(left), 1);
    }
    Ok(None)
}

/// Whether a fourth receiver stands after the three at a text.
fn has_fourth(text: &[u8]) -> bool
    requires stand { AreReceivers 3 text.now }
    ensures { result ≡ is_fourth_after text.now }
{
    let second = rest_after(past_number_receiver(text), 1);
    let third = rest_after(past_number_receiver(second), 1);
    is_at(b',', past_number_receiver(third))
}

/// Whether the limits are those of a file that isn't there.
fn is_absent(told: Told) -> bool
    ensures { result ≡ spec.is_absent (spec.numbers_told told) }
{
    told.fourth == 0
}

/// Gives the limits of a file to the receivers after its name; D82 where it isn't there, and no receiver takes its kind.
#[tactic(auto, using(crate::proofs::LimitsRows::file_name_here))]
fn give_file(work: &mut Workspace<'_>, told: Told, text: &[u8]) -> Result<Option<Code>, NoMemory>
    requires phrase { is_phrase row.FILE_LIMITS text.now ≡ true }
    ensures worked { IfOk result (λ code. record { work = workspace work.new; code = code } ≡ spec.gives_file (spec.numbers_told told) (spec.receivers_in (spec.after_name (tree_at row.FILE_LIMITS text.now))) (workspace work.old)) }
    ensures same_references { SameReferences work.old work.new }
{
    let receivers = rest_after(past_alpha(text), 1);
    let numbers = [told.first, told.second, told.third, told.fourth];
    if has_fourth(receivers) {
        return give_each(work, &numbers, receivers);
    }
    if is_absent(told) {
        return Ok(Some(Code::known(D82_NO_FILE)));
    }
    give_each(work, &numbers[..3], receivers)
}

/// Gives the limits of a catalogue to three receivers.
fn give_disk(work: &mut Workspace<'_>, told: Told, text: &[u8]) -> Result<Option<Code>, NoMemory>
    requires phrase { is_phrase row.DISK_LIMITS text.now ≡ true }
    ensures worked { IfOk result (λ code. record { work = workspace work.new; code = code } ≡ spec.gives_each (spec.numbers_of (spec.numbers_told told)) (spec.receivers_in (tree_at row.DISK_LIMITS text.now)) (workspace work.old)) }
    ensures same_references { SameReferences work.old work.new }
{
    give_each(work, &[told.first, told.second, told.third], text)
}

/// Gives what was told to the receivers of LIMITS. The code with which that ended, or none.
#[tactic(auto, using(crate::proofs::LimitsRows::limits_drive, crate::proofs::LimitsRows::file_here, crate::proofs::LimitsRows::disk_here, crate::proofs::LimitsRows::gives_to_file, crate::proofs::LimitsRows::gives_to_disk))]
pub fn give_limits(
    work: &mut Workspace<'_>,
    told: Told,
    unit: &[u8],
) -> Result<Option<Code>, NoMemory>
    requires phrase { is_phrase row.LIMITS unit.now ≡ true }
    ensures worked { IfOk result (λ code. record { work = workspace work.new; code = code } ≡ spec.gives_limits (spec.numbers_told told) (tree_at row.LIMITS unit.now) (workspace work.old)) }
    ensures same_references { SameReferences work.old work.new }
{
    let operands = past_drive(rest_after(unit, 1));
    if is_alpha_at(operands) {
        give_file(work, told, operands)
    } else {
        give_disk(work, told, operands)
    }
}

/// The numbers that LIMITS was told, none where it is asked for again.
pub fn told_by(access: &Access, answer: &Answer) -> Option<Told>
    requires possible { can_answer access.now answer.now ≡ true }
    ensures { option_map spec.numbers_told result ≡ limits_told access.now answer.now }
{
    let Access::Limits { .. } = access else {
        return None;
    };
    match answer {
        Answer::Four(first, second, third, fourth) => Some(Told {
            first: *first,
            second: *second,
            third: *third,
            fourth: *fourth,
        }),
        Answer::Wait(_) => None,
        _ => unreachable!(),
    }
}
