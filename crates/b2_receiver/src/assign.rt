// Assigning to receivers, among the variables in which they were located.
ghost use Rattle.std.specs.Prelude.{◌≡◌, [], true, length, Err, Some, IfErr, IfOk, OnOk, OnErr};
ghost use Rattle.std.specs.Fn.{FnOnceReturnsAtMut};
ghost use Rattle.b2_base.specs.declared.codes.Fault.TheVariants as of_fault;
ghost use Rattle.b2_alpha.specs.Values.{padded};
ghost use Rattle.b2_vars.specs.Answers.{AnswersOrFails};
ghost use Rattle.b2_vars.specs.Variables.{is_alpha};
ghost use Rattle.b2_receiver.specs.Assigning as spec;
ghost use Rattle.b2_receiver.specs.Assigning.{ChangesBuffer, Ends, EndsWith, HasCode, IsThere, assigned_bytes, assigned_number, assigned_side, assigned_value, buffer_code, bytes_changed, is_alpha_receiver, is_reached, portion_in, reached_by, receiver_code, with_portion};
ghost use Rattle.b2_receiver.specs.Receivers.{IsAlpha, IsBuffer, IsNamed, IsNumeric};
ghost use Rattle.b2_receiver.specs.RightSide.{side_seen};

use crate::operations::{RightSide, make_side};
use crate::receiver::{AlphaReceiver, Buffer, Receiver};
use b2_alpha::assign;
use b2_base::codes::X75_NOT_DECIMAL;
use b2_base::lexical::{first_bytes, rest_after};
use b2_base::{Code, Fault, NoMemory};
use b2_dec::{Dec, Value};
use b2_expr::Element;
use b2_vars::Vars;

/// Room for as many bytes as a receiver may name.
const ROOM: usize = 255;

/// Assigns a number. A scalar that isn't there is made. P59, P57 and A02 come in this order, each exactly where the array
/// isn't there, it has no such element, or there is no room for the scalar. After an error all is as before.
pub fn assign_number(vars: &mut Vars, to: Element, x: Dec) -> Result<(), Fault>
    requires named { IsNumeric to.var }
    ensures { Ends (assigned_number to x vars.old) vars.old vars.new result }
{
    match vars.set_number(to.var, to.row, to.column, x) {
        Ok(()) => Ok(()),
        Err(code) => Err(Fault::Code(code)),
    }
}

/// Sees to it that what an alpha receiver names is there: a scalar that isn't is made.
fn reach(vars: &mut Vars, to: &AlphaReceiver) -> Result<(), Fault>
    requires named { IsAlpha to.now.element.var }
    ensures ok { OnOk result (vars.new ≡ reached_by to.now vars.old) }
    ensures there { OnOk result (IsThere to.now vars.new) }
    ensures code { AnswersOrFails (receiver_code to.now vars.old) result }
    ensures err { OnErr result (vars.new ≡ vars.old) }
{
    let element = to.element;
    let from = usize::from(to.portion.from);
    let count = usize::from(to.portion.count);
    match vars.reach_part(element.var, element.row, element.column, from, count) {
        Ok(()) => Ok(()),
        Err(code) => Err(Fault::Code(code)),
    }
}

/// The bytes that an alpha receiver names.
fn portion<'a>(vars: &'a Vars, to: &AlphaReceiver) -> &'a [u8]
    requires named { IsAlpha to.now.element.var }
    requires there { IsThere to.now vars.now }
    ensures bytes { result.now ≡ portion_in to.now vars.now }
    ensures count { length result.now ≡ to.now.portion.count }
{
    let element = to.element;
    let _shape = vars.shape(element.var);
    match vars.alpha(element.var, element.row, element.column) {
        Ok(bytes) => first_bytes(
            rest_after(bytes, usize::from(to.portion.from)),
            usize::from(to.portion.count),
        ),
        Err(_) => unreachable!(),
    }
}

/// Puts other bytes in the place of those that an alpha receiver names.
fn put(vars: &mut Vars, to: &AlphaReceiver, bytes: &[u8])
    requires there { IsThere to.now vars.old }
    requires count { length bytes.now ≡ to.now.portion.count }
    ensures { vars.new ≡ with_portion to.now vars.old bytes.now }
{
    let element = to.element;
    let from = usize::from(to.portion.from);
    vars.set_part(element.var, element.row, element.column, from, bytes);
}

/// Assigns bytes, cut to as many as the receiver names or padded with blanks. Codes come as for a number, and P34 before
/// A02 where the value has no such part.
pub fn assign_bytes(vars: &mut Vars, to: &AlphaReceiver, bytes: &[u8]) -> Result<(), Fault>
    requires named { IsAlpha to.now.element.var }
    ensures { Ends (assigned_bytes to.now bytes.now vars.old) vars.old vars.new result }
{
    match reach(vars, to) {
        Ok(()) => {}
        Err(fault) => return Err(fault),
    }
    let mut room = [b' '; ROOM];
    let part = &mut room[..usize::from(to.portion.count)];
    assign(part, bytes);
    put(vars, to, part);
    Ok(())
}

/// Puts bytes, cut or padded with blanks, in the place of those of a buffer.
#[tactic(auto, using(crate::proofs::Changed::changed_ends))]
fn put_over(vars: &mut Vars, to: &Buffer, bytes: &[u8]) -> Result<(), Fault>
    requires named { IsBuffer to.now }
    ensures { Ends (bytes_changed (λ old. padded (length old) bytes.now) to.now vars.old) vars.old vars.new result }
{
    change_buffer(vars, to, |part| assign(part, bytes))
}

/// Assigns bytes, as `assign_side` does with a right side of one operand without operations.
pub fn assign_first(vars: &mut Vars, to: &AlphaReceiver, bytes: &[u8]) -> Result<(), Fault>
    requires named { IsAlpha to.now.element.var }
    ensures { Ends (assigned_side to.now (record { first = Some bytes.now; operations = [] }) vars.old) vars.old vars.new result }
{
    put_over(vars, &Buffer::Value(*to), bytes)
}

/// Assigns a value of the receiver's kind.
pub fn assign_value(vars: &mut Vars, to: &Receiver, x: &Value) -> Result<(), Fault>
    requires named { IsNamed to.now }
    requires kind { is_alpha x.now ≡ is_alpha_receiver to.now }
    ensures { Ends (assigned_value to.now x.now vars.old) vars.old vars.new result }
{
    match (to, x) {
        (Receiver::Number(element), Value::Number(n)) => assign_number(vars, *element, *n),
        (Receiver::Alpha(to), Value::Alpha(bytes)) => assign_bytes(vars, to, bytes.bytes()),
        _ => unreachable!(),
    }
}

/// Assigns the right side of an alpha assignment: the receiver takes the first operand, where there is one, and then each
/// operation acts on all bytes that it names. Codes come as for bytes, and all is then as before; X75 comes last, where an
/// operation refuses, and then the receiver keeps what was made before that.
pub fn assign_side(vars: &mut Vars, to: &AlphaReceiver, side: &RightSide) -> Result<(), Fault>
    requires named { IsAlpha to.now.element.var }
    ensures { Ends (assigned_side to.now (side_seen side.now) vars.old) vars.old vars.new result }
{
    match reach(vars, to) {
        Ok(()) => {}
        Err(fault) => return Err(fault),
    }
    let mut room = [b' '; ROOM];
    let part = &mut room[..usize::from(to.portion.count)];
    assign(part, portion(vars, to));
    let outcome = make_side(side, part);
    put(vars, to, part);
    match outcome {
        Ok(()) => Ok(()),
        Err(code) => Err(Fault::Code(code)),
    }
}

/// Whether a receiver counts as reached by an assignment that ended so: where it ended well, and where an operation
/// refused. Where it doesn't, the variables are as before.
pub fn is_reached(outcome: &Result<(), Fault>) -> bool
    ensures { result ≡ is_reached outcome.now }
{
    match outcome {
        Ok(()) => true,
        Err(fault) => is_refusal(fault),
    }
}

/// The code of a fault, where memory didn't fail.
pub fn code_of_fault(fault: Fault) -> Result<Option<Code>, NoMemory>
    ensures code { IfOk result (λ code. HasCode fault code) }
    ensures memory { IfErr result (λ _. fault ≡ of_fault.NoMemory) }
{
    match fault {
        Fault::Code(code) => Ok(Some(code)),
        Fault::NoMemory => Err(NoMemory),
    }
}

/// The code with which an assignment ended, None where it ended well, where memory didn't fail.
pub fn code_of(ended: Result<(), Fault>) -> Result<Option<Code>, NoMemory>
    ensures code { IfOk result (λ code. EndsWith ended code) }
    ensures memory { IfErr result (λ _. ended ≡ Err of_fault.NoMemory) }
{
    match ended {
        Ok(()) => Ok(None),
        Err(fault) => code_of_fault(fault),
    }
}

/// Whether an operation refused.
fn is_refusal(fault: &Fault) -> bool
    ensures { result ≡ spec.is_refusal fault.now }
{
    match fault {
        Fault::Code(code) => code.number() == X75_NOT_DECIMAL,
        Fault::NoMemory => false,
    }
}

/// The bytes of a buffer. P59 and P57 come as for a value.
pub fn buffer_bytes<'a>(vars: &'a Vars, of: &Buffer) -> Result<&'a [u8], Code>
    requires named { IsBuffer of.now }
    ensures { spec.LendsOr (spec.buffer_bytes of.now vars.now) result }
{
    match of {
        Buffer::Value(of) => value_bytes(vars, of),
        Buffer::Array(array) => vars.all(array.var),
    }
}

/// The bytes that an alpha receiver names, and those of blanks for a scalar that isn't there.
fn value_bytes<'a>(vars: &'a Vars, of: &AlphaReceiver) -> Result<&'a [u8], Code>
    requires named { IsAlpha of.now.element.var }
    ensures { spec.LendsOr (spec.value_bytes of.now vars.now) result }
{
    let element = of.element;
    match vars.alpha(element.var, element.row, element.column) {
        Ok(bytes) => Ok(first_bytes(
            rest_after(bytes, usize::from(of.portion.from)),
            usize::from(of.portion.count),
        )),
        Err(code) => Err(code),
    }
}

/// Hands the bytes of a buffer to a closure, which may change them. A scalar that isn't there is made first. Codes come as
/// for bytes, or for a whole array P59 alone; and then all is as before.
pub fn change_buffer<F: FnOnce(&mut [u8])>(
    vars: &mut Vars,
    to: &Buffer,
    change: F,
) -> Result<(), Fault>
    requires named { IsBuffer to.now }
    requires callable { F.IsAlwaysCallable change }
    ensures ok { OnOk result (ChangesBuffer (λ x y. FnOnceReturnsAtMut F.FnOnce change x tt y) to.now vars.old vars.new) }
    ensures code { AnswersOrFails (buffer_code to.now vars.old) result }
    ensures err { OnErr result (vars.new ≡ vars.old) }
{
    match to {
        Buffer::Value(to) => {
            match reach(vars, to) {
                Ok(()) => {}
                Err(fault) => return Err(fault),
            }
            let element = to.element;
            let from = usize::from(to.portion.from);
            let count = usize::from(to.portion.count);
            vars.change_part(
                element.var,
                element.row,
                element.column,
                from,
                count,
                change,
            );
            Ok(())
        }
        Buffer::Array(array) => match vars.reach_all(array.var) {
            Ok(()) => {
                vars.change_all(array.var, change);
                Ok(())
            }
            Err(code) => Err(Fault::Code(code)),
        },
    }
}
