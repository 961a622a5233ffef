// An assignment to one receiver, done fast.
ghost use Rattle.std.specs.Prelude.{◌≡◌, [], true, false, None, MatchResult, IfOk, Ok, Err};
ghost use Rattle.b2_atom.specs.Grammar.{starts};
ghost use Rattle.b2_atom.specs.declared.forms.Start.TheVariants as start;
ghost use Rattle.b2_atom.specs.declared.rows.TheConstants as row;
ghost use Rattle.b2_atom.specs.declared.words.Origin.TheVariants.{Atoms};
ghost use Rattle.b2_rows.specs.Rows.{after_phrase, is_phrase, tree_at};
ghost use Rattle.b2_vars.specs.Globals.{unreached};
ghost use Rattle.b2_expr.specs.Reads.{Gives};
ghost use Rattle.b2_expr.specs.Scope.{surroundings};
ghost use Rattle.b2_expr.specs.Value.{context_of, value};
ghost use Rattle.b2_expr.specs.Value.{text as value_text};
ghost use Rattle.b2_expr.specs.Workspace.{surroundings_of};
ghost use Rattle.b2_expr.specs.declared.operators.Level.TheVariants as level;
ghost use Rattle.b2_receiver.specs.Assigning.{assigned_number, assigned_side};
ghost use Rattle.b2_receiver.specs.Receivers.{IsAlpha, IsNumeric, alpha_receiver, number_receiver};
ghost use Rattle.b2_access.specs.Found.{IsRead, seen_found, statement_found};
ghost use Rattle.b2_access.specs.JumpTargets.{lead_seen};
ghost use Rattle.b2_access.specs.Fast.{DoneFast};
ghost use Rattle.b2_access.specs.Working.{Ends, as_planned};
ghost use Rattle.b2_stmt_var.specs.Assignments.{assigns};
ghost use Rattle.b2_stmt_var.specs.Plan.{ended_of};
ghost use Rattle.b2_stmt_var.specs.Fast as spec;

use b2_access::{Found, Lead, Private, lead_on};
use b2_base::Code;
use b2_base::lexical::{at, first, is_letter, rest_after};
use b2_dec::{Bytes, Dec, NumberOrCode};
use b2_expr::{
    Element, Env, alpha_at, counted_digit, in_statement, number_or_code, plain_number, plain_width,
};
use b2_receiver::{
    AlphaReceiver, alpha_receiver_at, assign_first, assign_number, is_operation_at,
    number_receiver_at,
};
use b2_rows::{is_alpha_at, is_at};
use b2_text::Text;
use b2_vars::Vars;

/// What the expressions of a partition look at, where no `@` variables are lent.
#[inline(always)]
fn env_here<'a>(me: &'a Private, home: &'a Text) -> Env<'a>
    ensures { surroundings result ≡ surroundings_of (spec.own_work me.now home.now) }
{
    Env {
        own: &me.vars,
        globals: None,
        home,
        mode: me.mode,
        err: me.last,
        part: me.part,
        term: me.term,
    }
}

/// The value of an expression of a partition, or its first code.
#[inline(always)]
fn number_here<'a>(me: &'a Private, home: &'a Text, text: &[u8]) -> NumberOrCode
    requires phrase { is_phrase row.SUM text.now ≡ true }
    ensures { result ≡ value (context_of (spec.own_work me.now home.now)) level.Sum (tree_at row.SUM text.now) }
{
    let plain = plain_number(text, &me.vars, me.mode);
    if !plain.is_code() {
        return plain;
    }
    number_or_code(text, &env_here(me, home))
}

/// A numeric receiver of a partition, and what stands after it.
#[inline(always)]
fn number_receiver_here<'a>(
    me: &Private,
    home: &Text,
    text: &'a [u8],
) -> Result<(Element, &'a [u8]), Code>
    requires phrase { is_phrase row.NUMERIC_RECEIVER text.now ≡ true }
    ensures place { Gives (number_receiver (context_of (spec.own_work me.now home.now)) (tree_at row.NUMERIC_RECEIVER text.now)) (after_phrase row.NUMERIC_RECEIVER text.now) result }
    ensures name { IfOk result (λ p. IsNumeric p.0.var) }
{
    number_receiver_at(&in_statement(&env_here(me, home)), text)
}

/// An alpha receiver of a partition, and what stands after it.
#[inline(always)]
fn alpha_receiver_here<'a>(
    me: &Private,
    home: &Text,
    text: &'a [u8],
) -> Result<(AlphaReceiver, &'a [u8]), Code>
    requires phrase { is_phrase row.ALPHA_RECEIVER text.now ≡ true }
    ensures place { Gives (alpha_receiver (context_of (spec.own_work me.now home.now)) (tree_at row.ALPHA_RECEIVER text.now)) (after_phrase row.ALPHA_RECEIVER text.now) result }
    ensures name { IfOk result (λ p. IsAlpha p.0.element.var) }
{
    alpha_receiver_at(&in_statement(&env_here(me, home)), text)
}

/// The bytes of an alpha expression of a partition, and what stands after it.
#[inline(always)]
fn text_here<'a>(
    me: &Private,
    home: &Text,
    text: &'a [u8],
    into: &mut Bytes,
) -> Result<&'a [u8], Code>
    requires phrase { is_phrase row.ALPHA text.now ≡ true }
    requires empty { into.old ≡ [] }
    ensures { MatchResult result (λ left. (value_text (context_of (spec.own_work me.now home.now)) (tree_at row.ALPHA text.now) ≡ Ok into.new) × (left.now ≡ after_phrase row.ALPHA text.now)) (λ code. value_text (context_of (spec.own_work me.now home.now)) (tree_at row.ALPHA text.now) ≡ Err code) }
{
    alpha_at(&in_statement(&env_here(me, home)), text, into)
}

/// Assigns a number to a receiver. Whether it ended without a code; else all is as before.
#[tactic(auto, using(crate::proofs::OneReceiver::refused_alone))]
#[inline(always)]
fn assign_number_to(vars: &mut Vars, to: Element, x: Dec) -> bool
    requires named { IsNumeric to.var }
    ensures uncoded { result ≡ true → (assigned_number to x vars.old).code ≡ None }
    ensures set { result ≡ true → vars.new ≡ (assigned_number to x vars.old).vars }
    ensures unchanged { result ≡ false → vars.new ≡ vars.old }
{
    match assign_number(vars, to, x) {
        Ok(()) => true,
        Err(_) => false,
    }
}

/// Assigns bytes to a receiver. Whether it ended without a code; else all is as before.
#[tactic(auto, using(crate::proofs::OneReceiver::refused_alone))]
#[inline(always)]
fn set_text(vars: &mut Vars, to: &AlphaReceiver, bytes: &[u8]) -> bool
    requires named { IsAlpha to.now.element.var }
    ensures uncoded { result ≡ true → (assigned_side to.now (spec.one_value bytes.now) vars.old).code ≡ None }
    ensures set { result ≡ true → vars.new ≡ (assigned_side to.now (spec.one_value bytes.now) vars.old).vars }
    ensures unchanged { result ≡ false → vars.new ≡ vars.old }
{
    match assign_first(vars, to, bytes) {
        Ok(()) => true,
        Err(_) => false,
    }
}

/// Does an assignment of a number to one scalar that stands without subscripts and without `@`. Whether it was done; where
/// it is another assignment, or one that ends with a code, all is as before.
#[tactic(auto, using(crate::proofs::PlainAssignment::sum_part, crate::proofs::PlainAssignment::scalar_assigned))]
#[inline(always)]
fn assign_scalar(me: &mut Private, home: &Text, text: &[u8]) -> bool
    requires phrase { is_phrase row.ASSIGNMENT text.now ≡ true }
    ensures done { result ≡ true → assigns (tree_at row.ASSIGNMENT text.now) (spec.own_work me.old home.now) ≡ spec.assigned (spec.own_work me.old home.now) me.new.vars }
    ensures unchanged { result ≡ false → me.new ≡ me.old }
    ensures undisturbed { me.new ≡ record me.old { vars = me.new.vars } }
{
    let letter = first(text);
    let width = plain_width(text);
    if !is_letter(letter) || at(text, width) != b'=' {
        return false;
    }
    let x = number_here(me, home, rest_after(text, width + 1));
    if x.is_code() {
        return false;
    }
    me.vars
        .set_scalar(letter, counted_digit(at(text, 1)), x.get())
}

/// Does an assignment of a number to one receiver without `@`. Whether it was done; where it is another assignment, or one
/// that ends with a code, all is as before.
#[tactic(auto, using(crate::proofs::OneReceiver::number_part, crate::proofs::OneReceiver::sum_part, crate::proofs::OneReceiver::number_assigned))]
#[inline(never)]
fn assign_element(me: &mut Private, home: &Text, text: &[u8]) -> bool
    requires phrase { is_phrase row.ASSIGNMENT text.now ≡ true }
    requires kind { starts Atoms start.Alpha text.now ≡ false }
    ensures done { result ≡ true → assigns (tree_at row.ASSIGNMENT text.now) (spec.own_work me.old home.now) ≡ spec.assigned (spec.own_work me.old home.now) me.new.vars }
    ensures unchanged { result ≡ false → me.new ≡ me.old }
    ensures undisturbed { me.new ≡ record me.old { vars = me.new.vars } }
{
    let (to, rest) = match number_receiver_here(me, home, text) {
        Ok(found) => found,
        Err(_) => return false,
    };
    if to.global || !is_at(b'=', rest) {
        return false;
    }
    let x = number_here(me, home, rest_after(rest, 1));
    if x.is_code() {
        return false;
    }
    assign_number_to(&mut me.vars, to, x.get())
}

/// Does an assignment of bytes to one receiver without `@`, where its right side has no operations. Whether it was done;
/// where it is another assignment, or one that ends with a code, all is as before.
#[tactic(auto, using(crate::proofs::OneReceiver::text_part, crate::proofs::OneReceiver::side_part, crate::proofs::OneReceiver::text_assigned))]
#[inline(never)]
fn assign_text(me: &mut Private, home: &Text, text: &[u8]) -> bool
    requires phrase { is_phrase row.ASSIGNMENT text.now ≡ true }
    requires kind { starts Atoms start.Alpha text.now ≡ true }
    ensures done { result ≡ true → assigns (tree_at row.ASSIGNMENT text.now) (spec.own_work me.old home.now) ≡ spec.assigned (spec.own_work me.old home.now) me.new.vars }
    ensures unchanged { result ≡ false → me.new ≡ me.old }
    ensures undisturbed { me.new ≡ record me.old { vars = me.new.vars } }
{
    let (to, rest) = match alpha_receiver_here(me, home, text) {
        Ok(found) => found,
        Err(_) => return false,
    };
    let side = rest_after(rest, 1);
    if to.element.global || !is_at(b'=', rest) || !is_alpha_at(side) {
        return false;
    }
    let mut value = Bytes::new();
    let left = match text_here(me, home, side, &mut value) {
        Ok(left) => left,
        Err(_) => return false,
    };
    if is_operation_at(left) {
        return false;
    }
    set_text(&mut me.vars, &to, value.bytes())
}

/// Does an assignment to one receiver without `@`, where its right side has no operations. Whether it was done; where it is
/// another assignment, or one that ends with a code, all is as before.
#[inline(always)]
fn assign_here(me: &mut Private, home: &Text, text: &[u8]) -> bool
    requires phrase { is_phrase row.ASSIGNMENT text.now ≡ true }
    ensures done { result ≡ true → assigns (tree_at row.ASSIGNMENT text.now) (spec.own_work me.old home.now) ≡ spec.assigned (spec.own_work me.old home.now) me.new.vars }
    ensures unchanged { result ≡ false → me.new ≡ me.old }
    ensures undisturbed { me.new ≡ record me.old { vars = me.new.vars } }
{
    if assign_scalar(me, home, text) {
        return true;
    }
    if is_alpha_at(text) {
        assign_text(me, home, text)
    } else {
        assign_element(me, home, text)
    }
}

/// Does an assignment done fast where it has one receiver, which stands without `@`, and no operations on its right side,
/// ends without a code, and is followed by a unit of its line or by a line. Where it leads then; else nothing has changed.
#[tactic(auto, using(crate::proofs::FastLed::passed, crate::proofs::FastLed::not_done_fast))]
#[inline(always)]
pub fn do_fast(me: &mut Private, found: &Found<'_>) -> Lead
    requires read { IsRead found.now }
    requires row { found.now.unit.now.row ≡ row.ASSIGNMENT }
    ensures fast { DoneFast (lead_seen result) found.now me.old me.new (as_planned me.old (seen_found found.now (unreached None)) (Ends (ended_of (statement_found found.now) me.old (seen_found found.now (unreached None))))) }
    ensures part { me.new.part ≡ me.old.part }
    ensures undisturbed { me.new ≡ record me.old { vars = me.new.vars } }
{
    let lead = lead_on(found);
    if lead.is_done() && assign_here(me, found.home, found.unit.bytes) {
        lead
    } else {
        Lead::none()
    }
}
