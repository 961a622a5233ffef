// MAT SEARCH: the places of bytes that stand in a relation to a value.
ghost use Rattle.std.specs.Prelude.{◌≡◌, ◌<◌, true, length, IfOk, MatchResult, Ok, Err};
ghost use Rattle.b2_atom.specs.declared.forms.Start.TheVariants as start;
ghost use Rattle.b2_atom.specs.declared.rows.TheConstants as row;
ghost use Rattle.b2_atom.specs.declared.words.TheConstants as word;
ghost use Rattle.b2_rows.specs.Optional.{maybe_phrase, maybe_tree};
ghost use Rattle.b2_rows.specs.Rows.{is_phrase, tree_at};
ghost use Rattle.b2_receiver.specs.Receivers.{IsAlpha, IsBuffer};
ghost use Rattle.b2_expr.specs.Scope.{surroundings};
ghost use Rattle.b2_expr.specs.Value.{in_statement};
ghost use Rattle.b2_expr.specs.Functions.{within};
ghost use Rattle.b2_expr.specs.Workspace.{SameReferences, workspace};
ghost use Rattle.b2_matalpha.specs.Locators.{received};
ghost use Rattle.b2_stmt_mat.specs.Arrays.{families};
ghost use Rattle.b2_stmt_mat.specs.Searching as spec;

use crate::arrays::vars_of;
use crate::byte_arrays::NAMED_BYTES;
use b2_alpha::{Rel, assign};
use b2_atom::words::STEP;
use b2_atom::{Cursor, relation_width};
use b2_base::codes::P34_RANGE;
use b2_base::lexical::{first_bytes, rest_after};
use b2_base::{Code, NoMemory};
use b2_dec::{Bytes, fix, whole};
use b2_dims::number_at;
use b2_expr::{Env, Workspace, alpha, surroundings_of};
use b2_matalpha::search;
use b2_receiver::{AlphaReceiver, Buffer, alpha_receiver, buffer, buffer_bytes, give_bytes};
use b2_rows::{is_at, relation_at};

/// Room for as many bytes as a receiver may name.
const ROOM: usize = 255;

/// What MAT SEARCH asks for.
#[derive(Drop)]
pub struct Search {
    /// The bytes that are searched.
    pub of: Buffer,
    /// How they are to stand to the value.
    pub relation: Rel,
    /// The value.
    pub want: Bytes,
    /// What takes the places.
    pub to: AlphaReceiver,
    /// By how many places the search goes on.
    pub step: u16,
}

/// A step, P34 where it is not from 1 to 65,535.
fn step_of(n: Option<i64>) -> Result<u16, Code>
    ensures value { result ≡ within 1 65535 n }
    ensures some { IfOk result (λ step. 0 < step) }
{
    match n {
        Some(n) if 1 <= n && n <= 65_535 => Ok(n as u16),
        _ => Err(Code::known(P34_RANGE)),
    }
}

/// The step after the receiver, 1 where none is written.
#[tactic(auto, using(crate::proofs::SearchRows::step_sum, crate::proofs::SearchRows::step_is, crate::proofs::SearchRows::no_step))]
fn search_step_at(e: &Env<'_>, text: &[u8]) -> Result<u16, Code>
    requires phrase { maybe_phrase (start.Code word.STEP) row.STEP text.now ≡ true }
    ensures step { result ≡ spec.step_in (in_statement (surroundings e.now)) (maybe_tree (start.Code word.STEP) row.STEP text.now) }
    ensures some { IfOk result (λ step. 0 < step) }
{
    if !is_at(STEP, text) {
        return Ok(1);
    }
    match number_at(e, rest_after(text, 1)) {
        Ok((x, _)) => step_of(whole(fix(x))),
        Err(code) => Err(code),
    }
}

/// What MAT SEARCH asks for, or the first code from the left.
#[tactic(auto, using(crate::proofs::SearchRows::of_part, crate::proofs::SearchRows::relation_leaf, crate::proofs::SearchRows::want_part, crate::proofs::SearchRows::receiver_part, crate::proofs::SearchRows::step_part, crate::proofs::SearchRows::search_is))]
fn search_at(e: &Env<'_>, unit: &[u8]) -> Result<Search, Code>
    requires phrase { is_phrase row.MAT_SEARCH unit.now ≡ true }
    ensures asked { result ≡ spec.search_in (in_statement (surroundings e.now)) (tree_at row.MAT_SEARCH unit.now) }
    ensures of { IfOk result (λ s. IsBuffer s.of) }
    ensures to { IfOk result (λ s. IsAlpha s.to.element.var) }
    ensures step { IfOk result (λ s. 0 < s.step) }
{
    let mut c = Cursor::over(rest_after(rest_after(unit, 1), 1));
    let of = match buffer(&mut c, e) {
        Ok(of) => of,
        Err(code) => return Err(code),
    };
    let sign = rest_after(c.rest(), 1);
    let relation = relation_at(sign);
    let mut c = Cursor::over(rest_after(sign, relation_width(sign)));
    let mut want = Bytes::new();
    match alpha(&mut c, e, &mut want) {
        Ok(()) => {}
        Err(code) => return Err(code),
    }
    let mut c = Cursor::over(rest_after(c.rest(), 1));
    let to = match alpha_receiver(&mut c, e) {
        Ok(to) => to,
        Err(code) => return Err(code),
    };
    match search_step_at(e, c.rest()) {
        Ok(step) => Ok(Search {
            of,
            relation,
            want,
            to,
            step,
        }),
        Err(code) => Err(code),
    }
}

/// Puts the places that are found at the front of a receiver's bytes.
fn search_bytes(asked: &Search, bytes: &[u8], into: &mut [u8])
    requires step { 0 < asked.now.step }
    ensures { into.new ≡ received (spec.places_of asked.now bytes.now) into.old }
{
    let of = first_bytes(bytes, NAMED_BYTES);
    let want = asked.want.bytes();
    if want.is_empty() {
        search(&[], asked.relation, b" ", 1, into);
    } else {
        search(of, asked.relation, want, usize::from(asked.step), into);
    }
}

/// The bytes of a receiver with the places that are found at their front.
fn found_bytes(e: &Env<'_>, asked: &Search, into: &mut [u8]) -> Result<(), Code>
    requires of { IsBuffer asked.now.of }
    requires to { IsAlpha asked.now.to.element.var }
    requires step { 0 < asked.now.step }
    requires count { length into.old ≡ asked.now.to.portion.count }
    ensures { MatchResult result (λ done. spec.found asked.now (families (surroundings e.now)) ≡ Ok into.new) (λ code. spec.found asked.now (families (surroundings e.now)) ≡ Err code) }
{
    let bytes = match buffer_bytes(vars_of(e, asked.of.is_global()), &asked.of) {
        Ok(bytes) => bytes,
        Err(code) => return Err(code),
    };
    match buffer_bytes(
        vars_of(e, asked.to.element.global),
        &Buffer::Value(asked.to),
    ) {
        Ok(old) => assign(into, old),
        Err(code) => return Err(code),
    }
    search_bytes(asked, bytes, into);
    Ok(())
}

/// Searches. The code with which that ended, or none; with one nothing changed.
fn search_asked(work: &mut Workspace<'_>, asked: &Search) -> Result<Option<Code>, NoMemory>
    requires of { IsBuffer asked.now.of }
    requires to { IsAlpha asked.now.to.element.var }
    requires step { 0 < asked.now.step }
    ensures worked { IfOk result (λ code. record { work = workspace work.new; code = code } ≡ spec.searches_found (Ok asked.now) (workspace work.old)) }
    ensures same_references { SameReferences work.old work.new }
{
    let mut room = [b' '; ROOM];
    let into = &mut room[..usize::from(asked.to.portion.count)];
    match found_bytes(&surroundings_of(work), asked, into) {
        Ok(()) => give_bytes(work, &asked.to, into),
        Err(code) => Ok(Some(code)),
    }
}

/// MAT SEARCH: the places of bytes that stand in a relation to a value. The code with which that ended, or none.
pub fn search_array(work: &mut Workspace<'_>, unit: &[u8]) -> Result<Option<Code>, NoMemory>
    requires phrase { is_phrase row.MAT_SEARCH unit.now ≡ true }
    ensures worked { IfOk result (λ code. record { work = workspace work.new; code = code } ≡ spec.searches (tree_at row.MAT_SEARCH unit.now) (workspace work.old)) }
    ensures same_references { SameReferences work.old work.new }
{
    match search_at(&surroundings_of(work), unit) {
        Ok(asked) => search_asked(work, &asked),
        Err(code) => Ok(Some(code)),
    }
}
