// Where receivers stand: their rows at a text.
ghost use Rattle.std.specs.Prelude.{◌≡◌, true, drop, IfOk};
ghost use Rattle.b2_atom.specs.declared.rows.TheConstants as row;
ghost use Rattle.b2_rows.specs.Rows.{is_phrase, tree_at, after_phrase};
ghost use Rattle.b2_expr.specs.Reads.{Gives};
ghost use Rattle.b2_receiver.specs.Receivers as spec;
ghost use Rattle.b2_receiver.specs.Receivers.{IsAlpha, IsArray, IsBuffer, IsNamed, IsNumeric, array_leaf, array_row, is_alpha_array};
ghost use Rattle.b2_expr.specs.Named.{variable_of as spec_variable_of};
ghost use Rattle.b2_vars.specs.Names.{is_legal_name};
ghost use Rattle.b2_atom.specs.Leaves.{leaf_width};
ghost use Rattle.b2_atom.specs.declared.words.Origin.TheVariants.{Atoms};
ghost use Rattle.b2_rows.specs.Leaves.{is_leaf, leaf_bytes};
ghost use Rattle.b2_rows.specs.Values.{variable_name};
ghost use Rattle.b2_expr.specs.Scope.{surroundings};
ghost use Rattle.b2_expr.specs.Value.{context};

use crate::receiver::{AlphaReceiver, Array, Buffer, Portion, Receiver};
use b2_atom::words::STR_OPEN;
use b2_base::Code;
use b2_base::lexical::rest_after;
use b2_dec::{Dec, Kind};
use b2_expr::{
    Element, Env, Level, NameKind, Scope, climb, located, second, variable_of, variables_of,
    whole_between,
};
use b2_rows::{Name, alpha_name, is_alpha_at, is_array_at, is_at, numeric_name};

/// A numeric receiver, and what stands after it. X77 comes at the name, then the codes of the subscripts, P59 and P57.
#[tactic(auto, using(crate::proofs::ReceiverRows::number_is))]
pub fn number_receiver_at<'a>(s: &Scope<'_>, text: &'a [u8]) -> Result<(Element, &'a [u8]), Code>
    requires phrase { is_phrase row.NUMERIC_RECEIVER text.now ≡ true }
    ensures place { Gives (spec.number_receiver (context s.now) (tree_at row.NUMERIC_RECEIVER text.now)) (after_phrase row.NUMERIC_RECEIVER text.now) result }
    ensures name { IfOk result (λ p. IsNumeric p.0.var) }
{
    let (located, rest) = match located(s, NameKind::NumberReceiver, text) {
        Ok(found) => found,
        Err(code) => return Err(code),
    };
    match located.reached() {
        Ok(element) => Ok((element, rest)),
        Err(code) => Err(code),
    }
}

/// All bytes of an alpha value, as a receiver.
#[tactic(auto, using(crate::proofs::ReceiverRows::whole_is))]
fn whole_value_at<'a>(s: &Scope<'_>, text: &'a [u8]) -> Result<(AlphaReceiver, &'a [u8]), Code>
    requires phrase { is_phrase row.ALPHA_RECEIVER_VARIABLE text.now ≡ true }
    ensures place { Gives (spec.whole_value (context s.now) (tree_at row.ALPHA_RECEIVER_VARIABLE text.now)) (after_phrase row.ALPHA_RECEIVER_VARIABLE text.now) result }
    ensures name { IfOk result (λ p. IsAlpha p.0.element.var) }
{
    let (located, rest) = match located(s, NameKind::AlphaReceiver, text) {
        Ok(found) => found,
        Err(code) => return Err(code),
    };
    let bytes = match located.bytes() {
        Ok(bytes) => bytes,
        Err(code) => return Err(code),
    };
    let portion = Portion {
        from: 0,
        count: bytes.len() as u8,
    };
    let receiver = AlphaReceiver {
        element: located.element,
        portion,
    };
    Ok((receiver, rest))
}

/// Of a value of `length` bytes those from one place on, and as many as are counted, or all: P34 where they aren't there.
fn portion_of(length: u8, from: Dec, count: Option<Dec>) -> Result<Portion, Code>
    ensures { result ≡ spec.portion_of length from count }
{
    let first = match whole_between(1, length, from) {
        Ok(first) => first,
        Err(code) => return Err(code),
    };
    let before = first - 1;
    match portion_count(length - before, count) {
        Ok(count) => Ok(Portion {
            from: before,
            count,
        }),
        Err(code) => Err(code),
    }
}

/// How many bytes are named of those that are left.
fn portion_count(left: u8, count: Option<Dec>) -> Result<u8, Code>
    ensures { result ≡ spec.portion_count left count }
{
    match count {
        None => Ok(left),
        Some(count) => whole_between(1, left, count),
    }
}

/// The bytes that STR names, as a receiver: after the codes of its variable those of its numbers, and P34 last.
#[tactic(auto, using(crate::proofs::ReceiverRows::part_is, b2_expr::proofs::Texts::part_variable, b2_expr::proofs::Texts::part_from, b2_expr::proofs::Texts::part_count, b2_expr::proofs::Texts::part_rest))]
fn part_receiver_at<'a>(s: &Scope<'_>, text: &'a [u8]) -> Result<(AlphaReceiver, &'a [u8]), Code>
    requires phrase { is_phrase row.STRING_PART text.now ≡ true }
    ensures place { Gives (spec.part_receiver (context s.now) (tree_at row.STRING_PART text.now)) (after_phrase row.STRING_PART text.now) result }
    ensures name { IfOk result (λ p. IsAlpha p.0.element.var) }
{
    let (whole, after) = match whole_value_at(s, rest_after(text, 1)) {
        Ok(found) => found,
        Err(code) => return Err(code),
    };
    let (from, after) = match climb(Level::Sum, s, rest_after(after, 1)) {
        Ok(found) => found,
        Err(code) => return Err(code),
    };
    let (count, rest) = match second(s, after) {
        Ok(found) => found,
        Err(code) => return Err(code),
    };
    match portion_of(whole.portion.count, from, count) {
        Ok(portion) => Ok((
            AlphaReceiver {
                element: whole.element,
                portion,
            },
            rest_after(rest, 1),
        )),
        Err(code) => Err(code),
    }
}

/// An alpha receiver, and what stands after it.
#[tactic(auto, using(crate::proofs::ReceiverRows::alpha_part_here, crate::proofs::ReceiverRows::alpha_part_is, crate::proofs::ReceiverRows::alpha_part_rest, crate::proofs::ReceiverRows::alpha_whole_here, crate::proofs::ReceiverRows::alpha_whole_is, crate::proofs::ReceiverRows::alpha_whole_rest))]
pub fn alpha_receiver_at<'a>(
    s: &Scope<'_>,
    text: &'a [u8],
) -> Result<(AlphaReceiver, &'a [u8]), Code>
    requires phrase { is_phrase row.ALPHA_RECEIVER text.now ≡ true }
    ensures place { Gives (spec.alpha_receiver (context s.now) (tree_at row.ALPHA_RECEIVER text.now)) (after_phrase row.ALPHA_RECEIVER text.now) result }
    ensures name { IfOk result (λ p. IsAlpha p.0.element.var) }
{
    if is_at(STR_OPEN, text) {
        part_receiver_at(s, text)
    } else {
        whole_value_at(s, text)
    }
}

/// A receiver of either kind, and what stands after it.
#[tactic(auto, using(crate::proofs::ReceiverRows::any_alpha_here, crate::proofs::ReceiverRows::any_alpha_is, crate::proofs::ReceiverRows::any_alpha_rest, crate::proofs::ReceiverRows::any_number_here, crate::proofs::ReceiverRows::any_number_is, crate::proofs::ReceiverRows::any_number_rest))]
pub fn any_receiver_at<'a>(s: &Scope<'_>, text: &'a [u8]) -> Result<(Receiver, &'a [u8]), Code>
    requires phrase { is_phrase row.RECEIVER text.now ≡ true }
    ensures place { Gives (spec.any_receiver (context s.now) (tree_at row.RECEIVER text.now)) (after_phrase row.RECEIVER text.now) result }
    ensures name { IfOk result (λ p. IsNamed p.0) }
{
    if is_alpha_at(text) {
        match alpha_receiver_at(s, text) {
            Ok((to, rest)) => Ok((Receiver::Alpha(to), rest)),
            Err(code) => Err(code),
        }
    } else {
        match number_receiver_at(s, text) {
            Ok((to, rest)) => Ok((Receiver::Number(to), rest)),
            Err(code) => Err(code),
        }
    }
}

/// The array of a name: X77 where there are no `@` variables, and P59 where it isn't there.
fn array_there(env: &Env<'_>, name: Name) -> Result<Array, Code>
    requires { is_legal_name (spec_variable_of name true) ≡ true }
    ensures place { result ≡ spec.array_there (surroundings env.now) name }
    ensures var { IfOk result (λ array. array.var ≡ spec_variable_of name true) }
{
    let vars = match variables_of(env, name) {
        Ok(vars) => vars,
        Err(code) => return Err(code),
    };
    let var = variable_of(name, true);
    match vars.reach_all(var) {
        Ok(()) => Ok(Array {
            global: name.global,
            var,
        }),
        Err(code) => Err(code),
    }
}

/// The name of an array, and how many bytes it takes.
#[tactic(auto, using(b2_expr::proofs::Names::legal_name))]
fn array_name_at(kind: Kind, text: &[u8]) -> (Name, usize)
    requires named { is_leaf (array_leaf kind) text.now ≡ true }
    ensures name { result.0 ≡ variable_name (is_alpha_array kind) (leaf_bytes (array_leaf kind) text.now) }
    ensures legal { is_legal_name (spec_variable_of result.0 true) ≡ true }
    ensures width { result.1 ≡ leaf_width Atoms (array_leaf kind) text.now }
{
    match kind {
        Kind::Number => numeric_name(text),
        Kind::Alpha => alpha_name(text),
    }
}

/// The array of the name at a text, and what stands after the name.
pub fn array_named_at<'a>(
    env: &Env<'_>,
    kind: Kind,
    text: &'a [u8],
) -> Result<(Array, &'a [u8]), Code>
    requires named { is_leaf (array_leaf kind) text.now ≡ true }
    ensures place { Gives (spec.array_there (surroundings env.now) (variable_name (is_alpha_array kind) (leaf_bytes (array_leaf kind) text.now))) (drop (leaf_width Atoms (array_leaf kind) text.now) text.now) result }
    ensures name { IfOk result (λ p. IsArray p.0.var × (p.0.var.alpha ≡ is_alpha_array kind)) }
{
    let (name, width) = array_name_at(kind, text);
    match array_there(env, name) {
        Ok(array) => Ok((array, rest_after(text, width))),
        Err(code) => Err(code),
    }
}

/// A whole array of a kind, and what stands after it.
#[tactic(auto, using(crate::proofs::ReceiverRows::array_here, crate::proofs::ReceiverRows::array_is, crate::proofs::ReceiverRows::array_rest))]
fn array_of_kind_at<'a>(
    env: &Env<'_>,
    kind: Kind,
    text: &'a [u8],
) -> Result<(Array, &'a [u8]), Code>
    requires phrase { is_phrase (array_row kind) text.now ≡ true }
    ensures place { Gives (spec.array_receiver (surroundings env.now) (is_alpha_array kind) (tree_at (array_row kind) text.now)) (after_phrase (array_row kind) text.now) result }
    ensures name { IfOk result (λ p. IsArray p.0.var × (p.0.var.alpha ≡ is_alpha_array kind)) }
{
    match array_named_at(env, kind, text) {
        Ok((array, rest)) => Ok((array, rest_after(rest, 2))),
        Err(code) => Err(code),
    }
}

/// A whole array of either kind, and what stands after it.
#[tactic(auto, using(crate::proofs::ReceiverRows::array_alpha_here, crate::proofs::ReceiverRows::array_alpha_is, crate::proofs::ReceiverRows::array_alpha_rest, crate::proofs::ReceiverRows::array_number_here, crate::proofs::ReceiverRows::array_number_is, crate::proofs::ReceiverRows::array_number_rest))]
pub fn whole_array_at<'a>(env: &Env<'_>, text: &'a [u8]) -> Result<(Array, &'a [u8]), Code>
    requires phrase { is_phrase row.WHOLE_ARRAY text.now ≡ true }
    ensures place { Gives (spec.whole_array (surroundings env.now) (tree_at row.WHOLE_ARRAY text.now)) (after_phrase row.WHOLE_ARRAY text.now) result }
    ensures name { IfOk result (λ p. IsArray p.0.var) }
{
    if is_alpha_at(text) {
        array_of_kind_at(env, Kind::Alpha, text)
    } else {
        array_of_kind_at(env, Kind::Number, text)
    }
}

/// A buffer that is no part of a value, and what stands after it.
#[tactic(auto, using(crate::proofs::ReceiverRows::buffer_array_here, crate::proofs::ReceiverRows::buffer_array_is, crate::proofs::ReceiverRows::buffer_array_rest, crate::proofs::ReceiverRows::buffer_value_here, crate::proofs::ReceiverRows::buffer_value_is, crate::proofs::ReceiverRows::buffer_value_rest))]
fn buffer_variable_at<'a>(s: &Scope<'_>, text: &'a [u8]) -> Result<(Buffer, &'a [u8]), Code>
    requires phrase { is_phrase row.BUFFER_VARIABLE text.now ≡ true }
    ensures place { Gives (spec.buffer_variable (context s.now) (tree_at row.BUFFER_VARIABLE text.now)) (after_phrase row.BUFFER_VARIABLE text.now) result }
    ensures name { IfOk result (λ p. IsBuffer p.0) }
{
    if is_array_at(text) {
        match array_of_kind_at(s.env, Kind::Alpha, text) {
            Ok((array, rest)) => Ok((Buffer::Array(array), rest)),
            Err(code) => Err(code),
        }
    } else {
        match whole_value_at(s, text) {
            Ok((to, rest)) => Ok((Buffer::Value(to), rest)),
            Err(code) => Err(code),
        }
    }
}

/// A buffer, and what stands after it.
#[tactic(auto, using(crate::proofs::ReceiverRows::buffer_part_here, crate::proofs::ReceiverRows::buffer_part_is, crate::proofs::ReceiverRows::buffer_part_rest, crate::proofs::ReceiverRows::buffer_variable_here, crate::proofs::ReceiverRows::buffer_variable_is, crate::proofs::ReceiverRows::buffer_variable_rest))]
pub fn buffer_at<'a>(s: &Scope<'_>, text: &'a [u8]) -> Result<(Buffer, &'a [u8]), Code>
    requires phrase { is_phrase row.BUFFER text.now ≡ true }
    ensures place { Gives (spec.buffer (context s.now) (tree_at row.BUFFER text.now)) (after_phrase row.BUFFER text.now) result }
    ensures name { IfOk result (λ p. IsBuffer p.0) }
{
    if is_at(STR_OPEN, text) {
        match part_receiver_at(s, text) {
            Ok((to, rest)) => Ok((Buffer::Value(to), rest)),
            Err(code) => Err(code),
        }
    } else {
        buffer_variable_at(s, text)
    }
}
