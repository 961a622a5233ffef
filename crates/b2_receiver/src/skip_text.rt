// What stands after receivers, found without the values of their subscripts and numbers: an assignment takes its expression
// first, and stands after them.
ghost use Rattle.std.specs.Prelude.{◌≡◌, true};
ghost use Rattle.b2_atom.specs.declared.rows.TheConstants as row;
ghost use Rattle.b2_rows.specs.Rows.{is_phrase, after_phrase};

use b2_atom::words::STR_OPEN;
use b2_expr::{NameKind, past_name, past_part};
use b2_rows::{is_alpha_at, is_at};

/// What stands after an alpha receiver.
#[tactic(auto, using(crate::proofs::ReceiverRows::alpha_part_here, crate::proofs::ReceiverRows::alpha_part_rest, crate::proofs::ReceiverRows::alpha_whole_here, crate::proofs::ReceiverRows::alpha_whole_rest))]
pub fn past_alpha_receiver(text: &[u8]) -> &[u8]
    requires phrase { is_phrase row.ALPHA_RECEIVER text.now ≡ true }
    ensures { result.now ≡ after_phrase row.ALPHA_RECEIVER text.now }
{
    if is_at(STR_OPEN, text) {
        past_part(text)
    } else {
        past_name(NameKind::AlphaReceiver, text)
    }
}

/// What stands after a receiver of either kind.
#[tactic(auto, using(crate::proofs::ReceiverRows::any_alpha_here, crate::proofs::ReceiverRows::any_alpha_rest, crate::proofs::ReceiverRows::any_number_here, crate::proofs::ReceiverRows::any_number_rest))]
pub fn past_any_receiver(text: &[u8]) -> &[u8]
    requires phrase { is_phrase row.RECEIVER text.now ≡ true }
    ensures { result.now ≡ after_phrase row.RECEIVER text.now }
{
    if is_alpha_at(text) {
        past_alpha_receiver(text)
    } else {
        past_name(NameKind::NumberReceiver, text)
    }
}

/// What stands after a numeric receiver.
pub fn past_number_receiver(text: &[u8]) -> &[u8]
    requires phrase { is_phrase row.NUMERIC_RECEIVER text.now ≡ true }
    ensures { result.now ≡ after_phrase row.NUMERIC_RECEIVER text.now }
{
    past_name(NameKind::NumberReceiver, text)
}
