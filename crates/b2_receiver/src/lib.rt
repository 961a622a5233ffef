//! Receivers: the variables, elements and parts of values to which statements give values.
//!
//! Receivers are located by `number_receiver`, `alpha_receiver`, `any_receiver`, `buffer`, `whole_array` and `array_named`, as
//! `specs/Receivers.antt` says of their trees; `right_side` takes the operands of an alpha assignment (`specs/RightSide.antt`),
//! and `assign_number`, `assign_bytes`, `assign_value`, `assign_side` and `change_buffer` change variables, as
//! `specs/Assigning.antt` says. Statements assign in their workspace: `give_bytes` and `give_value` to a receiver that was
//! located, `assign_number_at`, `assign_bytes_at` and `assign_side_at` at once (`specs/Receiving.antt`); `change_among` chooses
//! the variables for these and for what else changes some. `past_number_receiver`, `past_alpha_receiver` and
//! `past_any_receiver` pass receivers. `right_side` alone takes memory, where there are operations.
//!
//! Stands on `b2_expr` for subscripts, operands and workspaces, on `b2_rows` and `b2_atom` for rows at the bytes of a unit, on
//! `b2_alpha` and `b2_dec` for values and on `b2_vars` for variables.
#![tactic(auto)]

mod assign;
pub mod laws;
mod locate;
mod operations;
mod receiver;
mod receivers;
mod receiving;
mod skip_text;

pub use assign::{
    assign_bytes, assign_first, assign_number, assign_side, assign_value, buffer_bytes,
    change_buffer, code_of, code_of_fault, is_reached,
};
pub use locate::{alpha_receiver_at, number_receiver_at};
pub use operations::{AlphaOperator, Operation, RightSide, is_operation_at, is_right_side_read};
pub use receiver::{AlphaReceiver, Array, Buffer, Portion, Receiver};
pub use receivers::{
    alpha_receiver, any_receiver, array_named, buffer, number_receiver, right_side, whole_array,
};
pub use receiving::{
    assign_bytes_at, assign_number_at, assign_side_at, change_among, give_bytes, give_value,
};
pub use skip_text::{past_alpha_receiver, past_any_receiver, past_number_receiver};
