//! The values of expressions and conditions, by their trees.
//!
//! `number`, `alpha` and `condition` give the value of what stands at a cursor, or the first code from the left. They want
//! that a numeric expression, an alpha expression or a condition is read there (`is_phrase` of `b2_rows`), and what it comes
//! to is said by its tree: `specs/Value.antt` for numbers and bytes, `specs/Condition.antt` for conditions, with
//! `specs/Functions.antt` and `specs/Operators.antt` on values alone and `specs/Named.antt` for variables by their names.
//! `specs/Scope.antt` says what an expression looks at. The code goes along the bytes and keeps no tree: a loop each
//! for sums, products and powers, a call for parentheses and arguments. Its functions of numbers hand on a number or a code
//! in one word, and how many bytes are left after it (`found`), those of conditions a truth or a code; `number_or_code`
//! gives the number or the code of an expression so, and `condition_at` that of a condition. What is plain, a scalar or a
//! number alone or two that an operator joins, is read at once (`plain`, `plain_number`), and else the long way follows.
//!
//! Stands on `b2_rows` for rows at the bytes of a unit, on `b2_atom` for the table, on `b2_dec`, `b2_dectext` and `b2_alpha`
//! for values, on `b2_vars` for variables and on `b2_text` for the functions of a program.
//!
//! What the expressions and the receivers of a statement look at and change is its `Workspace` (`specs/Workspace.antt`);
//! receivers themselves are the next crate's (`b2_receiver`), which goes along the same rows by `located`, `climb` and
//! `second`.
#![tactic(auto)]

mod appended;
mod conditions;
mod evaluate;
mod evaluated;
mod functions;
mod kinds;
mod literals;
mod named;
mod operators;
mod plain;
mod scope;
mod skip_text;
mod value;
mod workspace;

pub use evaluate::{climb, located, second};
pub use evaluated::{Judged, after_condition};
pub use functions::{fixed, whole_between};
pub use kinds::suits;
pub use named::{Element, Located, NameKind, counted_digit, plain_width, variable_of};
pub use operators::Level;
pub use scope::{Env, Scope, variables_of};
pub use skip_text::{past_alpha, past_name, past_part, past_sum};
pub use value::{
    alpha, alpha_at, condition, condition_at, in_statement, number, number_or_code, plain_number,
};
pub use workspace::{Workspace, reached_after, surroundings_of};
