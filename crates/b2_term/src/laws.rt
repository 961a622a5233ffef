//! What holds of every order: the law is the contract of a function without a body.
ghost use Rattle.b2_term.specs.Orders.{FirstFollowsLast, FirstFollowsOthers, NextFollows};

/// A terminal goes round in its order: who stands right after a partition comes next, and the first after the last and after
/// those that aren't in the order.
pub fn law_a_terminal_goes_round()
    ensures next { NextFollows }
    ensures last { FirstFollowsLast }
    ensures others { FirstFollowsOthers }
{}
