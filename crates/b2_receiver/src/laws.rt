// What holds of receivers and of assigning to them.
ghost use Rattle.b2_receiver.specs.ReceiverLaws.{EachPartIsAPortion, NoCodeWhereReached, SameWhereNotReached};

/// The bytes that STR names as a receiver are those that it gives as an operand, with the same codes.
pub fn each_part_is_a_portion()
    ensures { EachPartIsAPortion }
{}

/// Where the receiver of an alpha assignment isn't reached, the variables are as before.
pub fn same_where_not_reached()
    ensures { SameWhereNotReached }
{}

/// A receiver that is reached had no code of its own: an operation alone refuses with X75.
pub fn no_code_where_reached()
    ensures { NoCodeWhereReached }
{}
