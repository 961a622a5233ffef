// What the printed form and number text have to do with each other.
ghost use Rattle.std.specs.Prelude.{◌≡◌, ◌∷◌, [], ◌++◌, true, Some, if◌then◌else◌, length};
ghost use Rattle.b2_base.specs.Byte as byte;
ghost use Rattle.b2_dectext.specs.NumberText.{number_len, number_read};
ghost use Rattle.b2_dectext.specs.Printed.{printed, without_spaces, is_plain, as_shown};

use b2_dec::Dec;

/// A printed form is `-` or a space, the number, one space. Without its outer spaces it is read back whole, and is the
/// number that it shows: without an exponent the number itself, with one the number without its last four digits. What is
/// read is printed alike.
pub fn printed_is_read(a: Dec)
    ensures spaces { printed a ≡ (if a.neg then [] else byte.blank ∷ []) ++ without_spaces a ++ (byte.blank ∷ []) }
    ensures len { number_len (without_spaces a) ≡ length (without_spaces a) }
    ensures value { number_read (without_spaces a) ≡ Some (as_shown a) }
    ensures plain { is_plain a ≡ true → as_shown a ≡ a }
    ensures again { printed (as_shown a) ≡ printed a }
{
    // That zero has one spelling.
    let _zero = a.is_zero();
}
