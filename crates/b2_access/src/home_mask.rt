// The partitions that a mask marks.
ghost use Rattle.std.specs.Prelude.{◌≡◌};
ghost use Rattle.b2_access.specs.Borrowers.{all_partitions, homes_entered, is_marked};

use b2_base::Part;
use b2_flow::Stack;

/// All sixteen partitions.
pub fn all_parts() -> [Part; 16]
    ensures { result ≡ all_partitions }
{
    [
        Part::known(1),
        Part::known(2),
        Part::known(3),
        Part::known(4),
        Part::known(5),
        Part::known(6),
        Part::known(7),
        Part::known(8),
        Part::known(9),
        Part::known(10),
        Part::known(11),
        Part::known(12),
        Part::known(13),
        Part::known(14),
        Part::known(15),
        Part::known(16),
    ]
}

/// Whether a mask marks a partition.
pub fn is_marked(homes: u16, p: Part) -> bool
    ensures { result ≡ is_marked p homes }
{
    homes >> (p.number() - 1) & 1 == 1
}

/// The mask of the partitions whose texts some calls entered.
#[tactic(auto, using(crate::proofs::EnteredHomes::mask_of_marks))]
pub fn homes_entered(stack: &Stack) -> u16
    ensures { result ≡ homes_entered stack.now }
{
    stack.homes()
}
