// Whose `@` variables a loan lends.
ghost use Rattle.std.specs.Prelude.{◌≡◌};
ghost use Rattle.b2_access.specs.Loans.{lender_at};

use crate::lookups::Lookups;
use b2_access::At;
use b2_base::Part;

/// The partition whose `@` variables are asked for, None where nobody's are.
pub fn lender<S: Lookups>(store: &S, home: Part, at: &At) -> Option<Part>
    ensures { result ≡ lender_at home at.now (S.state store.now) }
{
    match at {
        At::None => None,
        At::Home => Some(home),
        At::Named(name) => store.name_holder(*name),
    }
}
