// What the expressions of a partition look at beside its variables and a text.
ghost use Rattle.std.specs.Prelude.{◌≡◌};
ghost use Rattle.b2_access.specs.Partition.{setting_of};

use crate::private::Private;
use b2_vars::Setting;

/// What a partition's expressions look at beside its variables and a text.
pub fn setting_of(me: &Private) -> Setting
    ensures { result ≡ setting_of me.now }
{
    Setting {
        mode: me.mode,
        last: me.last,
        part: me.part,
        term: me.term,
    }
}
