// The addresses of devices and the partitions that these are for, where they are known to be such.
ghost use Rattle.std.specs.Prelude.{◌≡◌, true};
ghost use Rattle.b2_base.specs.Names.{is_address};
ghost use Rattle.b2_boot.specs.Boots as spec;

use b2_base::lexical::hex_value;
use b2_base::{Addr, Part};

/// An address that is known to be one.
pub fn address_known(bytes: &[u8]) -> Addr
    requires { is_address bytes.now ≡ true }
    ensures { result ≡ bytes.now }
{
    Addr::of(bytes).unwrap()
}

/// The number below 4,096 that an address spells.
pub fn address_number(address: Addr) -> u16
    ensures { result ≡ spec.address_number address }
{
    let [a, b, c] = address.bytes();
    256 * u16::from(hex_value(a)) + 16 * u16::from(hex_value(b)) + u16::from(hex_value(c))
}

/// The partition of a number that is known to be one, where there is one.
pub fn only_known(only: Option<u16>) -> Option<Part>
    requires { spec.may_be_number only ≡ true }
    ensures { result ≡ only }
{
    match only {
        Some(number) => Some(Part::known(number as u8)),
        None => None,
    }
}
