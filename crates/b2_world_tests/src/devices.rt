// Accesses by which a partition takes devices, frees them, and prints.
//
// `1 hold ADDRESS,..` takes all of these devices or none, `1 free ADDRESS,..` frees those of them that are the own, and `1 print ADDRESS
// BYTES` prints.
ghost use Rattle.std.specs.Prelude.{IfSome};
ghost use Rattle.b2_access.specs.Touching.{IsLegal};

use crate::pieces::word;
use b2_access::Access;
use b2_base::{Addr, AddrList, ByteList, cut};
use b2_cases::Sheet;

/// How many addresses a list has at most.
const MOST: usize = 12;

/// Addresses with commas between them, None where one is misspelled or there are too many.
fn addresses_of(spelled: &[u8]) -> Option<AddrList> {
    let mut addrs = AddrList::new();
    let mut left = spelled;
    for _ in 0..MOST {
        if addrs.addresses().len() >= MOST {
            return None;
        }
        let (first, more) = cut(left, b',');
        addrs.push(Addr::of(first)?);
        match more {
            Some(text) => left = text,
            None => return Some(addrs),
        }
    }
    None
}

/// An access that prints, None where it is misspelled.
pub fn printing(sheet: &mut Sheet<'_>, spelled: &[u8]) -> Option<Access>
    ensures { IfSome result IsLegal }
{
    let (address, text) = word(spelled);
    let addr = Addr::of(address)?;
    Some(Access::PrintTo {
        addr,
        bytes: ByteList::new(sheet.spelled(text)),
        column: 0,
    })
}

/// An access that takes or frees devices, None where it is misspelled.
pub fn taking(kind: &str, rest: &[u8]) -> Option<Access>
    ensures { IfSome result IsLegal }
{
    let addrs = addresses_of(rest)?;
    match kind {
        "hold" => Some(Access::OpenDevices { addrs }),
        _ => Some(Access::CloseDevices { addrs }),
    }
}
