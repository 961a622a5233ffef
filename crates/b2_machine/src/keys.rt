// What a special function key does at a ready partition.
ghost use Rattle.std.specs.Prelude.{◌≡◌, OnOk};
ghost use Rattle.b2_access.specs.Lending.{seen_lent};
ghost use Rattle.b2_machine.specs.Keys as spec;

use crate::readiness::refuse;
use b2_access::{Lent, Private, typed_by_mark};
use b2_base::{ByteList, NoMemory};
use b2_dec::ValueList;
use b2_flow::{Frame, Place};
use b2_text::{Spot, Text};
use std::alloc::Global;

/// The DEFFN' at a spot of the own text is called without arguments; A04 where there is no room for the call.
fn call_key(alloc: Global, me: &mut Private, spot: Spot) -> Result<(), NoMemory>
    ensures changed { OnOk result (me.new ≡ spec.calls spot me.old) }
    ensures part { me.new.part ≡ me.old.part }
{
    let frame = Frame::Call {
        back: None,
        entered: None,
    };
    match me.stack.push(frame) {
        Ok(()) => {
            me.place = Some(Place {
                home: me.part,
                line: Some(spot.line),
                unit: spot.unit,
            });
            me.kept = None;
            me.args = Some(ValueList::new(Vec::new(alloc)));
            Ok(())
        }
        Err(code) => refuse(alloc, me, code),
    }
}

/// Special function key n is pressed, where the text is the own one.
fn press(alloc: Global, me: &mut Private, own: &Text, n: u8) -> Result<(), NoMemory>
    ensures changed { OnOk result (me.new ≡ spec.pressed n own.now.lines me.old) }
    ensures part { me.new.part ≡ me.old.part }
{
    if let Some(text) = typed_by_mark(own, n) {
        me.literal = Some(ByteList::from_slice(alloc, text)?);
        return Ok(());
    }
    match own.marked(n) {
        Some(spot) => call_key(alloc, me, spot),
        None => Ok(()),
    }
}

/// The same over what is lent.
pub fn press_over(alloc: Global, me: &mut Private, lent: Lent<'_>, n: u8) -> Result<(), NoMemory>
    ensures changed { OnOk result (me.new ≡ spec.pressed n (seen_lent lent.entry).own.lines me.old) }
    ensures part { me.new.part ≡ me.old.part }
{
    press(alloc, me, lent.own, n)
}
