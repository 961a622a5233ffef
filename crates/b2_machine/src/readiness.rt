// How a partition becomes ready, and what it then shows.
ghost use Rattle.std.specs.Prelude.{◌≡◌, [], IfOk, OnOk};
ghost use Rattle.b2_machine.specs.Readiness as spec;

use crate::ends::{Stepped, Why, counts, ends_turn};
use crate::messages::plain_error;
use b2_access::{Access, Private, drop_frames, homes_entered};
use b2_base::{Addr, ByteList, Code, NoMemory};
use std::alloc::Global;

/// A text and `:` wait to be shown.
pub fn prompt(me: &mut Private, text: Vec<u8>) -> Result<(), NoMemory>
    ensures changed { OnOk result (me.new ≡ spec.prompts text.items me.old) }
    ensures part { me.new.part ≡ me.old.part }
{
    let mut text = text;
    text.push(b':')?;
    me.pending = Some((Addr::default(), ByteList::new(text)));
    Ok(())
}

/// The immediate line ends, and its loops with it.
pub fn end_line(me: &mut Private)
    ensures changed { me.new ≡ spec.drops_line me.old }
    ensures part { me.new.part ≡ me.old.part }
{
    me.immediate = None;
    me.stack.drop_immediate();
}

/// It becomes ready, and a text and `:` wait.
pub fn become_ready(me: &mut Private, text: Vec<u8>) -> Result<Stepped, NoMemory>
    ensures ended { IfOk result (λ e. record { me = me.new; end = e } ≡ spec.becomes_ready text.items me.old) }
    ensures part { me.new.part ≡ me.old.part }
{
    end_line(me);
    me.place = None;
    me.prompted = false;
    prompt(me, text)?;
    Ok(ends_turn(Why::Ready))
}

/// The same where nothing but what already waits is shown before the `:`.
pub fn become_ready_quietly(alloc: Global, me: &mut Private) -> Result<Stepped, NoMemory>
    ensures ended { IfOk result (λ e. record { me = me.new; end = e } ≡ spec.rests me.old) }
    ensures part { me.new.part ≡ me.old.part }
{
    let text = match me.pending.take() {
        Some((_, shown)) => shown.into_vec(),
        None => Vec::new(alloc),
    };
    become_ready(me, text)
}

/// An error keeps its code, and the arguments that wait for a DEFFN' go.
pub fn note_error(me: &mut Private, code: Code)
    ensures changed { me.new ≡ spec.with_error code me.old }
    ensures part { me.new.part ≡ me.old.part }
{
    me.last = code.number();
    me.args = None;
}

/// An error without a place, of a partition that is ready and stays so.
pub fn refuse(alloc: Global, me: &mut Private, code: Code) -> Result<(), NoMemory>
    ensures changed { OnOk result (me.new ≡ spec.refuses code [] me.old) }
    ensures part { me.new.part ≡ me.old.part }
{
    note_error(me, code);
    let text = plain_error(alloc, code)?;
    prompt(me, text)
}

/// A halt of a partition that runs.
pub fn halt(alloc: Global, me: &mut Private) -> Result<Stepped, NoMemory>
    ensures ended { IfOk result (λ e. record { me = me.new; end = e } ≡ spec.halted me.old) }
    ensures part { me.new.part ≡ me.old.part }
{
    me.halt = false;
    if let Some(place) = me.place {
        if place.line.is_some() {
            me.kept = me.place;
        }
    }
    let text = Vec::from_slice(alloc, b"HALT\n")?;
    become_ready(me, text)
}

/// What gives back the texts that calls of a partition entered.
pub fn give_back(me: &Private) -> Access
    ensures { result ≡ spec.gives_back me.now }
{
    Access::Drop {
        homes: homes_entered(&me.stack),
    }
}

/// A reset of a partition that has given back the texts which its calls entered.
pub fn reset(alloc: Global, me: &mut Private) -> Result<Stepped, NoMemory>
    ensures ended { IfOk result (λ e. record { me = me.new; end = e } ≡ spec.resets me.old) }
    ensures part { me.new.part ≡ me.old.part }
{
    let end = if me.place.is_some() {
        ends_turn(Why::Ready)
    } else {
        counts()
    };
    drop_frames(me);
    me.halt = false;
    me.reset = false;
    me.place = None;
    me.immediate = None;
    me.prompted = false;
    me.numbered = None;
    me.literal = None;
    let text = ByteList::from_slice(alloc, b"READY\n:")?;
    me.pending = Some((Addr::default(), text));
    Ok(end)
}
