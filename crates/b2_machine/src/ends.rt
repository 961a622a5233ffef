// How steps and turns end.
ghost use Rattle.std.specs.Prelude.{◌≡◌};
ghost use Rattle.b2_machine.specs.Endings as spec;

use b2_access::Answer;
use b2_base::Part;

/// Why a turn ends.
#[derive(Clone, Copy)]
pub enum Why {
    /// As many steps counted as its quota.
    Quota,
    /// Another partition is in front of the terminal.
    Wait(Part),
    /// No key that ends a line, or no key, is there.
    NoKeys,
    /// By `$BREAK`, or as one that it passes.
    Break,
    /// A partition that was running became ready.
    Ready,
}

/// How a step ended.
#[derive(Clone, Copy)]
pub struct Stepped {
    /// Whether it counts.
    pub counted: bool,
    /// Why the turn ends with it, None where it goes on.
    pub why: Option<Why>,
}

/// How a turn ended.
#[derive(Clone, Copy)]
pub struct Turned {
    /// How many of its steps counted.
    pub steps: u16,
    /// Why it ended.
    pub why: Why,
}

/// It counts, and the turn goes on.
pub fn counts() -> Stepped
    ensures { result ≡ spec.counts }
{
    Stepped {
        counted: true,
        why: None,
    }
}

/// It counts, and the turn ends.
pub fn ends_turn(why: Why) -> Stepped
    ensures { result ≡ spec.ends_turn why }
{
    Stepped {
        counted: true,
        why: Some(why),
    }
}

/// It doesn't count, and the turn ends.
fn is_uncounted(why: Why) -> Stepped
    ensures { result ≡ spec.is_uncounted why }
{
    Stepped {
        counted: false,
        why: Some(why),
    }
}

/// How a step ends that is repeated.
pub fn repeats(answer: &Answer) -> Stepped
    ensures { result ≡ spec.repeats answer.now }
{
    match answer {
        Answer::Wait(q) => is_uncounted(Why::Wait(*q)),
        Answer::NoKeys => is_uncounted(Why::NoKeys),
        _ => counts(),
    }
}
