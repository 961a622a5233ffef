// Where a statement leads that was done fast, in words.
ghost use Rattle.std.specs.Prelude.{◌≡◌, ◌<◌, ◌≤◌, true, false, Some, None};
ghost use Rattle.b2_access.specs.JumpTargets.{is_done, lead_seen, memory_failed};
ghost use Rattle.b2_access.specs.Fast as spec;
ghost use Rattle.b2_access.specs.Places.{IsUnit, goal_place};

use crate::placed::Found;
use b2_base::Part;
use b2_flow::Place;
use b2_rows::{Goal, next_unit};

/// The line that stands for none.
const NO_LINE: u32 = 65536;

/// And the one that stands for none where memory failed.
const NO_MEMORY: u32 = 65537;

/// Where a statement leads that was done fast, or that it wasn't done.
#[derive(Clone, Copy)]
pub struct Lead {
    /// The number of the line, `NO_LINE` or `NO_MEMORY` for none.
    pub line: u32,
    /// The place of the unit.
    pub unit: u8,
}

impl Lead {
    /// It wasn't done.
    #[inline(always)]
    pub fn none() -> Lead
        ensures none { lead_seen result ≡ None }
        ensures failed { memory_failed result ≡ false }
    {
        Lead {
            line: NO_LINE,
            unit: 0,
        }
    }

    /// It wasn't done since memory failed: then it isn't to be tried another way.
    #[inline(always)]
    pub fn no_memory() -> Lead
        ensures none { lead_seen result ≡ None }
        ensures failed { memory_failed result ≡ true }
    {
        Lead {
            line: NO_MEMORY,
            unit: 0,
        }
    }

    /// Whether memory failed.
    #[inline(always)]
    pub fn memory_failed(self) -> bool
        ensures { result ≡ memory_failed self }
    {
        self.line == NO_MEMORY
    }

    /// To a unit of a line.
    #[inline(always)]
    pub fn to(line: u16, unit: u8) -> Lead
        ensures { lead_seen result ≡ Some (line, unit) }
    {
        Lead {
            line: u32::from(line),
            unit,
        }
    }

    /// Whether it was done.
    #[inline(always)]
    pub fn is_done(self) -> bool
        ensures { result ≡ is_done self }
    {
        self.line < NO_LINE
    }

    /// The place at home where it leads.
    #[inline(always)]
    pub fn place(self, home: Part) -> Place
        requires { is_done self ≡ true }
        ensures { result ≡ spec.place_led home (self.line, self.unit) }
    {
        Place {
            home,
            line: Some(self.line as u16),
            unit: self.unit,
        }
    }
}

/// To the first unit of the line after that of a statement.
#[inline(always)]
fn lead_to_next_line(found: &Found<'_>) -> Lead
    ensures { lead_seen result ≡ spec.lead_of (goal_place found.now.home.now.lines found.now.place Goal.NextLine) }
{
    let Some(n) = found.place.line else {
        return Lead::none();
    };
    match found.home.next_after(Some(n)) {
        Some(next) => Lead::to(next, 0),
        None => Lead::none(),
    }
}

/// To a unit of its line.
#[inline(always)]
fn lead_to_unit(found: &Found<'_>, k: usize) -> Lead
    requires { k ≤ 255 }
    ensures { lead_seen result ≡ spec.lead_of (goal_place found.now.home.now.lines found.now.place (Goal.Unit k)) }
{
    match found.place.line {
        Some(n) => Lead::to(n, k as u8),
        None => Lead::none(),
    }
}

/// Where a goal leads from a statement in a line of the program, where that is on its own line or the next; none where the program ends.
#[inline(always)]
pub fn lead_to_goal(found: &Found<'_>, goal: Goal) -> Lead
    requires unit { IsUnit goal }
    ensures { lead_seen result ≡ spec.lead_of (goal_place found.now.home.now.lines found.now.place goal) }
{
    match goal {
        Goal::Unit(k) => lead_to_unit(found, k),
        Goal::Line(n) => Lead::to(n, 0),
        Goal::NextLine => lead_to_next_line(found),
    }
}

/// To the place after a statement, where nothing else is said; none where the program ends.
#[inline(always)]
pub fn lead_on(found: &Found<'_>) -> Lead
    requires few { found.now.place.unit < 255 }
    ensures { lead_seen result ≡ spec.lead_of (spec.place_following found.now) }
{
    lead_to_goal(found, next_unit(found.line, usize::from(found.place.unit)))
}
