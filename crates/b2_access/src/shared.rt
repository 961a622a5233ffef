// The store that all partitions share, of any kind.
ghost use Rattle.std.specs.Prelude.{◌≡◌, ◌⊎◌, ℕ, true, Some, IfOk, IfErr, IsSome};
ghost use Rattle.std.specs.Borrow.{sem};
ghost use Rattle.b2_vars.specs.Globals.{unreached};
ghost use Rattle.b2_vars.specs.Tables.{VarsState};
ghost use Rattle.b2_access.specs.declared.accesses.Access.{Access as AccessSpec};
ghost use Rattle.b2_access.specs.declared.lending.At.{At as AtSpec};
ghost use Rattle.b2_access.specs.Answering.{AnswersByRow, can_answer};
ghost use Rattle.b2_access.specs.Fitting.{AnswerFits};
ghost use Rattle.b2_access.specs.Holding.{ChangesDeviceOrName};
ghost use Rattle.b2_access.specs.Leading.{AnswersLead, NamesLead};
ghost use Rattle.b2_access.specs.Lending.{globals_lent};
ghost use Rattle.b2_access.specs.Loans.{Loan, LendsFrom, LendsTextsAgain, LoansGlobals, NotesReached, Noting, globals_at, holder_of, left_at};
ghost use Rattle.b2_access.specs.Sharing.{ServingOf, IsLocal, KeepsListed};
ghost use Rattle.b2_access.specs.Store.{StoreState, content};
ghost use Rattle.b2_access.specs.Touching.{IsLegal, MayWantMemory};

use crate::accesses::{Access, Answer};
use crate::lending::{At, Lent};
use crate::objects::Object;
use b2_base::{Name8, NoMemory, Part};

/// A store that partitions share. It means what its implementation says, which has a store in it, and it has its own way of
/// serving: what that answers and writes depends on what the access touches alone.
pub trait Shared {
    /// The type of what it means.
    ghost Meaning: { Type 0 };

    /// What it means.
    ghost meaning: { Self → Meaning };

    /// The store in what it means.
    ghost store: { Meaning → StoreState };

    /// Its way of serving.
    ghost serving: { ServingOf Meaning };

    /// Which accesses may want memory.
    ghost wants: { AccessSpec → Type 0 };

    /// What it means after a loan.
    ghost lending: { Loan Meaning };

    /// What it means once it is told after a loan that a receiver among the `@` variables was reached.
    ghost noting: { Noting Meaning };

    /// What it is after a loan.
    ghost after_loan: { ℕ → ℕ → AtSpec → Self → VarsState → Self };

    /// The type of what it holds on to.
    ghost Holds: { Type 0 };

    /// The references that it holds on to: by them whoever made it of references learns what these refer to in the end.
    ghost holds: { Self → Holds };

    /// Lends a partition its own text and that of its home, to be read, and `@` variables, to be read and written.
    fn lend(&mut self, who: Part, home: Part, at: &At) -> Lent<'_>
        requires own { IsSome (content (store (meaning self.old)) (Object.Text who)) }
        requires home { IsSome (content (store (meaning self.old)) (Object.Text home)) }
        ensures* writes_back { sem 𝓛 (LendsFrom Self.row (after_loan who home at.now) self.entry result) }
        ensures own { Some result.own.now ≡ content (store (meaning self.old)) (Object.Text who) }
        ensures home { Some result.home.now ≡ content (store (meaning self.old)) (Object.Text home) }
        ensures globals { globals_lent result ≡ unreached (globals_at home at.now (store (meaning self.old))) };

    /// Notes that a receiver among the `@` variables was reached that a loan to this partition lent. It changes no content.
    fn note(&mut self, who: Part, home: Part, at: &At)
        ensures same { holds self.new ≡ holds self.old }
        ensures noted { meaning self.new ≡ noting who home at.now (meaning self.old) };

    /// The partition that holds a name, None where nobody does.
    fn holder(&self, name: Name8) -> Option<Part>
        ensures held { result ≡ holder_of (store (meaning self.now)) name };

    /// Serves an access of a partition. Memory fails only for one that may want it; and of any store only for one that takes memory in a
    /// plain one, or that may change a device or who holds a name, as whoever watches a store may list those. So it never fails where who
    /// holds a name is looked for. The answer is one that the access can have, and what it says fits what was asked.
    fn serve(&mut self, who: Part, access: &Access) -> Result<Answer, NoMemory>
        requires legal { IsLegal access.now }
        ensures same { holds self.new ≡ holds self.old }
        ensures served { IfOk result (λ a. record { after = meaning self.new; answer = a } ≡ serving (meaning self.old) who access.now) }
        ensures memory { IfErr result (λ _. wants access.now) }
        ensures sparing { IfErr result (λ _. MayWantMemory access.now ⊎ ChangesDeviceOrName access.now) }
        ensures possible { IfOk result (λ a. can_answer access.now a ≡ true) }
        ensures fits { IfOk result (AnswerFits access.now) };

    /// What an access is answered and writes depends on what it touches alone, and all else stays.
    ghost local: { IsLocal store serving };

    /// An access is answered as its row says.
    ghost answers_by_row: { AnswersByRow serving };

    /// An answer leads to nobody but who holds a name that its access touches.
    ghost answers_lead: { AnswersLead store serving };

    /// After an access a name leads to whom it led before, or to who asked.
    ghost names_lead: { NamesLead store serving };

    /// What is listed stays so.
    ghost keeps_listed: { KeepsListed store serving };

    /// What it means after a loan is by its way of lending.
    ghost loans: { (who home : ℕ) (at : AtSpec) (s : Self) (w : VarsState) → meaning (after_loan who home at s w) ≡ lending who home at (meaning s) (unreached (left_at home at (store (meaning s)) w)) };

    /// A loan leaves what it holds on to.
    ghost loan_holds: { (who home : ℕ) (at : AtSpec) (s : Self) (w : VarsState) → holds (after_loan who home at s w) ≡ holds s };

    /// Told that a receiver was reached, it means what it does after a loan that reached one.
    ghost notes: { NotesReached lending noting };

    /// A loan changes the `@` variables that were asked for, and nothing else.
    ghost lends_globals: { LoansGlobals store lending };

    /// Texts that are lent twice without `@` variables are lent once.
    ghost lends_texts_again: { LendsTextsAgain lending };
}
