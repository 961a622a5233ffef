// A store that is watched.
ghost use Rattle.std.specs.Prelude.{◌≡◌};

use crate::marking::{mark_lent, mark_reached, mark_touched, mark_written};
use crate::seen::Seen;
use b2_access::{Access, Answer, At, Lent, Shared};
use b2_base::{Name8, NoMemory, Part};

/// A store that is watched: it serves and lends as the one inside, and marks what partitions touch and write by that.
#[derive(Drop)]
pub struct Watched<'a, S: Shared> {
    inner: &'a mut S,
    seen: &'a mut Seen,
}

impl<'a, S: Shared> Watched<'a, S> {
    /// Watches a store. Marks are added to those that are there.
    pub fn new(inner: &'a mut S, seen: &'a mut Seen) -> Watched<'a, S>
        ensures inner_held { result.inner.ghost_name ≡ inner.entry.ghost_name }
        ensures seen_held { result.seen.ghost_name ≡ seen.entry.ghost_name }
        ensures inner { result.inner.now ≡ inner.old }
        ensures seen { result.seen.now ≡ seen.old }
    {
        Watched { inner, seen }
    }
}

impl<S: Shared> Shared for Watched<'_, S> {
    ghost use Rattle.std.proofs.Common.{ap};
    ghost use Rattle.std.specs.Borrow.{GName};
    ghost use Rattle.b2_audit.specs.Marks.{Marks, touch_all};
    ghost use Rattle.b2_access.specs.Loans.{loan_touched};
    ghost use Rattle.std.specs.Prelude.{◌⊎◌};
    ghost use Rattle.b2_audit.specs.Watching.{GrowsMarks, watching, watched_loan, watched_noting, watched_notes, watching_is_local, watching_keeps_listed, watched_loan_globals};
    ghost use Rattle.b2_audit.specs.LentTwice.{watched_lends_again};

    ghost Meaning = { S.Meaning × Marks };

    ghost meaning = { λ w. (S.meaning w.inner.now, w.seen.now) };

    ghost store = { λ m. S.store m.0 };

    ghost serving = { watching S.store S.serving };

    ghost wants = { λ a. S.wants a ⊎ GrowsMarks a };

    ghost lending = { watched_loan S.store S.lending };

    ghost noting = { watched_noting S.store S.noting };

    ghost after_loan = { λ who home at s w. record s { inner = record s.inner { now = S.after_loan who home at s.inner.now w }; seen = record s.seen { now = touch_all who (loan_touched who home at (S.store (S.meaning s.inner.now))) s.seen.now } } };

    ghost Holds = { GName × GName × S.Holds };

    ghost holds = { λ w. (w.inner.ghost_name, w.seen.ghost_name, S.holds w.inner.now) };

    fn lend(&mut self, who: Part, home: Part, at: &At) -> Lent<'_> {
        mark_lent(self.seen, self.inner, who, home, at);
        self.inner.lend(who, home, at)
    }

    fn note(&mut self, who: Part, home: Part, at: &At) {
        mark_reached(self.seen, self.inner, who, home, at);
        self.inner.note(who, home, at);
    }

    fn holder(&self, name: Name8) -> Option<Part> {
        self.inner.holder(name)
    }

    fn serve(&mut self, who: Part, access: &Access) -> Result<Answer, NoMemory> {
        mark_touched(self.seen, self.inner, who, access);
        let answer = self.inner.serve(who, access)?;
        mark_written(self.seen, who, access, &answer)?;
        Ok(answer)
    }

    ghost local = { watching_is_local S.store S.serving S.local };

    ghost answers_by_row = { λ m who x. S.answers_by_row m.0 who x };

    ghost answers_lead = { λ among who x m names. S.answers_lead among who x m.0 names };

    ghost names_lead = { λ who x m n p leads. S.names_lead who x m.0 n p leads };

    ghost keeps_listed = { watching_keeps_listed S.store S.serving S.keeps_listed };

    ghost loans = { λ who home at s w. ap (λ m. (m, touch_all who (loan_touched who home at (S.store (S.meaning s.inner.now))) s.seen.now)) (S.loans who home at s.inner.now w) };

    ghost loan_holds = { λ who home at s w. ap (λ h. (s.inner.ghost_name, s.seen.ghost_name, h)) (S.loan_holds who home at s.inner.now w) };

    ghost notes = { watched_notes S.store S.lending S.noting S.lends_globals S.notes };

    ghost lends_globals = { watched_loan_globals S.store S.lending S.lends_globals };

    ghost lends_texts_again = { watched_lends_again S.store S.lending S.lends_texts_again };
}
