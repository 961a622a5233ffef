//! The screen that a list of bytes leaves: 24 rows of 80 cells, with a cursor.
//!
//! Stands on `b2_base`. The definition is `specs/Shown.antt`, which reads the whole list into items and lets them change
//! the sheet one after the other (`specs/Sheet.antt`); the code goes byte by byte. After any calls of `feed` the screen is
//! that of all the bytes, however they were cut. No call takes memory.
#![tactic(auto)]

ghost use Rattle.std.specs.Prelude.{◌≡◌, ◌≤◌, ◌<◌, List, ℕ, [], ◌++◌, get_or, length};
ghost use Rattle.b2_screen.specs.Shown.{fed, screen_after, blank_screen};

use std::marker::Model;

mod sequence;
mod sheet;

use sequence::{Sequence, feed_bytes};
use sheet::Sheet;

/// A screen of 24 rows of 80 cells, as bytes leave it.
#[derive(Drop)]
pub struct Screen {
    sheet: Sheet,
    sequence: Sequence,
}

impl Model for Screen {
    ghost use Rattle.b2_screen.specs.Shown.{ScreenState, sequence_bytes};

    ghost Value = { ScreenState };

    ghost view = { λ s. record { sheet = s.sheet; rest = sequence_bytes s.sequence } };
}

impl Screen {
    /// A blank screen with the cursor at row 0 and column 0.
    #[tactic(auto, unfolding(crate::specs::Shown::bytes_read, crate::specs::Shown::effects))]
    pub fn new() -> Screen
        ensures blank { result ≡ blank_screen }
        ensures nothing_shown { result ≡ screen_after [] }
    {
        Screen {
            sheet: Sheet::new(),
            sequence: Sequence::NotBegun,
        }
    }

    /// Shows bytes. A sequence may begin in one call and end in another.
    pub fn feed(&mut self, bytes: &[u8])
        ensures after { self.new ≡ fed bytes.now self.old }
        ensures however_cut { (before : List ℕ) → self.old ≡ screen_after before → self.new ≡ screen_after (before ++ bytes.now) }
    {
        feed_bytes(&mut self.sheet, &mut self.sequence, bytes);
    }

    /// The 80 cells of a row.
    pub fn row(&self, r: u8) -> &[u8]
        requires { r < 24 }
        ensures cells { result.now ≡ get_or self.now.sheet.rows r [] }
        ensures width { length result.now ≡ 80 }
    {
        self.sheet.row(r)
    }

    /// The row and the column of the cursor: 0 to 23 and 0 to 80.
    pub fn cursor(&self) -> (u8, u8)
        ensures row { result.0 ≡ self.now.sheet.row }
        ensures column { result.1 ≡ self.now.sheet.column }
        ensures row_on_screen { result.0 < 24 }
        ensures column_on_screen { result.1 ≤ 80 }
    {
        self.sheet.cursor()
    }
}
