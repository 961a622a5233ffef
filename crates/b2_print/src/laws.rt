// What holds of the definitions, as contracts of functions that do nothing.
ghost use Rattle.b2_print.specs.Laws.{ItemsGoOn, LinesFit, ColumnIsRead, ScreenStaysWithin, ZonesEnd, PiecesAreTheImage, FieldsKeepTheirWidth};

/// Items after others begin at the column after those.
pub fn law_items_go_on()
    ensures { ItemsGoOn }
{}

/// Where items stand on the line and each has room on a line of its own, no line passes the width.
pub fn law_lines_fit()
    ensures { LinesFit }
{}

/// The column after items is the one that a screen is at that reads their bytes, where no alpha value begins a sequence.
pub fn law_column_is_read()
    ensures { ColumnIsRead }
{}

/// And where each item on the line has room on one of its own, and items for the screen lie on one of 80 columns, the
/// screen's column is never above the width.
pub fn law_screen_stays_within()
    ensures { ScreenStaysWithin }
{}

/// A zone ends at a column that 16 divides.
pub fn law_zones_end()
    ensures { ZonesEnd }
{}

/// The pieces of an image, written one after another, are the image.
pub fn law_pieces_are_the_image()
    ensures { PiecesAreTheImage }
{}

/// A value takes as many bytes as its field.
pub fn law_fields_keep_their_width()
    ensures { FieldsKeepTheirWidth }
{}
