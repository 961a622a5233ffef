// What holds of the definitions, as contracts of functions that do nothing.
ghost use Rattle.b2_pack.specs.Laws.{ThereIsOneWayToPack, RowsKeepNumbers, RowsSideBySideKeepNumbers, FieldsKeepValues, UnpackingGivesWhatWasPacked, WrittenPairsAreRead, OnlyWrittenPairsAreRead, ImagesAreRead, OnlyImagesAreRead};

/// There is one way to pack values into a buffer.
pub fn law_there_is_one_way_to_pack()
    ensures { ThereIsOneWayToPack }
{}

/// A number comes back out of its row where the row spells it exactly.
pub fn law_rows_keep_numbers()
    ensures { RowsKeepNumbers }
{}

/// Numbers side by side come back, whatever follows them.
pub fn law_rows_side_by_side_keep_numbers()
    ensures { RowsSideBySideKeepNumbers }
{}

/// A value comes back out of a field that keeps it: a number as it is, or as its text shows it, bytes padded or cut to the
/// width.
pub fn law_fields_keep_values()
    ensures { FieldsKeepValues }
{}

/// What is packed is unpacked again.
pub fn law_unpacking_gives_what_was_packed()
    ensures { UnpackingGivesWhatWasPacked }
{}

/// Bytes that write pairs and an ending are a specification of these pairs, and no other bytes are one.
pub fn law_written_pairs_are_read()
    ensures read { WrittenPairsAreRead }
    ensures only { OnlyWrittenPairsAreRead }
{}

/// A text that writes an image is read as the row of it, and no other text is.
pub fn law_images_are_read()
    ensures read { ImagesAreRead }
    ensures only { OnlyImagesAreRead }
{}
