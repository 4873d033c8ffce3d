ghost use Rattle.std.specs.Prelude.{[], ◌∷◌};
ghost use Rattle.h5w_model.specs.Prefixed.{PrefixedAt, Keeps, image_at};
ghost use Rattle.h5w_examples.specs.Readings.{copied_block, data_name, one_row_reading, reading_as, two_flushes};

/// After the creation, after the first flush and after the second the image is valid and reads as the rows that are
/// flushed there; also between two pieces of the second.
pub fn two_flushes_read()
    ensures created { PrefixedAt data_name two_flushes 5 }
    ensures three { PrefixedAt data_name two_flushes 11 }
    ensures between { PrefixedAt data_name two_flushes 12 }
    ensures four { PrefixedAt data_name two_flushes 13 }
{}

/// What readers rest on is kept from the creation to each flush, from the first flush to the second, and between the two
/// pieces of the second, where the rows are still those of the first.
pub fn two_flushes_keep()
    ensures first { Keeps (image_at two_flushes 5) (reading_as 0 188 []) (image_at two_flushes 11) (reading_as 3 188 (558 ∷ 566 ∷ [])) }
    ensures between { Keeps (image_at two_flushes 11) (reading_as 3 188 (558 ∷ 566 ∷ [])) (image_at two_flushes 12) (reading_as 3 188 (558 ∷ 566 ∷ [])) }
    ensures second { Keeps (image_at two_flushes 11) (reading_as 3 188 (558 ∷ 566 ∷ [])) (image_at two_flushes 13) (reading_as 4 188 (558 ∷ 566 ∷ [])) }
    ensures both { Keeps (image_at two_flushes 5) (reading_as 0 188 []) (image_at two_flushes 13) (reading_as 4 188 (558 ∷ 566 ∷ [])) }
{}

/// With one row in a chunk the fifth chunk stands in a data block, which the second flush copies. Its image is valid and
/// reads as five rows also where the index block names the copy already.
pub fn copied_block_read()
    ensures five { PrefixedAt data_name copied_block 15 }
    ensures between { PrefixedAt data_name copied_block 20 }
    ensures six { PrefixedAt data_name copied_block 21 }
{}

/// What readers rest on is kept across the copy. Until the rows are six, the data block of five keeps its bytes, though
/// the index block does not name it any more.
pub fn copied_block_keep()
    ensures between { Keeps (image_at copied_block 15) (one_row_reading 5 (558 ∷ 562 ∷ 566 ∷ 570 ∷ 574 ∷ [])) (image_at copied_block 20) (one_row_reading 5 (558 ∷ 562 ∷ 566 ∷ 570 ∷ 574 ∷ [])) }
    ensures last { Keeps (image_at copied_block 20) (one_row_reading 5 (558 ∷ 562 ∷ 566 ∷ 570 ∷ 574 ∷ [])) (image_at copied_block 21) (one_row_reading 6 (558 ∷ 562 ∷ 566 ∷ 570 ∷ 574 ∷ 728 ∷ [])) }
    ensures both { Keeps (image_at copied_block 15) (one_row_reading 5 (558 ∷ 562 ∷ 566 ∷ 570 ∷ 574 ∷ [])) (image_at copied_block 21) (one_row_reading 6 (558 ∷ 562 ∷ 566 ∷ 570 ∷ 574 ∷ 728 ∷ [])) }
{}
