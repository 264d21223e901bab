//! The access histories of a hall that has ended.

ghost use Rattle.hall_headline.specs.HallEnds.{HallEndsHaveHistories, HallEndsFindAll};

/// The history of each cell has noted the cell's accesses, by the two orders of the book.
pub fn hall_ends_have_histories()
    ensures { HallEndsHaveHistories }
{}

/// What the shards have found, one shard after the other, is what their histories report.
pub fn hall_ends_find_all()
    ensures { HallEndsFindAll }
{}
