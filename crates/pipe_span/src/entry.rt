//! The heaviest path to one instance, from those to its predecessors.

ghost use Rattle.std.specs.Prelude.{◌≡◌, ◌<◌, ◌≤◌, ◌+◌, ◌*◌, ℕ, length, slice_index_or};
ghost use Rattle.pipe_span.specs.Entries.{AreWeights, IsBounded, IsNextEntry, most_entries, most_weight};

use pipe_model::list::ListOf;

/// The predecessor from which the heaviest path to an instance comes.
#[derive(Clone, Copy)]
pub enum Predecessor {
    /// The instance has no predecessor.
    Absent,
    /// The instance above it in its column.
    Above,
    /// The instance with this index in the column on its left.
    Left(usize),
}

/// The weight of the heaviest path to an instance, and where the path comes from.
#[derive(Clone, Copy)]
pub struct Entry {
    pub weight: u64,
    pub predecessor: Predecessor,
}

/// The entries of the instances of a column.
pub type Row = ListOf<Entry>;

// The entry of the next instance of a column, after those above it in `row`. It is instance `place`
// of all, in column order, and `left` is the index of its left parent. If the paths to both
// predecessors are equally heavy, it comes from the one above.
pub(crate) fn entry_of(
    left_row: &[Entry],
    row: &[Entry],
    left: Option<usize>,
    weights: &[u64],
    place: usize,
) -> Entry
    requires weights { AreWeights weights.now }
    requires place { place < length weights.now }
    requires bounded { place < most_entries }
    requires left_row { IsBounded place left_row.now }
    requires row { IsBounded place row.now }
    requires left { (j : ℕ) → left ≡ Some j → j < length left_row.now }
    ensures step { IsNextEntry left_row.now row.now left (slice_index_or weights.now place 0) result }
    ensures below { result.weight ≤ most_weight * (place + 1) }
{
    let weight = weights[place];
    match left {
        None => {
            if row.len() == 0 {
                return Entry {
                    weight,
                    predecessor: Predecessor::Absent,
                };
            }
            Entry {
                weight: row[row.len() - 1].weight + weight,
                predecessor: Predecessor::Above,
            }
        }
        Some(j) => {
            let across = left_row[j].weight;
            if row.len() > 0 && row[row.len() - 1].weight >= across {
                return Entry {
                    weight: row[row.len() - 1].weight + weight,
                    predecessor: Predecessor::Above,
                };
            }
            Entry {
                weight: across + weight,
                predecessor: Predecessor::Left(j),
            }
        }
    }
}
