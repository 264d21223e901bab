//! Which shard keeps a cell.

ghost use Rattle.std.specs.Prelude.{◌≡◌, ◌<◌, ◌%◌, ◌/◌};

use pipe_model::access::CellId;

/// Returns the number of the shard that keeps the cell: the cell's number modulo `shards`.
pub fn shard_of(cell: CellId, shards: u32) -> u32
    requires { 0 < shards }
    ensures { result ≡ cell.0 % shards }
{
    cell.0 % shards
}

/// The number of shards of a hall. A division by this constant is a shift.
pub const HALL_SHARDS: u32 = 16;

/// Returns how many cells with a lower number the shard of the cell keeps. A division by a variable would
/// take more time than the rest of an access.
pub(crate) fn slot_of(cell: CellId, shards: u32) -> usize
    requires { 0 < shards }
    ensures { result ≡ cell.0 / shards }
{
    if shards == 1 {
        return cell.0 as usize;
    }
    if shards == HALL_SHARDS {
        return (cell.0 / HALL_SHARDS) as usize;
    }
    (cell.0 / shards) as usize
}
