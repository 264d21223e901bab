//! Laws of the states of shards. Each function has an empty body, and its contract is the law.

ghost use Rattle.cell_store.specs.ShardLaws.{OtherAccessesChangeNothing};

/// A read, or an access to a cell of another shard, leaves the state of a shard as it is.
pub fn other_accesses_change_nothing()
    ensures { OtherAccessesChangeNothing }
{}
