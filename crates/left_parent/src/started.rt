//! Instances that have started.

ghost use Rattle.std.specs.Prelude.{◌≡◌};
ghost use Rattle.left_parent.specs.Parents.{joined_from};

use pipe_model::marks::Marks;

/// A started instance.
#[derive(Clone, Copy)]
pub struct StartedNode {
    /// Its marks.
    pub marks: Marks,
    /// The last index of the left column that precedes it; 0 in column 0.
    pub joined: u32,
}

/// Returns the last index of the left column that precedes an instance, from its left parent and
/// the instance above.
pub fn joined_index(left: Option<u32>, above: Option<StartedNode>) -> u32
    ensures { result ≡ joined_from left above }
{
    match (left, above) {
        (Some(j), _) => j,
        (None, Some(above)) => above.joined,
        (None, None) => 0,
    }
}
