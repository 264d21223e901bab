//! The seat of a running instance, which is in its token's payload.

ghost use Rattle.std.specs.Prelude.{◌≡◌, true};
ghost use Rattle.hall_table.specs.InstanceSeats.{is_instance_badge};

use crate::view::View;
use atomic_table::Badge;

/// The seat of a running instance. It has no bytes.
#[derive(Drop)]
pub struct RunSeat {
    /// The seat, apart from its table.
    pub badge: Badge<View>,
    pub ghost of_instance: { is_instance_badge badge.views ≡ true },
}
