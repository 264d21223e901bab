//! A reference to a hall that is passed on by value.

/// The hall, lent. It is passed by value, so that contracts can say that the same hall comes back.
#[derive(Drop)]
pub struct LentHall<'a, H> {
    /// The hall.
    pub hall: &'a mut H,
}
