//! The table that the writer and the passes share.

use crate::rule::OrderRule;
use crate::view::View;
use atomic_table::{Seat, Shared, Table};
use std::alloc::Global;

/// The words, in an `Arc`.
pub(crate) type OrderTable = Table<u32, View, u32, OrderRule, Global>;

/// The words as each seat sees them.
pub(crate) type OrderWords = Shared<u32, View, u32, OrderRule>;

/// A seat of the writer or of a pass.
pub(crate) type OrderSeat = Seat<u32, View>;

/// The word of the sequence number.
pub(crate) const SEQUENCE: usize = 0;

/// The number of words before the first label: that of element `x` is at `x + HEAD`.
pub(crate) const HEAD: usize = 1;
