//! Lists whose elements are numbered from 0, kept as links and labels.

/// The link of the last element to the next, and of element 0 to the one before.
pub const END: u32 = u32::MAX;

/// The greatest number of elements.
pub const MOST_ELEMENTS: u32 = 1 << 21;

/// The number of bits of a label: all labels are below 2^62.
pub const LABEL_BITS: u32 = 62;

/// All labels are below this number.
pub const TOP: u64 = 1 << LABEL_BITS;

/// For each element the next one and the one before, or `END`, and its label. Element 0 is the first.
#[derive(Drop)]
pub struct Links {
    pub next: Vec<u32>,
    pub prev: Vec<u32>,
    pub label: Vec<u64>,
}
