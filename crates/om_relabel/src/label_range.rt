//! The smallest sparse range of labels around an element.

ghost use Rattle.std.specs.Prelude.{◌≡◌, ◌<◌, ◌≤◌, ◌*◌, ◌/◌, ◌^◌, ◌-◌, ℕ, length};
ghost use Rattle.om_relabel.specs.LabelledLinks.{AreLabelled, label_of};
ghost use Rattle.om_relabel.specs.Links.{first_of};
ghost use Rattle.om_relabel.specs.Ranges.{IsSparse, aligned, elements_of, most_in};

use crate::links::{LABEL_BITS, Links};
use crate::stretch::{Stretch, extended};

/// The range of the 2^`bits` labels from `low` on: the first of its elements in the order of the
/// list, and how many it has.
#[derive(Clone, Copy, PartialEq, Eq)]
pub struct LabelRange {
    pub first: u32,
    pub count: u32,
    pub low: u64,
    pub bits: u32,
}

// Returns how many elements a sparse range of 2^bits labels may have.
fn most_elements(bits: u32) -> u64
    requires { bits ≤ LABEL_BITS }
    ensures { result ≡ most_in bits }
{
    1 << (2 * bits / 3)
}

// Returns 2^bits, the number of labels of a range.
pub(crate) fn width(bits: u32) -> u64
    requires { bits ≤ LABEL_BITS }
    ensures { result ≡ 2 ^ bits }
{
    1 << bits
}

// Returns the least label of the aligned range of 2^bits labels around a label.
fn aligned_low(label: u64, bits: u32) -> u64
    requires { bits ≤ LABEL_BITS }
    ensures { result ≡ aligned label bits }
{
    label / width(bits) * width(bits)
}

/// Returns the smallest sparse range of labels around `x`, of 2 to 2^62 labels. A range of 2^n labels is
/// aligned, so its least label is a multiple of 2^n, and it is sparse if it has at most 2^m elements,
/// where m is 2n/3 rounded down. The range of all labels is sparse. The time is that of walking over
/// the elements of the range.
pub fn choose_range(links: &Links, x: u32) -> LabelRange
    requires labelled { AreLabelled links.now }
    requires there { x < length links.now.label.items }
    ensures positive_bits { 1 ≤ result.bits }
    ensures bounded_bits { result.bits ≤ LABEL_BITS }
    ensures low { result.low ≡ aligned (label_of links.now x) result.bits }
    ensures first { result.first ≡ first_of (elements_of links.now result) }
    ensures count { result.count ≡ length (elements_of links.now result) }
    ensures sparse { result.count ≤ most_in result.bits }
    ensures least { (bits : ℕ) → 1 ≤ bits → bits < result.bits → ¬ IsSparse links.now x bits }
{
    let label = links.label[x as usize];
    let mut bits = 0;
    let mut stretch = Stretch {
        first: x,
        last: x,
        count: 1,
    };
    loop {
        bits += 1;
        let low = aligned_low(label, bits);
        stretch = extended(links, stretch, low, low + width(bits));
        if u64::from(stretch.count) <= most_elements(bits) {
            return LabelRange {
                first: stretch.first,
                count: stretch.count,
                low,
                bits,
            };
        }
    }
}
