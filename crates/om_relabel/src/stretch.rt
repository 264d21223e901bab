//! Elements that are next to one another in the list.

ghost use Rattle.std.specs.Prelude.{◌≡◌, ◌<◌, ◌≤◌, ◌+◌, length};
ghost use Rattle.om_relabel.specs.LabelledLinks.{AreLabelled, label_of};
ghost use Rattle.om_relabel.specs.Ranges.{count_within};
ghost use Rattle.om_relabel.specs.Stretches.{IsStretch};

use crate::links::{Links, TOP};
use crate::walk::{walk_back, walk_on};

/// The first and the last of elements that are next to one another, and how many they are.
#[derive(Clone, Copy)]
pub(crate) struct Stretch {
    pub(crate) first: u32,
    pub(crate) last: u32,
    pub(crate) count: u32,
}

/// Adds the elements before and after whose labels are at least `low` and below `end`.
pub(crate) fn extended(links: &Links, stretch: Stretch, low: u64, end: u64) -> Stretch
    requires labelled { AreLabelled links.now }
    requires stretch { IsStretch links.now stretch.first stretch.last stretch.count }
    requires low { low ≤ label_of links.now stretch.first }
    requires end { label_of links.now stretch.last < end }
    requires top { end ≤ TOP }
    ensures stretch { IsStretch links.now result.first result.last result.count }
    ensures low { low ≤ label_of links.now result.first }
    ensures end { label_of links.now result.last < end }
    ensures before { count_within links.now low (label_of links.now result.first) ≡ 0 }
    ensures after { count_within links.now (label_of links.now result.last + 1) end ≡ 0 }
    ensures first { label_of links.now result.first ≤ label_of links.now stretch.first }
    ensures last { label_of links.now stretch.last ≤ label_of links.now result.last }
{
    let back = walk_back(links, stretch.first, low);
    let on = walk_on(links, stretch.last, end);
    Stretch {
        first: back.element,
        last: on.element,
        count: back.steps + stretch.count + on.steps,
    }
}
