//! Walks along the list, over elements whose labels are within bounds.

ghost use Rattle.std.specs.Prelude.{◌≡◌, ◌<◌, ◌≤◌, ◌+◌, length};
ghost use Rattle.om_relabel.specs.LabelledLinks.{AreLabelled, label_of};
ghost use Rattle.om_relabel.specs.Ranges.{count_within};

use crate::links::{END, Links, TOP};

/// The last element of a walk, and how many elements it went over.
#[derive(Clone, Copy)]
pub(crate) struct Walk {
    pub(crate) element: u32,
    pub(crate) steps: u32,
}

/// Walks back from `from` to the first element whose label is at least `low`.
pub(crate) fn walk_back(links: &Links, from: u32, low: u64) -> Walk
    requires labelled { AreLabelled links.now }
    requires there { from < length links.now.label.items }
    requires above { low ≤ label_of links.now from }
    ensures there { result.element < length links.now.label.items }
    ensures above { low ≤ label_of links.now result.element }
    ensures back { label_of links.now result.element ≤ label_of links.now from }
    ensures steps { result.steps ≡ count_within links.now (label_of links.now result.element) (label_of links.now from) }
    ensures rest { count_within links.now low (label_of links.now result.element) ≡ 0 }
{
    let mut element = from;
    let mut steps = 0;
    loop {
        let before = links.prev[element as usize];
        if before == END || links.label[before as usize] < low {
            return Walk { element, steps };
        }
        element = before;
        steps += 1;
    }
}

/// Walks on from `from` to the last element whose label is below `end`.
pub(crate) fn walk_on(links: &Links, from: u32, end: u64) -> Walk
    requires labelled { AreLabelled links.now }
    requires there { from < length links.now.label.items }
    requires below { label_of links.now from < end }
    requires top { end ≤ TOP }
    ensures there { result.element < length links.now.label.items }
    ensures below { label_of links.now result.element < end }
    ensures on { label_of links.now from ≤ label_of links.now result.element }
    ensures steps { result.steps ≡ count_within links.now (label_of links.now from + 1) (label_of links.now result.element + 1) }
    ensures rest { count_within links.now (label_of links.now result.element + 1) end ≡ 0 }
{
    let mut element = from;
    let mut steps = 0;
    loop {
        let after = links.next[element as usize];
        if after == END || links.label[after as usize] >= end {
            return Walk { element, steps };
        }
        element = after;
        steps += 1;
    }
}
