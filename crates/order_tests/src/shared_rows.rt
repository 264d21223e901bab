//! Passes that ask in other threads while the writer inserts.

ghost use Rattle.std.specs.Prelude.{◌≡◌, ◌<◌, ◌≤◌, ◌+◌, [], IfOk, length};

use om_shared::pass::OmPass;
use om_shared::writer::OmWriter;
use std::sync::Wait;
use std::thread::{Threads, join};

/// Inserts elements after the first `among` elements in turn.
pub fn insert_among(writer: &mut OmWriter, among: u32, times: u32)
    requires positive { 0 < among }
    requires there { among ≤ length writer.old.log + 1 }
    requires room { length writer.old.log + times < writer.old.capacity }
    ensures log { length writer.new.log ≡ length writer.old.log + times }
    ensures capacity { writer.new.capacity ≡ writer.old.capacity }
    ensures table { writer.new.table ≡ writer.old.table }
{
    for k in 0..times {
        writer.insert_after(k % among);
    }
}

/// Asks one question many times. Returns whether each answer is that `x` is before `y`.
pub fn always_precedes<R: Wait>(rt: &R, pass: &mut OmPass, x: u32, y: u32, times: u32) -> bool
    requires first { x ≤ length pass.old.log }
    requires second { y ≤ length pass.old.log }
    ensures unchanged { pass.new ≡ pass.old }
{
    for _ in 0..times {
        if !pass.precedes(rt, x, y) {
            return false;
        }
    }
    true
}

/// Inserts elements while another thread asks whether `x` is before `y`.
pub fn insert_beside<R: Threads + Wait + Sync>(
    rt: &R,
    mut writer: OmWriter,
    mut pass: OmPass,
    among: u32,
    inserts: u32,
    x: u32,
    y: u32,
) -> (OmWriter, OmPass, bool)
    requires among { (0 < among) × (among ≤ length writer.log + 1) }
    requires room { length writer.log + inserts < writer.capacity }
    requires seen { (x ≤ length pass.log) × (y ≤ length pass.log) }
    ensures log { length result.0.log ≡ length writer.log + inserts }
    ensures capacity { result.0.capacity ≡ writer.capacity }
    ensures table { result.0.table ≡ writer.table }
    ensures pass { result.1 ≡ pass }
{
    let (writer, (pass, always)) = join(
        rt,
        move || -> OmWriter
            requires { (0 < among) × (among ≤ length writer.log + 1) × (length writer.log + inserts < writer.capacity) }
            ensures { (length result.log ≡ length writer.log + inserts) × (result.capacity ≡ writer.capacity)
                × (result.table ≡ writer.table) }
        {
            insert_among(&mut writer, among, inserts);
            writer
        },
        move || -> (OmPass, bool)
            requires { (x ≤ length pass.log) × (y ≤ length pass.log) }
            ensures { result.0 ≡ pass }
        {
            let always = always_precedes(rt, &mut pass, x, y, 1_000_000);
            (pass, always)
        },
    );
    (writer, pass, always)
}

#[cfg(test)]
mod tests {
    use super::*;
    use om_list::om_list::OmList;
    use om_shared::writer::start;
    use pipe_model::memory::NoMemory;
    use std::alloc::Global;

    const LAST: u32 = 100_000;

    // A list of a few elements, each inserted after element 0, and a pass that has seen them.
    fn opened(alloc: Global, elements: u32) -> Result<(OmWriter, OmPass), NoMemory>
        requires { elements ≤ 62 }
        ensures log { IfOk result (λ r. (length r.0.log ≡ elements) × (r.1.log ≡ r.0.log)) }
        ensures list { IfOk result (λ r. (r.0.capacity ≡ LAST + 1) × (r.0.table ≡ r.1.table)) }
    {
        let (mut writer, mut pass) = start(alloc, LAST + 1)?;
        insert_among(&mut writer, 1, elements);
        writer.confirm(&mut pass);
        Ok((writer, pass))
    }

    // Whether the elements have these labels.
    fn has_labels(writer: &OmWriter, labels: &[(u32, u64)]) -> bool {
        for (x, label) in labels {
            if *x >= writer.len() || writer.label(*x) != *label {
                return false;
            }
        }
        true
    }

    // Whether each of 62 elements has half of the label of the one before it.
    fn are_halved(writer: &OmWriter) -> bool
        requires { length writer.now.log ≡ 62 }
    {
        for k in 0..62 {
            if writer.label(k + 1) != 1 << (61 - k) {
                return false;
            }
        }
        true
    }

    // The labels of some elements after 63 insertions.
    const NEW_LABELS: [(u32, u64); 6] = [(0, 0), (63, 1), (62, 2), (61, 4), (60, 6), (59, 8)];

    // Inserts one element more. Returns whether the elements have their new labels.
    fn moves_labels(writer: &mut OmWriter) -> bool
        requires log { length writer.old.log ≡ 62 }
        requires room { writer.old.capacity ≡ LAST + 1 }
    {
        writer.insert_after(0);
        writer.len() == 64 && has_labels(writer, &NEW_LABELS)
    }

    fn halves_and_moves(alloc: Global) -> bool {
        match opened(alloc, 62) {
            Ok((mut writer, pass)) => {
                drop(pass);
                let found = are_halved(&writer) && moves_labels(&mut writer);
                drop(writer);
                found
            }
            Err(NoMemory) => false,
        }
    }

    // Each label is half of the one before it. Then those of the last three elements, and no others,
    // move within the range of the 8 labels from 0 to 7.
    #[test]
    fn labels_halve_until_none_is_free(rt: HostRuntime) {
        assert!(rt; halves_and_moves(rt.alloc()));
    }

    // Inserts elements after the first `among` of a few in turn, up to `LAST`, while a pass asks whether `x`
    // is before `y`. Returns whether it always is, and for two pairs whether the one is before the other.
    fn asked_beside<R: Threads + Wait + Sync>(
        rt: &R,
        alloc: Global,
        elements: u32,
        among: u32,
        asked: (u32, u32),
        first: (u32, u32),
        second: (u32, u32),
    ) -> Result<(bool, bool, bool), NoMemory>
        requires few { elements ≤ 62 }
        requires among { (0 < among) × (among ≤ elements + 1) }
        requires asked { (asked.0 ≤ elements) × (asked.1 ≤ elements) }
        requires first { (first.0 ≤ LAST) × (first.1 ≤ LAST) }
        requires second { (second.0 ≤ LAST) × (second.1 ≤ LAST) }
    {
        let (writer, pass) = opened(alloc, elements)?;
        let inserts = LAST - elements;
        let (mut writer, mut pass, always) = insert_beside(
            rt, writer, pass, among, inserts, asked.0, asked.1,
        );
        writer.confirm(&mut pass);
        drop(writer);
        let is_first = pass.precedes(rt, first.0, first.1);
        let is_second = pass.precedes(rt, second.0, second.1);
        drop(pass);
        Ok((always, is_first, is_second))
    }

    #[test]
    fn pass_asks_while_elements_are_inserted(rt: HostRuntime) {
        let found = asked_beside(&rt, rt.alloc(), 1, 1, (0, 1), (LAST, 1), (1, LAST));
        assert!(rt; found == Ok((true, true, false)), "{found:?}");
    }

    // The labels of the elements that the pass asks about move again and again.
    #[test]
    fn pass_asks_while_its_elements_get_new_labels(rt: HostRuntime) {
        let found = asked_beside(&rt, rt.alloc(), 2, 3, (2, 1), (2, 1), (1, LAST));
        assert!(rt; found == Ok((true, true, true)), "{found:?}");
    }

    // Inserts 49,999 elements while a pass asks; a second pass sees them, and the first meets it. Then
    // inserts the others, while the pass asks about an element that it knows from there.
    fn met_in_between<R: Threads + Wait + Sync>(
        rt: &R,
        writer: OmWriter,
        pass: OmPass,
        other: &mut OmPass,
    ) -> (bool, bool, bool)
        requires log { (length writer.log ≡ 1) × (pass.log ≡ writer.log) }
        requires capacity { writer.capacity ≡ LAST + 1 }
        requires table { (writer.table ≡ pass.table) × (other.old.table ≡ pass.table) }
    {
        let (mut writer, mut pass, first) = insert_beside(rt, writer, pass, 1, 49_999, 0, 1);
        writer.confirm(other);
        pass.meet(other);
        let (mut writer, mut pass, second) = insert_beside(
            rt,
            writer,
            pass,
            1,
            LAST - 50_000,
            50_000,
            1,
        );
        writer.confirm(&mut pass);
        drop(writer);
        let ordered = pass.precedes(rt, LAST, 1) && other.precedes(rt, 50_000, 1);
        drop(pass);
        (first, second, ordered)
    }

    fn met_by_another<R: Threads + Wait + Sync>(
        rt: &R,
        alloc: Global,
    ) -> Result<(bool, bool, bool), NoMemory> {
        let (writer, mut pass) = opened(alloc, 1)?;
        let mut other = pass.split()?;
        let found = met_in_between(rt, writer, pass, &mut other);
        drop(other);
        Ok(found)
    }

    #[test]
    fn pass_meets_another_in_between(rt: HostRuntime) {
        let found = met_by_another(&rt, rt.alloc());
        assert!(rt; found == Ok((true, true, true)), "{found:?}");
    }

    // Inserts elements after the first `among` elements in turn.
    fn insert_plainly(list: &mut OmList, among: u32, times: u32)
        requires there { (0 < among) × (among ≤ length list.old.log + 1) }
        requires room { length list.old.log + times < list.old.capacity }
        ensures log { length list.new.log ≡ length list.old.log + times }
        ensures capacity { list.new.capacity ≡ list.old.capacity }
    {
        for k in 0..times {
            list.insert_after(k % among);
        }
    }

    // Whether the lists have the same labels, and agree on which of 401 elements are before `y`.
    fn are_same<R: Wait>(
        rt: &R,
        writer: &OmWriter,
        pass: &mut OmPass,
        plain: &OmList,
        y: u32,
    ) -> bool
        requires element { y ≤ 400 }
        requires writer { length writer.now.log ≡ 400 }
        requires pass { length pass.old.log ≡ 400 }
        requires plain { length plain.now.log ≡ 400 }
        ensures unchanged { pass.new ≡ pass.old }
    {
        for x in 0..401 {
            let before = pass.precedes(rt, x, y);
            if writer.label(x) != plain.label(x) || before != plain.before(x, y) {
                return false;
            }
        }
        true
    }

    fn plain_list(alloc: Global) -> Result<OmList, NoMemory>
        ensures { IfOk result (λ list. length list.log ≡ 400) }
    {
        let mut plain = OmList::new(alloc, 401)?;
        insert_plainly(&mut plain, 1, 200);
        insert_plainly(&mut plain, 7, 200);
        Ok(plain)
    }

    // A list with the same insertions, whose elements get their labels after them, and a pass that has
    // seen them.
    fn labelled_late(alloc: Global) -> Result<(OmWriter, OmPass), NoMemory>
        ensures { IfOk result (λ r. (length r.0.log ≡ 400) × (r.1.log ≡ r.0.log)) }
    {
        let (mut writer, mut pass) = start(alloc, 401)?;
        writer.defer();
        insert_among(&mut writer, 1, 200);
        insert_among(&mut writer, 7, 200);
        writer.settle();
        writer.confirm(&mut pass);
        Ok((writer, pass))
    }

    // The first element for which the lists differ.
    fn first_other<R: Wait>(
        rt: &R,
        writer: &OmWriter,
        pass: &mut OmPass,
        plain: &OmList,
    ) -> Option<u32>
        requires writer { length writer.now.log ≡ 400 }
        requires pass { length pass.old.log ≡ 400 }
        requires plain { length plain.now.log ≡ 400 }
    {
        for y in 0..401 {
            if !are_same(rt, writer, pass, plain, y) {
                return Some(y);
            }
        }
        None
    }

    fn first_other_late<R: Wait>(rt: &R, alloc: Global, plain: &OmList) -> Option<u32>
        requires { length plain.now.log ≡ 400 }
    {
        match labelled_late(alloc) {
            Ok((writer, mut pass)) => {
                let other = first_other(rt, &writer, &mut pass, plain);
                drop(pass);
                drop(writer);
                other
            }
            Err(NoMemory) => Some(401),
        }
    }

    // The same of the lists with 400 insertions; 401 if memory runs out.
    fn first_other_of_400<R: Wait>(rt: &R, alloc: Global) -> Option<u32> {
        match plain_list(alloc) {
            Ok(plain) => {
                let other = first_other_late(rt, alloc, &plain);
                drop(plain);
                other
            }
            Err(NoMemory) => Some(401),
        }
    }

    #[test]
    fn late_labels_are_those_of_a_plain_list(rt: HostRuntime) {
        let other = first_other_of_400(&rt, rt.alloc());
        assert!(rt; other.is_none(), "{other:?}");
    }

    // Inserts 200 elements that are late. Returns whether a pass that meets another one, which has seen them,
    // finds the list settled, and whether it does after that, and the last element before the first.
    fn meets_late<R: Wait>(
        rt: &R,
        writer: &mut OmWriter,
        pass: &mut OmPass,
    ) -> Result<(bool, bool), NoMemory>
        requires log { writer.old.log ≡ [] }
        requires capacity { writer.old.capacity ≡ 401 }
        requires table { writer.old.table ≡ pass.old.table }
    {
        let mut other = pass.split()?;
        writer.defer();
        insert_among(writer, 1, 200);
        writer.confirm(&mut other);
        pass.meet(&mut other);
        let before = pass.is_settled();
        drop(other);
        writer.settle();
        Ok((before, pass.is_settled() && pass.precedes(rt, 200, 1)))
    }

    fn met_late<R: Wait>(rt: &R, alloc: Global) -> Result<(bool, bool), NoMemory> {
        let (mut writer, mut pass) = start(alloc, 401)?;
        let found = meets_late(rt, &mut writer, &mut pass);
        drop(pass);
        drop(writer);
        found
    }

    #[test]
    fn passes_meet_before_labels_are_given(rt: HostRuntime) {
        let found = met_late(&rt, rt.alloc());
        assert!(rt; found == Ok((false, true)), "{found:?}");
    }
}
