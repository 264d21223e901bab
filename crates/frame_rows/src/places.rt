//! Where the numbers and the marks of all instances lie.

ghost use Rattle.std.specs.Prelude.{◌≡◌, ◌+◌, ◌*◌, ◌<◌, ◌≤◌, ◌^◌, [], ◌∷◌, ◌++◌, IfOk, drop, length, pos, replicate};
ghost use Rattle.std.specs.Prelude.{slice_index_or, take, vec_capacity};
ghost use Rattle.frame_rows.specs.Places.{place_of, with_place};
ghost use Rattle.frame_rows.specs.RowsOfFrames.{no_marks};

use pipe_model::marks::{Marks, Placeholder};
use std::alloc::{AllocError, Global};
use std::marker::Model;

// The marks of a place that no instance has.
const NO_MARKS: Marks = Marks {
    down_first: 0,
    right_first: 0,
    down: Placeholder {
        down_first: 1,
        right_first: 2,
    },
    right: Placeholder {
        down_first: 2,
        right_first: 1,
    },
};

/// A place for the stage number and the marks of each instance, those of an iteration one after the
/// other. Memory for all is reserved, and not written to before their iteration begins. Contracts see
/// the places of the iterations that have begun, how many an iteration has, and for each that has not
/// begun how many it will have, the next one's last.
#[derive(Drop)]
pub struct Places {
    numbers: Vec<i64>,
    marks: Vec<Marks>,
    stages: usize,
    // How many iterations have not begun.
    left: usize,
}

impl Model for Places {
    ghost use Rattle.std.specs.Prelude.{◌+◌, ◌≤◌, length, vec_capacity};
    ghost use Rattle.frame_rows.specs.Places.{PlaceTable, places_left, rooms_left};

    ghost Value = { PlaceTable };

    ghost view = { λ p. record {
      numbers = p.numbers.items;
      marks = p.marks.items;
      stages = p.stages;
      spare = rooms_left p.left p.stages;
    } };

    ghost invariant = { λ p. (length p.numbers.items + places_left p.left p.stages ≤ vec_capacity p.numbers)
        × (length p.marks.items + places_left p.left p.stages ≤ vec_capacity p.marks) };
}

// Adds places that no instance has.
fn add_places(numbers: &mut Vec<i64>, marks: &mut Vec<Marks>, count: usize)
    requires numbers { length numbers.old.items + count ≤ vec_capacity numbers.old }
    requires marks { length marks.old.items + count ≤ vec_capacity marks.old }
    ensures numbers { numbers.new.items ≡ numbers.old.items ++ replicate count (pos 0) }
    ensures marks { marks.new.items ≡ marks.old.items ++ replicate count no_marks }
    ensures numbers_room { vec_capacity numbers.new ≡ vec_capacity numbers.old }
    ensures marks_room { vec_capacity marks.new ≡ vec_capacity marks.old }
{
    for _ in 0..count {
        numbers.push_reserved(0);
        marks.push_reserved(NO_MARKS);
    }
}

impl Places {
    /// Reserves the places of `iterations` iterations with `stages` instances each, and of one more
    /// with one instance. Returns an error only if memory runs out.
    pub fn new(alloc: Global, iterations: usize, stages: usize) -> Result<Places, AllocError>
        requires room { iterations * stages + 1 < 2 ^ 63 }
        requires iterations { iterations < 2 ^ 63 }
        ensures { IfOk result (λ p. p ≡ record { numbers = []; marks = []; stages = stages; spare = 1 ∷ replicate iterations stages }) }
    {
        let room = iterations * stages + 1;
        Ok(Places {
            numbers: Vec::with_capacity(alloc, room)?,
            marks: Vec::with_capacity(alloc, room)?,
            stages,
            left: iterations + 1,
        })
    }

    /// Adds the places of the next iteration, and returns how many it has. One must be left.
    pub fn add_row(&mut self) -> usize
        requires { 0 < length self.old.spare }
        ensures spare { self.old.spare ≡ self.new.spare ++ result ∷ [] }
        ensures numbers { self.new.numbers ≡ self.old.numbers ++ replicate result (pos 0) }
        ensures marks { self.new.marks ≡ self.old.marks ++ replicate result no_marks }
        ensures stages { self.new.stages ≡ self.old.stages }
        ensures count { 0 < length self.new.spare → result ≡ self.old.stages }
    {
        let count = if self.left == 1 { 1 } else { self.stages };
        add_places(&mut self.numbers, &mut self.marks, count);
        self.left -= 1;
        count
    }

    /// Puts the number and the marks of an instance in their place.
    pub fn put(&mut self, iteration: u32, index: usize, number: i64, marks: Marks)
        requires numbers { place_of self.old iteration index < length self.old.numbers }
        requires marks { place_of self.old iteration index < length self.old.marks }
        ensures { self.new ≡ with_place (place_of self.old iteration index) number marks self.old }
    {
        let place = iteration as usize * self.stages + index;
        self.numbers[place] = number;
        self.marks[place] = marks;
    }

    /// Returns the numbers of the first instances of an iteration.
    pub fn numbers(&self, iteration: usize, count: usize) -> &[i64]
        requires { place_of self.now iteration count ≤ length self.now.numbers }
        ensures { result.now ≡ take count (drop (place_of self.now iteration 0) self.now.numbers) }
    {
        let first = iteration * self.stages;
        &self.numbers[first..first + count]
    }

    /// Returns the marks of an instance.
    pub fn marks_at(&self, iteration: usize, index: usize) -> Marks
        requires { place_of self.now iteration index < length self.now.marks }
        ensures { (d : _) → result ≡ slice_index_or self.now.marks (place_of self.now iteration index) d }
    {
        self.marks[iteration * self.stages + index]
    }
}
