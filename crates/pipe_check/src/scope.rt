//! What is known at one point of a program's text.

ghost use Rattle.std.specs.Prelude.{◌≡◌, ◌<◌, ◌∷◌, [], OnOk, length, take};
ghost use Rattle.pipe_check.specs.Passing.{PassesMarks};
ghost use Rattle.pipe_model.specs.declared.bounds.TheConstants as bounds;
ghost use Rattle.pipe_model.specs.Language.Marks.{DeclaredLocal, Indexed, IterWord, Plain, StageWord, mark_at, opening, after_let};
ghost use Rattle.pipe_model.specs.Language.CheckingRules.{is_among};

use crate::cell_table::{CellShape, CellTable};
use crate::fault::CheckFault;
use pipe_model::bounds::MOST_LOCALS;
use pipe_model::memory::NoMemory;
use pipe_model::name::Name;
use pipe_model::region::Region;
use std::alloc::Global;
use std::marker::Model;

/// What is known at one point of a program's text: its region, the cells, the locals in scope, and
/// the names of all the `let` statements of the region so far.
#[derive(Drop)]
pub struct Scope<'a, 'b> {
    region: Region,
    cells: &'a CellTable<'b>,
    visible: Vec<Name>,
    lets: Vec<Name>,
}

impl<'a, 'b> Model for Scope<'a, 'b> {
    ghost use Rattle.pipe_model.specs.Language.Marks.{Scope as Known};

    ghost Value = { Known };

    ghost view = { λ s. record { region = s.region; cells = s.cells.now; visible = s.visible.items; lets = s.lets.items } };
}

fn is_among(names: &[Name], name: &Name) -> bool
    ensures { result ≡ is_among names.now name.now }
{
    names.iter().any(|other| other.is(name))
}

impl<'a, 'b> Scope<'a, 'b> {
    /// Returns what is known at the beginning of a region.
    pub fn opening(alloc: Global, region: Region, cells: &'a CellTable<'b>) -> Self
        ensures { result ≡ opening region cells.now }
    {
        Scope {
            region,
            cells,
            visible: Vec::new(alloc),
            lets: Vec::new(alloc),
        }
    }

    /// Checks mark `next`, a name that is used without an index. Returns the next mark's number, or
    /// the fault.
    pub fn check_plain(&self, next: u32, name: &Name) -> Result<u32, CheckFault>
        requires { next < bounds.LARGEST_PROGRAM }
        ensures { PassesMarks result next (mark_at self.now (Plain name.now) ∷ []) }
    {
        if is_among(&self.visible, name) {
            return Ok(next + 1);
        }
        match self.cells.shape_of(name) {
            CellShape::Undeclared => Err(CheckFault::Unknown(next)),
            CellShape::Plain => Ok(next + 1),
            CellShape::Array(_) => Err(CheckFault::NeedsIndex(next)),
        }
    }

    /// Checks mark `next`, a name that is used with an index. Returns the next mark's number, or
    /// the fault.
    pub fn check_indexed(&self, next: u32, name: &Name) -> Result<u32, CheckFault>
        requires { next < bounds.LARGEST_PROGRAM }
        ensures { PassesMarks result next (mark_at self.now (Indexed name.now) ∷ []) }
    {
        if is_among(&self.visible, name) {
            return Err(CheckFault::NotAnArray(next));
        }
        match self.cells.shape_of(name) {
            CellShape::Undeclared => Err(CheckFault::Unknown(next)),
            CellShape::Plain => Err(CheckFault::NotAnArray(next)),
            CellShape::Array(_) => Ok(next + 1),
        }
    }

    /// Checks mark `next`, the word `iter`. Returns the next mark's number, or the fault.
    pub fn check_iter(&self, next: u32) -> Result<u32, CheckFault>
        requires { next < bounds.LARGEST_PROGRAM }
        ensures { PassesMarks result next (mark_at self.now IterWord ∷ []) }
    {
        match self.region {
            Region::Test | Region::Body => Ok(next + 1),
            Region::Cells | Region::Init | Region::Last => Err(CheckFault::PipeOutside(next)),
        }
    }

    /// Checks mark `next`, the word of a stage statement. Returns the next mark's number, or the
    /// fault.
    pub fn check_stage(&self, next: u32) -> Result<u32, CheckFault>
        requires { next < bounds.LARGEST_PROGRAM }
        ensures { PassesMarks result next (mark_at self.now StageWord ∷ []) }
    {
        match self.region {
            Region::Body => Ok(next + 1),
            Region::Cells | Region::Init | Region::Test | Region::Last => {
                Err(CheckFault::PipeOutside(next))
            }
        }
    }

    /// Checks mark `next`, the name that a `let` declares. Returns the next mark's number, or the
    /// fault.
    pub fn check_local(&self, next: u32, name: &Name) -> Result<u32, CheckFault>
        requires { next < bounds.LARGEST_PROGRAM }
        ensures { PassesMarks result next (mark_at self.now (DeclaredLocal name.now) ∷ []) }
    {
        if self.cells.declares(name) || is_among(&self.lets, name) {
            return Err(CheckFault::Twice(next));
        }
        if self.lets.len() >= MOST_LOCALS {
            return Err(CheckFault::TooManyLocals(next));
        }
        Ok(next + 1)
    }

    /// Brings a local into scope. Returns an error only if memory runs out.
    pub fn declare(&mut self, alloc: Global, name: &Name) -> Result<(), NoMemory>
        ensures { OnOk result (self.new ≡ after_let self.old name.now) }
    {
        self.visible.push(Name::new(alloc, name.as_bytes())?)?;
        self.lets.push(Name::new(alloc, name.as_bytes())?)?;
        Ok(())
    }

    /// Returns the number of locals in scope.
    pub fn visible_len(&self) -> usize
        ensures { result ≡ length self.now.visible }
    {
        self.visible.len()
    }

    /// Takes all locals but the first `kept` out of scope.
    pub fn leave(&mut self, kept: usize)
        ensures { self.new ≡ record {
          region = self.old.region;
          cells = self.old.cells;
          visible = take kept self.old.visible;
          lets =
              self.old.lets;
        } }
    {
        self.visible.truncate(kept);
    }
}
