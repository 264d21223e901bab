//! The declared cells of a program.

ghost use Rattle.std.specs.Prelude.{◌≡◌, ◌≤◌, ◌<◌, [], None, All, IfOk, IfErr, IfSome, IfNone, OnOk, length};
ghost use Rattle.pipe_check.specs.CellShapes.{HasShape};
ghost use Rattle.pipe_check.specs.Passing.{IsFirstFaultOf};
ghost use Rattle.pipe_model.specs.Language.CheckingRules.{cell_total, first_fault, is_cell, size_in};
ghost use Rattle.pipe_model.specs.Language.Marks.{marks_of_cells};
ghost use Rattle.pipe_model.specs.Language.Programs.{declared_size};
ghost use Rattle.pipe_model.specs.declared.bounds.TheConstants as bounds;
ghost use Rattle.pipe_model.specs.Language.SpellablePrograms.{HasNoNegativeSize};
ghost use Rattle.pipe_model.specs.declared.tree.Declaration.{Declaration as Declared};

use crate::fault::CheckFault;
use pipe_model::bounds::MOST_CELLS;
use pipe_model::memory::NoMemory;
use pipe_model::name::Name;
use pipe_model::tree::Declaration;
use std::alloc::Global;
use std::collections::BTreeMap;
use std::marker::Model;

/// What a name is declared as.
#[derive(Clone, Copy)]
pub enum CellShape {
    /// No cell has the name.
    Undeclared,
    /// A plain cell.
    Plain,
    /// An array of this size.
    Array(i64),
}

/// The declared cells of a program, found by their names. Contracts see the declarations.
#[derive(Drop)]
pub struct CellTable<'a> {
    declared: &'a [Declaration],
    sizes: BTreeMap<&'a [u8], Option<i64>>,
    total: u32,
}

impl<'a> Model for CellTable<'a> {
    ghost use Rattle.std.specs.Prelude.{List};
    ghost use Rattle.pipe_model.specs.declared.tree.Declaration.{Declaration};

    ghost Value = { List Declaration };

    ghost use Rattle.pipe_check.specs.CellTables.{IsCellTable};

    ghost view = { λ c. c.declared.now };

    ghost invariant = { λ c. IsCellTable c.sizes c.total c.declared.now };
}

// The number of cells of a declaration; `None` if there are more than `most`.
fn count_of(size: Option<i64>, most: u32) -> Option<u32>
    requires size { HasNoNegativeSize size }
    ensures some { IfSome result (λ count. count ≡ declared_size size) }
    ensures within { IfSome result (λ count. count ≤ most) }
    ensures none { IfNone result (most < declared_size size) }
{
    let count = size.unwrap_or(1);
    if count > i64::from(most) {
        return None;
    }
    Some(count as u32)
}

impl<'a> CellTable<'a> {
    /// Returns the declared cells, whose names all differ, or the first fault of the declarations.
    /// `NoMemory` is returned only if memory runs out.
    pub fn of(alloc: Global, declared: &'a [Declaration]) -> Result<Self, CheckFault>
        requires sizes { All (λ (d : Declared). HasNoNegativeSize d.size) declared.now }
        requires bounded { length declared.now ≤ bounds.LARGEST_PROGRAM }
        ensures cells { IfOk result (λ cells. cells ≡ declared.now) }
        ensures ok { OnOk result (first_fault 0 (marks_of_cells [] declared.now) ≡ None) }
        ensures err { IfErr result (λ fault. IsFirstFaultOf fault (first_fault 0 (marks_of_cells [] declared.now))) }
    {
        let mut sizes = BTreeMap::new(alloc);
        let mut total = 0;
        let mut next = 0;
        for cell in declared {
            if sizes.contains_key(cell.name.as_bytes()) {
                return Err(CheckFault::Twice(next));
            }
            let Some(count) = count_of(cell.size, MOST_CELLS - total) else {
                return Err(CheckFault::TooManyCells(next));
            };
            if count == 0 {
                return Err(CheckFault::ZeroSize(next));
            }
            sizes
                .insert(cell.name.as_bytes(), cell.size)
                .map_err(NoMemory::from)?;
            total += count;
            next += 1;
        }
        Ok(CellTable {
            declared,
            sizes,
            total,
        })
    }

    /// Returns the number of declared names.
    pub fn len(&self) -> usize
        ensures { result ≡ length self.now }
    {
        self.declared.len()
    }

    /// Returns the number of cells, array elements counted: at most 65,536.
    pub fn total(&self) -> u32
        ensures total { result ≡ cell_total self.now }
        ensures bounded { result ≤ bounds.MOST_CELLS }
    {
        self.total
    }

    // The size with which the name is declared, if it is the name of a cell; a plain cell has no
    // size.
    fn size_of(&self, name: &Name) -> Option<Option<i64>>
        ensures { result ≡ size_in self.now name.now }
    {
        self.sizes.get(name.as_bytes()).copied()
    }

    /// Returns what the name is declared as.
    pub fn shape_of(&self, name: &Name) -> CellShape
        ensures { HasShape (size_in self.now name.now) result }
    {
        match self.size_of(name) {
            None => CellShape::Undeclared,
            Some(None) => CellShape::Plain,
            Some(Some(size)) => CellShape::Array(size),
        }
    }

    /// Returns whether a cell has the name.
    pub fn declares(&self, name: &Name) -> bool
        ensures { result ≡ is_cell self.now name.now }
    {
        self.size_of(name).is_some()
    }
}
