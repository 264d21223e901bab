//! The declared cells, found by their names.

ghost use Rattle.std.specs.Prelude.{◌≡◌, ◌≤◌, [], All, IfOk};
ghost use Rattle.pipe_model.specs.Language.CheckingRules.{cell_total};
ghost use Rattle.pipe_model.specs.Language.Programs.{declared_size, range_of};
ghost use Rattle.pipe_model.specs.Language.SpellablePrograms.{HasNoNegativeSize};
ghost use Rattle.stage_code.specs.CellRanges.{AreNew, HasSize, range_in};
ghost use Rattle.pipe_model.specs.declared.tree.Declaration.{Declaration as Declared};
ghost use Rattle.pipe_model.specs.declared.bounds.TheConstants as bounds;

use pipe_model::access::CellId;
use pipe_model::memory::NoMemory;
use pipe_model::name::Name;
use pipe_model::tree::Declaration;
use std::alloc::Global;
use std::collections::BTreeMap;
use std::marker::Model;

// The cell of the first declaration, after the cells `input` and `output`.
const FIRST_CELL: u32 = 2;

/// The cells of a declared name.
#[derive(Clone, Copy)]
pub struct DeclaredRange {
    pub first: CellId,
    pub size: u32,
}

/// The declared cells of a program, found by their names. Contracts see the declarations.
#[derive(Drop)]
pub struct CellRanges<'a> {
    declared: &'a [Declaration],
    ranges: BTreeMap<&'a [u8], DeclaredRange>,
}

impl<'a> Model for CellRanges<'a> {
    ghost use Rattle.std.specs.Prelude.{List};
    ghost use Rattle.pipe_model.specs.declared.tree.Declaration.{Declaration};

    ghost Value = { List Declaration };

    ghost use Rattle.stage_code.specs.CellRanges.{HasRanges};

    ghost view = { λ c. c.declared.now };

    ghost invariant = { λ c. HasRanges c.ranges c.declared.now };
}

// Returns the number of cells of a declaration.
fn count_of(size: Option<i64>) -> u32
    requires { HasSize size }
    ensures { result ≡ declared_size size }
{
    size.unwrap_or(1) as u32
}

impl<'a> CellRanges<'a> {
    // Returns the table of these declarations, whose names all differ.
    pub fn of(alloc: Global, declared: &'a [Declaration]) -> Result<Self, NoMemory>
        requires new { AreNew [] declared.now }
        requires sizes { All (λ (d : Declared). HasNoNegativeSize d.size) declared.now }
        requires bounded { cell_total declared.now ≤ bounds.MOST_CELLS }
        ensures { IfOk result (λ cells. cells ≡ declared.now) }
    {
        let mut ranges = BTreeMap::new(alloc);
        let mut next = FIRST_CELL;
        for cell in declared {
            let size = count_of(cell.size);
            let range = DeclaredRange {
                first: CellId(next),
                size,
            };
            ranges
                .insert(cell.name.as_bytes(), range)
                .map_err(NoMemory::from)?;
            next += size;
        }
        Ok(CellRanges { declared, ranges })
    }

    // Returns the cells of the name, if it is declared.
    pub fn range_of(&self, name: &Name) -> Option<DeclaredRange>
        ensures { range_in result ≡ range_of 2 self.now name.now }
    {
        self.ranges.get(name.as_bytes()).copied()
    }
}
