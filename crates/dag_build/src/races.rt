//! Determinacy races of a list of accesses: the first one of each cell.

ghost use Rattle.std.specs.Prelude.{◌≡◌, ◌<◌, ◌==◌, All, IfOk, IfNone, IfSome, length};
ghost use Rattle.std.specs.Bool.{OnFalse, OnTrue};
ghost use Rattle.std.specs.List.Sorted.{IsNonDecreasingBy};
ghost use Rattle.std.specs.List.{prefix_len};
ghost use Rattle.pipe_model.specs.Races.CellRaces.{noted_access, KindsConflict, RacesAt};
ghost use Rattle.pipe_model.specs.Races.Dag.{AreParallel};
ghost use Rattle.pipe_model.specs.Races.Columns.{IsNodeOf};
ghost use Rattle.pipe_model.specs.Races.Reports.{number_at, report_of};
ghost use Rattle.dag_build.specs.AccessFronts.{AreFronts};
ghost use Rattle.pipe_model.specs.Races.FirstRaces.{AreFirstRaces, IsFirstRacingPair, RacesWithNone};
ghost use Rattle.dag_build.specs.RacingAccesses.{AreRacing, CellHasNoRace};
ghost use Rattle.pipe_model.specs.Races.FirstRaces.{RacesWithNoneBefore, ReportsFirstRace};
ghost use Rattle.dag_build.specs.RacingAccesses.{noted_all};
ghost use Rattle.dag_build.specs.NodeColumns.{IsAccessOf};

use crate::dag::Dag;
use crate::fronts::Fronts;
use pipe_model::access::{AccessKind, CellId, NodeAccess, NodeAccesses};
use pipe_model::list::ListOf;
use pipe_model::memory::NoMemory;
use pipe_model::node::NodeId;
use pipe_model::report::{Report, Reports};
use std::alloc::Global;

// Whether two accesses to one cell conflict: not if both read.
fn kinds_conflict(a: AccessKind, b: AccessKind) -> bool
    ensures yes { OnTrue result (KindsConflict a b) }
    ensures no { OnFalse result (KindsConflict a b → ⊥) }
{
    match (a, b) {
        (AccessKind::Read, AccessKind::Read) => false,
        _ => true,
    }
}

// The number of leading accesses to this cell.
fn leading(accesses: &[NodeAccess], cell: CellId) -> usize
    ensures { result ≡ prefix_len (λ a. a.access.cell.0 == cell.0) accesses.now }
{
    accesses
        .iter()
        .take_while(|a| a.access.cell.0 == cell.0)
        .count()
}

impl Dag {
    // Whether neither precedes the other; instances of one column are never parallel.
    fn are_parallel(&self, a: NodeId, b: NodeId) -> bool
        requires a_in { IsNodeOf self.now a }
        requires b_in { IsNodeOf self.now b }
        ensures yes { OnTrue result (AreParallel self.now a b) }
        ensures no { OnFalse result (AreParallel self.now a b → ⊥) }
    {
        if a.iteration == b.iteration {
            return false;
        }
        !self.precedes(a, b) && !self.precedes(b, a)
    }

    // Whether two accesses to one cell race.
    fn are_racing(&self, a: &NodeAccess, b: &NodeAccess) -> bool
        requires a_in { IsAccessOf self.now a.now }
        requires b_in { IsAccessOf self.now b.now }
        ensures yes { OnTrue result (AreRacing self.now a.now b.now) }
        ensures no { OnFalse result (AreRacing self.now a.now b.now → ⊥) }
    {
        kinds_conflict(a.access.kind, b.access.kind) && self.are_parallel(a.node, b.node)
    }

    // The first access before access `later` that races with it; all accesses are to one cell.
    fn race_with(&self, accesses: &[NodeAccess], later: usize) -> Option<usize>
        requires inside { All (IsAccessOf self.now) accesses.now }
        requires within { later < length accesses.now }
        ensures some { IfSome result (λ earlier. RacesAt self.now (noted_all accesses.now) later earlier) }
        ensures first { IfSome result (λ earlier.
            RacesWithNoneBefore self.now (noted_all accesses.now) later earlier) }
        ensures none { IfNone result (RacesWithNone self.now (noted_all accesses.now) later) }
    {
        for earlier in 0..later {
            if self.are_racing(&accesses[earlier], &accesses[later]) {
                return Some(earlier);
            }
        }
        None
    }

    // The same, given the fronts of the accesses before `later`, in its column or a later one.
    fn racing_before(&self, fronts: Fronts, accesses: &[NodeAccess], later: usize) -> Option<usize>
        requires inside { All (IsAccessOf self.now) accesses.now }
        requires within { later < length accesses.now }
        requires fronts { AreFronts self.now (noted_all accesses.now) later fronts }
        ensures some { IfSome result (λ earlier. RacesAt self.now (noted_all accesses.now) later earlier) }
        ensures first { IfSome result (λ earlier.
            RacesWithNoneBefore self.now (noted_all accesses.now) later earlier) }
        ensures none { IfNone result (RacesWithNone self.now (noted_all accesses.now) later) }
    {
        let access = accesses[later];
        if fronts.column == access.node.iteration as usize
            && fronts.front_for(access.access.kind) <= access.node.index as usize
        {
            return None;
        }
        self.race_with(accesses, later)
    }

    // The indices of the first race among the accesses to one cell, the earlier access first.
    fn first_race(&self, accesses: &[NodeAccess]) -> Option<(usize, usize)>
        requires { All (IsAccessOf self.now) accesses.now }
        ensures some { IfSome result (λ race. IsFirstRacingPair self.now (noted_all accesses.now) race.0 race.1) }
        ensures none { IfNone result (CellHasNoRace self.now (noted_all accesses.now)) }
    {
        let first = accesses.first()?;
        let mut fronts = Fronts {
            column: first.node.iteration as usize,
            writes: 0,
            accesses: 0,
        };
        for later in 0..accesses.len() {
            let access = accesses[later];
            let column = access.node.iteration as usize;
            fronts = fronts.moved(self, fronts.column.max(column));
            if let Some(earlier) = self.racing_before(fronts, accesses, later) {
                return Some((earlier, later));
            }
            let here = self.moved(column, access.node.index as usize, fronts.column);
            fronts = fronts.joined(access.access.kind, here);
        }
        None
    }

    fn number(&self, x: NodeId) -> i64
        requires { IsNodeOf self.now x }
        ensures { result ≡ number_at self.now x }
    {
        self.nodes(x.iteration as usize)[x.index as usize].number
    }

    fn report(&self, cell: CellId, earlier: &NodeAccess, later: &NodeAccess) -> Report
        requires earlier_in { IsAccessOf self.now earlier.now }
        requires later_in { IsAccessOf self.now later.now }
        ensures { result ≡ report_of self.now cell.0
            (noted_access earlier.now.node earlier.now.access.kind)
            (noted_access later.now.node later.now.access.kind) }
    {
        Report {
            cell,
            earlier: earlier.node,
            earlier_number: self.number(earlier.node),
            earlier_kind: earlier.access.kind,
            later: later.node,
            later_number: self.number(later.node),
            later_kind: later.access.kind,
        }
    }

    // The report of the first race among the accesses to this cell.
    fn cell_report(&self, cell: CellId, accesses: &[NodeAccess]) -> Option<Report>
        requires { All (IsAccessOf self.now) accesses.now }
        ensures some { IfSome result (λ r. ReportsFirstRace self.now (noted_all accesses.now) r) }
        ensures cell { IfSome result (λ r. r.cell ≡ cell) }
        ensures none { IfNone result (CellHasNoRace self.now (noted_all accesses.now)) }
    {
        let (earlier, later) = self.first_race(accesses)?;
        Some(self.report(cell, &accesses[earlier], &accesses[later]))
    }

    // The first races of accesses that are sorted by cell.
    fn races_by_cell(&self, alloc: Global, accesses: &[NodeAccess]) -> Result<Reports, NoMemory>
        requires inside { All (IsAccessOf self.now) accesses.now }
        requires sorted { IsNonDecreasingBy (λ a. a.access.cell.0) accesses.now }
        ensures { IfOk result (λ reports. AreFirstRaces self.now accesses.now reports) }
    {
        let mut reports = ListOf::new(alloc);
        let mut rest = accesses;
        while let Some(first) = rest.first() {
            let cell = first.access.cell;
            let (group, others) = rest.split_at(leading(rest, cell));
            if let Some(report) = self.cell_report(cell, group) {
                reports.push(report)?;
            }
            rest = others;
        }
        Ok(reports)
    }

    // The first races of all accesses, which are sorted by cell for this.
    fn sorted_races(&self, alloc: Global, accesses: &[NodeAccess]) -> Result<Reports, NoMemory>
        requires { All (IsAccessOf self.now) accesses.now }
        ensures { IfOk result (λ reports. AreFirstRaces self.now accesses.now reports) }
    {
        let mut sorted = Vec::from_slice(alloc, accesses)?;
        sorted.sort_by_key(|a| a.access.cell.0)?;
        self.races_by_cell(alloc, sorted.as_slice())
    }

    /// Returns the determinacy races of the accesses, which instances of the columns must have
    /// made: one report for each cell that has a race, rising by cell. A report names the first
    /// access that conflicts with an earlier access of a parallel instance, and the first such
    /// earlier access. Takes a few look-ups for each access if none races, and otherwise sorts them.
    /// Returns an error only if memory runs out.
    pub fn races(&self, alloc: Global, accesses: &NodeAccesses) -> Result<Reports, NoMemory>
        requires { All (IsAccessOf self.now) accesses.now }
        ensures { IfOk result (λ reports. AreFirstRaces self.now accesses.now reports) }
    {
        if self.are_clear(alloc, accesses.as_slice())? {
            return Ok(ListOf::new(alloc));
        }
        self.sorted_races(alloc, accesses.as_slice())
    }
}
