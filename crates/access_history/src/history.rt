//! The history of a cell.

ghost use Rattle.std.specs.Prelude.{◌≡◌, ◌↔◌, ◌++◌, ◌∷◌, [], ℕ, List, IsTrue, IfSome, false};
ghost use Rattle.access_history.specs.KeptInstances.{AgreeOn, AgreeOnKept, IsEither, IsHistoryAfter, KeepsAmong, KeptAreIn, earlier_access};
ghost use Rattle.access_history.specs.KeptInstances.{kept_of, node_of, nothing_kept, report_after};
ghost use Rattle.access_history.specs.KnownOrder.{AgreeOnKnown, AgreeOnKnownKept, asks_about, is_known_before, is_same, kept_known};
ghost use Rattle.access_history.specs.KnownOrder.{may_ask};
ghost use Rattle.pipe_model.specs.Orders.AccessHistory.{check_access, is_ordered, later, race_with, updated_history};
ghost use Rattle.pipe_model.specs.Orders.GrowingLists.{AreIn, KeepsOrder};
ghost use Rattle.pipe_model.specs.Races.CellRaces.{NotedAccess, noted_access};
ghost use Rattle.pipe_model.specs.declared.access.AccessKind.TheVariants.{Read, Write};
ghost use Rattle.pipe_model.specs.declared.marks.Marks.{Marks as PlainMarks};
ghost use Rattle.pipe_model.specs.declared.node.NodeId.{NodeId as PlainNodeId};

use pipe_model::access::AccessKind;
use pipe_model::marks::Marks;
use pipe_model::node::NodeId;
use pipe_model::orders::Orders;

/// A stage instance, with its elements of the two order lists.
#[derive(Clone, Copy)]
pub struct MarkedNode {
    /// Its name.
    pub node: NodeId,
    /// Its elements.
    pub marks: Marks,
}

/// A race of two accesses to a cell.
#[derive(Clone, Copy, PartialEq, Eq)]
pub struct Found {
    /// The instance of the earlier access.
    pub earlier: NodeId,
    /// Whether that access reads or writes.
    pub earlier_kind: AccessKind,
    /// The instance of the later access.
    pub later: NodeId,
    /// Whether that access reads or writes.
    pub later_kind: AccessKind,
}

/// Whether an access races with an earlier one.
#[derive(Clone, Copy)]
pub enum Verdict {
    /// It races with no kept access.
    Clean,
    /// It races with this kept access.
    Race(NodeId, AccessKind),
}

/// What is kept of the accesses to a cell.
#[derive(Clone, Copy)]
pub struct History {
    /// The last writer.
    pub writer: Option<MarkedNode>,
    /// The reader that is last in down-first.
    pub rightmost: Option<MarkedNode>,
    /// The reader that is last in right-first.
    pub downmost: Option<MarkedNode>,
    /// The first race.
    pub report: Option<Found>,
}

// Whether `y` is `x`.
fn is_same(x: NodeId, y: NodeId) -> bool
    ensures { result ≡ is_same x y }
{
    y.iteration == x.iteration && y.index == x.index
}

// Whether `y` is known to be before `x` without the lists.
fn is_known_before(joined: Option<u32>, x: NodeId, y: NodeId) -> bool
    ensures { result ≡ is_known_before joined x y }
{
    match joined {
        Some(joined) => {
            (y.iteration == x.iteration && y.index < x.index)
                || (x.iteration > 0 && y.iteration == x.iteration - 1 && y.index <= joined)
        }
        None => false,
    }
}

// Whether an access of `x` has to ask the lists about a kept instance.
fn asks_about(joined: Option<u32>, x: NodeId, kept: &Option<MarkedNode>) -> bool
    ensures { result ≡ asks_about joined x kept.now }
{
    match kept {
        Some(y) => !is_same(x, y.node) && !is_known_before(joined, x, y.node),
        None => false,
    }
}

// Whether `y` is `x`, or before it in both orders.
fn is_same_or_before<O: Orders>(
    y: &MarkedNode,
    x: &MarkedNode,
    joined: Option<u32>,
    orders: &mut O,
) -> bool
    requires first { AreIn (O.down_first orders.old) (O.right_first orders.old) y.now.marks }
    requires second { AreIn (O.down_first orders.old) (O.right_first orders.old) x.now.marks }
    ensures ordered { (down right : PlainNodeId → ℕ)
        → AgreeOn (O.down_first orders.old) (O.right_first orders.old) down right x.now y.now
        → AgreeOnKnown joined down right x.now.node y.now.node
        → result ≡ is_ordered down right y.now.node x.now.node }
    ensures down { KeepsOrder (O.down_first orders.old) (O.down_first orders.new) }
    ensures right { KeepsOrder (O.right_first orders.old) (O.right_first orders.new) }
    ensures unchanged { O.identity orders.new ≡ O.identity orders.old }
{
    let same = is_same(x.node, y.node);
    if same || is_known_before(joined, x.node, y.node) {
        return true;
    }
    if !orders.down_before(&y.marks, &x.marks) {
        return false;
    }
    orders.right_before(&y.marks, &x.marks)
}

// Compares an access of `x` with a kept one of this kind.
fn compare<O: Orders>(
    kept: &Option<MarkedNode>,
    kind: AccessKind,
    x: &MarkedNode,
    joined: Option<u32>,
    orders: &mut O,
) -> Verdict
    requires kept { IfSome kept.now (λ y. AreIn (O.down_first orders.old) (O.right_first orders.old) y.marks) }
    requires new { AreIn (O.down_first orders.old) (O.right_first orders.old) x.now.marks }
    ensures race { (down right : PlainNodeId → ℕ)
        → IfSome kept.now (AgreeOn (O.down_first orders.old) (O.right_first orders.old) down right x.now)
        → IfSome kept.now (λ y. AgreeOnKnown joined down right x.now.node y.node)
        → earlier_access result ≡ race_with down right x.now.node kind (node_of kept.now) None }
    ensures down { KeepsOrder (O.down_first orders.old) (O.down_first orders.new) }
    ensures right { KeepsOrder (O.right_first orders.old) (O.right_first orders.new) }
    ensures unchanged { O.identity orders.new ≡ O.identity orders.old }
{
    match kept {
        Some(y) => {
            if is_same_or_before(y, x, joined, orders) {
                Verdict::Clean
            } else {
                Verdict::Race(y.node, kind)
            }
        }
        None => Verdict::Clean,
    }
}

// Compares a write of `x` with the kept reads.
fn compare_readers<O: Orders>(
    history: &History,
    x: &MarkedNode,
    joined: Option<u32>,
    orders: &mut O,
) -> Verdict
    requires kept { KeptAreIn (O.down_first orders.old) (O.right_first orders.old) history.now }
    requires new { AreIn (O.down_first orders.old) (O.right_first orders.old) x.now.marks }
    ensures race { (down right : PlainNodeId → ℕ)
        → AgreeOnKept (O.down_first orders.old) (O.right_first orders.old) down right x.now history.now
        → AgreeOnKnownKept joined down right x.now.node history.now
        → earlier_access result ≡ race_with down right x.now.node Read (node_of history.now.rightmost)
        (race_with down right x.now.node Read (node_of history.now.downmost) None) }
    ensures down { KeepsOrder (O.down_first orders.old) (O.down_first orders.new) }
    ensures right { KeepsOrder (O.right_first orders.old) (O.right_first orders.new) }
    ensures unchanged { O.identity orders.new ≡ O.identity orders.old }
{
    match compare(&history.rightmost, AccessKind::Read, x, joined, orders) {
        Verdict::Clean => compare(&history.downmost, AccessKind::Read, x, joined, orders),
        Verdict::Race(y, kind) => Verdict::Race(y, kind),
    }
}

// Compares an access of `x` with the kept accesses.
fn check<O: Orders>(
    history: &History,
    x: &MarkedNode,
    joined: Option<u32>,
    kind: AccessKind,
    orders: &mut O,
) -> Verdict
    requires kept { KeptAreIn (O.down_first orders.old) (O.right_first orders.old) history.now }
    requires new { AreIn (O.down_first orders.old) (O.right_first orders.old) x.now.marks }
    ensures race { (down right : PlainNodeId → ℕ)
        → AgreeOnKept (O.down_first orders.old) (O.right_first orders.old) down right x.now history.now
        → AgreeOnKnownKept joined down right x.now.node history.now
        → earlier_access result ≡ check_access down right (kept_of history.now) x.now.node kind }
    ensures down { KeepsOrder (O.down_first orders.old) (O.down_first orders.new) }
    ensures right { KeepsOrder (O.right_first orders.old) (O.right_first orders.new) }
    ensures unchanged { O.identity orders.new ≡ O.identity orders.old }
{
    match (
        compare(&history.writer, AccessKind::Write, x, joined, orders),
        kind,
    ) {
        (Verdict::Race(y, earlier), _) => Verdict::Race(y, earlier),
        (Verdict::Clean, AccessKind::Read) => Verdict::Clean,
        (Verdict::Clean, AccessKind::Write) => compare_readers(history, x, joined, orders),
    }
}

// The later of the kept reader and `x` in down-first.
fn later_in_down<O: Orders>(
    kept: &Option<MarkedNode>,
    x: &MarkedNode,
    joined: Option<u32>,
    orders: &mut O,
) -> MarkedNode
    requires kept { IfSome kept.now (λ y. AreIn (O.down_first orders.old) (O.right_first orders.old) y.marks) }
    requires new { AreIn (O.down_first orders.old) (O.right_first orders.old) x.now.marks }
    ensures later { (down right : PlainNodeId → ℕ)
        → IfSome kept.now (AgreeOn (O.down_first orders.old) (O.right_first orders.old) down right x.now)
        → IfSome kept.now (λ y. AgreeOnKnown joined down right x.now.node y.node)
        → result.node ≡ later down (node_of kept.now) x.now.node }
    ensures either { IsEither kept.now x.now result }
    ensures down { KeepsOrder (O.down_first orders.old) (O.down_first orders.new) }
    ensures right { KeepsOrder (O.right_first orders.old) (O.right_first orders.new) }
    ensures unchanged { O.identity orders.new ≡ O.identity orders.old }
{
    match kept {
        Some(y) => {
            if is_same(x.node, y.node) || is_known_before(joined, x.node, y.node) {
                return *x;
            }
            if orders.down_before(&y.marks, &x.marks) {
                *x
            } else {
                *y
            }
        }
        None => *x,
    }
}

// The later of the kept reader and `x` in right-first.
fn later_in_right<O: Orders>(
    kept: &Option<MarkedNode>,
    x: &MarkedNode,
    joined: Option<u32>,
    orders: &mut O,
) -> MarkedNode
    requires kept { IfSome kept.now (λ y. AreIn (O.down_first orders.old) (O.right_first orders.old) y.marks) }
    requires new { AreIn (O.down_first orders.old) (O.right_first orders.old) x.now.marks }
    ensures later { (down right : PlainNodeId → ℕ)
        → IfSome kept.now (AgreeOn (O.down_first orders.old) (O.right_first orders.old) down right x.now)
        → IfSome kept.now (λ y. AgreeOnKnown joined down right x.now.node y.node)
        → result.node ≡ later right (node_of kept.now) x.now.node }
    ensures either { IsEither kept.now x.now result }
    ensures down { KeepsOrder (O.down_first orders.old) (O.down_first orders.new) }
    ensures right { KeepsOrder (O.right_first orders.old) (O.right_first orders.new) }
    ensures unchanged { O.identity orders.new ≡ O.identity orders.old }
{
    match kept {
        Some(y) => {
            if is_same(x.node, y.node) || is_known_before(joined, x.node, y.node) {
                return *x;
            }
            if orders.right_before(&y.marks, &x.marks) {
                *x
            } else {
                *y
            }
        }
        None => *x,
    }
}

impl History {
    /// Returns the history of no accesses.
    pub fn new() -> History
        ensures { result ≡ nothing_kept }
    {
        History {
            writer: None,
            rightmost: None,
            downmost: None,
            report: None,
        }
    }

    // Keeps a race, unless one was found before.
    fn report_first(&mut self, who: MarkedNode, kind: AccessKind, verdict: Verdict)
        ensures { self.new ≡ record self.old { report = report_after self.old.report who.node kind verdict } }
    {
        if let (None, Verdict::Race(earlier, earlier_kind)) = (self.report, verdict) {
            self.report = Some(Found {
                earlier,
                earlier_kind,
                later: who.node,
                later_kind: kind,
            });
        }
    }

    // Keeps an access of `who`.
    fn keep<O: Orders>(
        &mut self,
        who: MarkedNode,
        joined: Option<u32>,
        kind: AccessKind,
        orders: &mut O,
    )
        requires kept { KeptAreIn (O.down_first orders.old) (O.right_first orders.old) self.old }
        requires new { AreIn (O.down_first orders.old) (O.right_first orders.old) who.marks }
        ensures kept { (down right : PlainNodeId → ℕ)
            → AgreeOnKept (O.down_first orders.old) (O.right_first orders.old) down right who self.old
            → AgreeOnKnownKept joined down right who.node self.old
            → kept_of self.new ≡ updated_history down right (kept_of self.old) who.node kind }
        ensures report { self.new.report ≡ self.old.report }
        ensures each { KeepsAmong self.old who self.new }
        ensures down { KeepsOrder (O.down_first orders.old) (O.down_first orders.new) }
        ensures right { KeepsOrder (O.right_first orders.old) (O.right_first orders.new) }
        ensures unchanged { O.identity orders.new ≡ O.identity orders.old }
    {
        match kind {
            AccessKind::Read => {
                let rightmost = later_in_down(&self.rightmost, &who, joined, orders);
                let downmost = later_in_right(&self.downmost, &who, joined, orders);
                self.rightmost = Some(rightmost);
                self.downmost = Some(downmost);
            }
            AccessKind::Write => self.writer = Some(who),
        }
    }

    /// Returns whether `note_joined` may ask the lists in an access of `who`: a kept instance is neither
    /// `who` nor counts as before it.
    pub fn may_ask(&self, who: NodeId, joined: Option<u32>) -> bool
        ensures { result ≡ may_ask joined who self.now }
    {
        asks_about(joined, who, &self.writer)
            || asks_about(joined, who, &self.rightmost)
            || asks_about(joined, who, &self.downmost)
    }

    /// Does what `note_joined` does where it asks nothing (`may_ask`): each kept instance is `who` or
    /// counts as before it, so the access races with none. Does not allocate.
    pub fn note_known(&mut self, who: MarkedNode, joined: Option<u32>, kind: AccessKind)
        requires known { may_ask joined who.node self.old ≡ false }
        ensures history { self.new ≡ kept_known self.old who kind }
        ensures each { KeepsAmong self.old who self.new }
        ensures step { (down right : PlainNodeId → ℕ) → AgreeOnKnownKept joined down right who.node self.old
            → (accesses : List NotedAccess) → IsHistoryAfter down right accesses self.old
            → IsHistoryAfter down right (accesses ++ noted_access who.node kind ∷ []) self.new }
    {
        let _ = joined;
        match kind {
            AccessKind::Read => {
                self.rightmost = Some(who);
                self.downmost = Some(who);
            }
            AccessKind::Write => {
                self.writer = Some(who);
            }
        }
    }

    // Does what `note_joined` does, by questions to the lists where the order is not known.
    fn note_asking<O: Orders>(
        &mut self,
        who: MarkedNode,
        joined: Option<u32>,
        kind: AccessKind,
        orders: &mut O,
    ) -> Verdict
        requires kept { KeptAreIn (O.down_first orders.old) (O.right_first orders.old) self.old }
        requires new { AreIn (O.down_first orders.old) (O.right_first orders.old) who.marks }
        ensures race { (down right : PlainNodeId → ℕ)
            → AgreeOnKept (O.down_first orders.old) (O.right_first orders.old) down right who self.old
            → AgreeOnKnownKept joined down right who.node self.old
            → earlier_access result ≡ check_access down right (kept_of self.old) who.node kind }
        ensures kept { (down right : PlainNodeId → ℕ)
            → AgreeOnKept (O.down_first orders.old) (O.right_first orders.old) down right who self.old
            → AgreeOnKnownKept joined down right who.node self.old
            → kept_of self.new ≡ updated_history down right (kept_of self.old) who.node kind }
        ensures report { self.new.report ≡ report_after self.old.report who.node kind result }
        ensures each { KeepsAmong self.old who self.new }

        // One step of the fold over the accesses, by any two orders that agree with the lists.
        ensures step { (down right : PlainNodeId → ℕ)
            → AgreeOnKept (O.down_first orders.old) (O.right_first orders.old) down right who self.old
            → AgreeOnKnownKept joined down right who.node self.old
            → (accesses : List NotedAccess) → IsHistoryAfter down right accesses self.old
            → IsHistoryAfter down right (accesses ++ noted_access who.node kind ∷ []) self.new }

        ensures in_lists { KeptAreIn (O.down_first orders.new) (O.right_first orders.new) self.new }
        ensures down { KeepsOrder (O.down_first orders.old) (O.down_first orders.new) }
        ensures right { KeepsOrder (O.right_first orders.old) (O.right_first orders.new) }
        ensures unchanged { O.identity orders.new ≡ O.identity orders.old }
    {
        let verdict = check(self, &who, joined, kind, orders);
        self.keep(who, joined, kind, orders);
        self.report_first(who, kind, verdict);
        verdict
    }

    /// Does what `note` does, with fewer questions to the lists: none about `who` itself, and a kept
    /// instance above `who` in its column, or in the column to the left at an index of at most `joined`,
    /// if that is given, counts as before `who`. That is right in a run if `joined` is the last index of
    /// the left column that precedes `who`. The clauses hold for orders in which it is right. Does not
    /// allocate.
    pub fn note_joined<O: Orders>(
        &mut self,
        who: MarkedNode,
        joined: Option<u32>,
        kind: AccessKind,
        orders: &mut O,
    ) -> Verdict
        requires kept { KeptAreIn (O.down_first orders.old) (O.right_first orders.old) self.old }
        requires new { AreIn (O.down_first orders.old) (O.right_first orders.old) who.marks }
        ensures race { (down right : PlainNodeId → ℕ)
            → AgreeOnKept (O.down_first orders.old) (O.right_first orders.old) down right who self.old
            → AgreeOnKnownKept joined down right who.node self.old
            → earlier_access result ≡ check_access down right (kept_of self.old) who.node kind }
        ensures kept { (down right : PlainNodeId → ℕ)
            → AgreeOnKept (O.down_first orders.old) (O.right_first orders.old) down right who self.old
            → AgreeOnKnownKept joined down right who.node self.old
            → kept_of self.new ≡ updated_history down right (kept_of self.old) who.node kind }
        ensures report { self.new.report ≡ report_after self.old.report who.node kind result }
        ensures each { KeepsAmong self.old who self.new }

        // One step of the fold over the accesses, by any two orders that agree with the lists.
        ensures step { (down right : PlainNodeId → ℕ)
            → AgreeOnKept (O.down_first orders.old) (O.right_first orders.old) down right who self.old
            → AgreeOnKnownKept joined down right who.node self.old
            → (accesses : List NotedAccess) → IsHistoryAfter down right accesses self.old
            → IsHistoryAfter down right (accesses ++ noted_access who.node kind ∷ []) self.new }

        ensures in_lists { KeptAreIn (O.down_first orders.new) (O.right_first orders.new) self.new }
        ensures down { KeepsOrder (O.down_first orders.old) (O.down_first orders.new) }
        ensures right { KeepsOrder (O.right_first orders.old) (O.right_first orders.new) }
        ensures unchanged { O.identity orders.new ≡ O.identity orders.old }
    {
        if self.may_ask(who.node, joined) {
            return self.note_asking(who, joined, kind, orders);
        }
        self.note_known(who, joined, kind);
        Verdict::Clean
    }

    /// Compares an access with the kept ones, and then keeps it. Returns the first with which it races:
    /// a write is compared with the last writer, then with the rightmost and then with the downmost
    /// reader; a read is compared with the last writer alone. This holds for any two orders of the
    /// instances that agree with the lists on `who` and the kept instances. The first race is kept as
    /// the report. The elements of `who` and of the kept instances must be in the lists, and those of
    /// the instances that are kept afterwards are. Does not allocate.
    pub fn note<O: Orders>(&mut self, who: MarkedNode, kind: AccessKind, orders: &mut O) -> Verdict
        requires kept { KeptAreIn (O.down_first orders.old) (O.right_first orders.old) self.old }
        requires new { AreIn (O.down_first orders.old) (O.right_first orders.old) who.marks }
        ensures race { (down right : PlainNodeId → ℕ)
            → AgreeOnKept (O.down_first orders.old) (O.right_first orders.old) down right who self.old
            → earlier_access result ≡ check_access down right (kept_of self.old) who.node kind }
        ensures kept { (down right : PlainNodeId → ℕ)
            → AgreeOnKept (O.down_first orders.old) (O.right_first orders.old) down right who self.old
            → kept_of self.new ≡ updated_history down right (kept_of self.old) who.node kind }
        ensures report { self.new.report ≡ report_after self.old.report who.node kind result }
        ensures each { KeepsAmong self.old who self.new }

        // One step of the fold over the accesses, by any two orders that agree with the lists.
        ensures step { (down right : PlainNodeId → ℕ)
            → AgreeOnKept (O.down_first orders.old) (O.right_first orders.old) down right who self.old
            → (accesses : List NotedAccess) → IsHistoryAfter down right accesses self.old
            → IsHistoryAfter down right (accesses ++ noted_access who.node kind ∷ []) self.new }

        ensures in_lists { KeptAreIn (O.down_first orders.new) (O.right_first orders.new) self.new }
        ensures down { KeepsOrder (O.down_first orders.old) (O.down_first orders.new) }
        ensures right { KeepsOrder (O.right_first orders.old) (O.right_first orders.new) }
        ensures unchanged { O.identity orders.new ≡ O.identity orders.old }
    {
        self.note_joined(who, None, kind, orders)
    }
}
