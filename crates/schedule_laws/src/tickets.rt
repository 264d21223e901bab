//! Laws of the order of tickets.

ghost use Rattle.schedule_laws.specs.TicketOrderLaws.{BooksOrderInstances, OrderedTicketsMerge};
ghost use Rattle.schedule_laws.specs.TicketOrderLaws.{PrecedingInstancesEndFirst, RisingTicketsAreInOrder};

/// Logs whose tickets are in order can be merged.
#[tactic(auto, using(crate::proofs::TicketPaths::ordered_tickets_merge))]
pub fn ordered_tickets_merge()
    ensures { OrderedTicketsMerge }
{}

/// If tickets are in order, an instance starts after the end of each instance that precedes it in
/// the dag.
pub fn preceding_instances_end_first()
    ensures { PrecedingInstancesEndFirst }
{}

/// If the tickets of a book rise, its instances end after their starts, and start after the ends of
/// their parents; so tickets are in order if they rise in each log.
#[tactic(auto, using(crate::proofs::BookOrder::books_order_instances, crate::proofs::BookOrder::rising_tickets_are_in_order))]
pub fn books_order_instances()
    ensures instances { BooksOrderInstances }
    ensures logs { RisingTicketsAreInOrder }
{}
