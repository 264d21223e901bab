//! Which programs a book has room for.

ghost use Rattle.book_laws.specs.BookRooms.{AcceptedProgramsArePlanned};

/// A book has room for every accepted program, on every input.
pub fn accepted_programs_are_planned()
    ensures { AcceptedProgramsArePlanned }
{}
