//! What only contracts see of the past.

ghost use Rattle.std.specs.Prelude.{◌≡◌, ◌++◌, ◌∷◌, []};

use http_server::Log;
use std::marker::Model;

/// A list that grows, and that takes no memory: contracts see its items, and nothing else does.
#[derive(Drop)]
pub struct Past<A> {
    log: Log<A, ()>,
}

impl<A> Model for Past<A> {
    ghost use Rattle.std.specs.Prelude.{List, map};

    ghost Value = { List A };

    ghost view = { λ p. map (λ x. x.0) p.log.items };
}

impl<A> Past<A> {
    /// Returns the list without items.
    pub fn new() -> Past<A>
        ensures { result ≡ [] }
    {
        Past { log: Log::new() }
    }

    /// Adds an item.
    pub fn note(&mut self, item: &A)
        ensures { self.new ≡ self.old ++ item.now ∷ [] }
    {
        self.log = self.log.and(item, &());
    }
}
