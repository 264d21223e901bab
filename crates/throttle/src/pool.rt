//! A pool of tokens.

ghost use Rattle.std.specs.Prelude.{◌≡◌, ◌<◌, ◌≤◌, ◌↔◌, [], ◌∷◌, ◌++◌, length, IsTrue, IsNone, IfSome, IfNone};

use std::marker::Model;

/// A fixed number of tokens; some are out. Contracts see the tokens in the pool, and
/// the number of all.
#[derive(Drop)]
pub struct Pool<T> {
    tokens: Vec<T>,
    size: usize,
}

impl<T> Model for Pool<T> {
    ghost use Rattle.std.specs.Prelude.{◌≤◌, length, vec_capacity};
    ghost use Rattle.throttle.specs.Stock.{Stock};

    ghost Value = { Stock T };

    ghost view = { λ p. record { home = p.tokens.items; size = p.size } };

    ghost invariant = { λ p. (length p.tokens.items ≤ p.size) × (p.size ≤ vec_capacity p.tokens) };
}

impl<T> Pool<T> {
    /// Returns a pool of these tokens; none is out. Does not allocate.
    pub fn new(tokens: Vec<T>) -> Pool<T>
        ensures { result ≡ record { home = tokens.items; size = length tokens.items } }
    {
        let size = tokens.len();
        Pool { tokens, size }
    }

    /// Takes a token out of the pool, or returns `None` if all are out. Constant time.
    pub fn take(&mut self) -> Option<T>
        ensures none { IsNone result ↔ (self.old.home ≡ []) }
        ensures some { IfSome result (λ t. self.old.home ≡ self.new.home ++ t ∷ []) }
        ensures unchanged { IfNone result (self.new ≡ self.old) }
        ensures size { self.new.size ≡ self.old.size }
    {
        self.tokens.pop()
    }

    /// Puts a token into the pool. At least one must be out. Constant time; does not allocate.
    pub fn give(&mut self, token: T)
        requires { length self.old.home < self.old.size }
        ensures { self.new ≡ record { home = self.old.home ++ token ∷ []; size = self.old.size } }
    {
        self.tokens.push_reserved(token);
    }

    /// Returns whether all tokens are out.
    pub fn is_empty(&self) -> bool
        ensures { IsTrue result ↔ (length self.now.home ≡ 0) }
    {
        self.tokens.is_empty()
    }

    /// Returns whether no token is out.
    pub fn is_full(&self) -> bool
        ensures { IsTrue result ↔ (length self.now.home ≡ self.now.size) }
    {
        self.tokens.len() == self.size
    }
}
