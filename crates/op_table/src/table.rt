//! Tables of operators, with search by symbol and by code.

ghost use Rattle.std.specs.Prelude.{◌≡◌, IfNone, IfSome};
ghost use Rattle.std.specs.Bool.{Decides};
ghost use Rattle.op_table.specs.Tables.{text_of, StartsWith, HasLongest, HasNoSymbol, HasCode, HasNoCode, IsLongestMatch, Outdoes};

/// An operator: the bytes of its symbol and how many of them count, 1 or 2; its level, where a
/// higher level binds more tightly; and its code.
#[derive(Clone, Copy)]
pub struct OpRow {
    pub symbol: [u8; 2],
    pub length: u8,
    pub level: u8,
    pub code: u8,
}

/// A table of operators.
#[derive(Clone, Copy)]
pub struct OpTable<const N: usize> {
    pub rows: [OpRow; N],
}

impl OpRow {
    /// Returns the bytes of the symbol.
    pub fn text(&self) -> &[u8]
        ensures { result.now ≡ text_of self.now }
    {
        &self.symbol[..usize::from(self.length.min(2))]
    }

    // Whether the bytes begin with the symbol.
    fn begins(&self, bytes: &[u8]) -> bool
        ensures { Decides result (StartsWith (text_of self.now) bytes.now) }
    {
        bytes.starts_with(self.text())
    }

    // Whether the symbol is longer than the symbol of another row, if there is one.
    fn outdoes(&self, other: Option<OpRow>) -> bool
        ensures { Decides result (Outdoes self.now other) }
    {
        match other {
            None => true,
            Some(row) => row.text().len() < self.text().len(),
        }
    }
}

impl<const N: usize> OpTable<N> {
    /// Returns the code of the longest symbol of the table that is a prefix of the bytes; `None` if
    /// no symbol is.
    pub fn find(&self, bytes: &[u8]) -> Option<u8>
        ensures some { IfSome result (λ code. HasLongest self.now.rows bytes.now code) }
        ensures none { IfNone result (HasNoSymbol self.now.rows bytes.now) }
    {
        self.longest(bytes).map(|row| row.code)
    }

    // The row with the longest symbol that is a prefix of the bytes.
    fn longest(&self, bytes: &[u8]) -> Option<OpRow>
        ensures some { IfSome result (λ row. IsLongestMatch self.now.rows bytes.now row) }
        ensures none { IfNone result (HasNoSymbol self.now.rows bytes.now) }
    {
        let mut best: Option<OpRow> = None;
        for row in self.rows {
            if row.begins(bytes) && row.outdoes(best) {
                best = Some(row);
            }
        }
        best
    }

    /// Returns a row that has the code; `None` if no row has it.
    pub fn row(&self, code: u8) -> Option<&OpRow>
        ensures some { IfSome result (λ row. HasCode self.now.rows code row.now) }
        ensures none { IfNone result (HasNoCode self.now.rows code) }
    {
        self.rows.iter().find(|row| row.code == code)
    }
}
