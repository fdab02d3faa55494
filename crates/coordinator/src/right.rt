ghost use Rattle.std.specs.Prelude.{◌≡◌};

// The right to close one transaction: to ask for its commit, or for its roll-back. Opening gives it, and only asking spends it: it is neither copied nor dropped.
#[derive(Debug)]
pub struct ClosingRight {
    transaction: u32,
}

impl ClosingRight {
    // The right to close a transaction.
    pub(crate) fn new(transaction: u32) -> ClosingRight
        ensures { result.transaction ≡ transaction }
    {
        ClosingRight { transaction }
    }

    // Its transaction.
    pub fn transaction(&self) -> u32
        ensures { result ≡ self.now.transaction }
    {
        self.transaction
    }

    // Spends it.
    pub(crate) fn spend(self) {
        let ClosingRight { transaction: _ } = self;
    }
}
