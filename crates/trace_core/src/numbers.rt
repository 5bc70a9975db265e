//! Short lists of the numbers of items.
ghost use Rattle.std.specs.Prelude.{◌≡◌, ◌++◌, ◌∷◌, [], OnOk, OnErr};

use smallvec::SmallVec;
use std::alloc::{AllocError, Global};
use std::marker::Model;

/// Numbers of items. Two lie in the value itself: most transformations have no more outputs.
#[derive(Debug)]
pub struct Numbers {
    numbers: SmallVec<usize, 2>,
}

impl Drop for Numbers {
    fn drop(self) {
        let Numbers { numbers: _ } = self;
    }
}

impl Model for Numbers {
    ghost use Rattle.std.specs.Prelude.{List, ℕ};

    ghost Value = { List ℕ };

    ghost view = { λ n. n.numbers.items };
}

impl Numbers {
    /// No number. Does not allocate.
    pub fn new(alloc: Global) -> Numbers
        ensures { result ≡ [] }
    {
        Numbers {
            numbers: SmallVec::new(alloc),
        }
    }

    /// Adds a number at the end. An `Err` changes nothing.
    pub fn push(&mut self, number: usize) -> Result<(), AllocError>
        ensures ok { OnOk result (self.new ≡ self.old ++ number ∷ []) }
        ensures err { OnErr result (self.new ≡ self.old) }
    {
        self.numbers.push(number)?;
        Ok(())
    }

    /// Makes room for `more` of them.
    pub fn reserve(&mut self, more: usize) -> Result<(), AllocError>
        ensures { self.new ≡ self.old }
    {
        self.numbers.reserve(more)?;
        Ok(())
    }

    /// The numbers in order.
    pub fn as_slice(&self) -> &[usize]
        ensures { result.now ≡ self.now }
    {
        self.numbers.as_slice()
    }
}
