//! What events put into items, by the numbers of both.
ghost use Rattle.std.specs.Prelude.{◌≡◌, ◌==◌, ◌++◌, ◌-◌, [], ℕ, cond, IsTrue, OnOk, OnErr, length, take};
ghost use Rattle.trace_core.specs.PutIn.{children_in, put_at, cut_at};

use std::alloc::{AllocError, Global};
use std::collections::BTreeMap;

/// By the number of an item the numbers of what was put into it, in the order in which that was noted.
#[derive(Debug, Drop)]
pub struct Packed {
    /// By parent: its children.
    pub children: BTreeMap<usize, Vec<usize>>,
}

impl Packed {
    /// Nothing is put into anything. Does not allocate.
    pub fn new(alloc: Global) -> Packed
        ensures { (n : ℕ) → children_in result n ≡ [] }
    {
        Packed {
            children: BTreeMap::new(alloc),
        }
    }

    /// What was put into the item of a number.
    pub fn children_of(&self, number: usize) -> &[usize]
        ensures { result.now ≡ children_in self.now number }
    {
        match self.children.get(&number) {
            Some(children) => children.as_slice(),
            None => &[],
        }
    }

    /// Notes that these were put into a parent, if there is one. An `Err` changes nothing that can be looked up.
    pub fn note(
        &mut self,
        alloc: Global,
        parent: Option<usize>,
        children: &[usize],
    ) -> Result<(), AllocError>
        ensures ok { OnOk result ((n : ℕ)
            → children_in self.new n ≡ children_in self.old n ++ put_at parent children.now n) }
        ensures err { OnErr result ((n : ℕ) → children_in self.new n ≡ children_in self.old n) }
    {
        match parent {
            Some(number) if !children.is_empty() => self.note_at(alloc, number, children),
            _ => Ok(()),
        }
    }

    /// Notes that these were put into the item of a number. An `Err` changes nothing that can be looked up.
    fn note_at(
        &mut self,
        alloc: Global,
        number: usize,
        children: &[usize],
    ) -> Result<(), AllocError>
        ensures ok { OnOk result ((n : ℕ) → children_in self.new n ≡ children_in self.old n ++ cond
            (number == n) children.now []) }
        ensures err { OnErr result ((n : ℕ) → children_in self.new n ≡ children_in self.old n) }
    {
        if let Some(own) = self.children.get_mut(&number) {
            return own.extend_from_slice(children);
        }
        let own = children.to_vec(alloc)?;
        self.children.insert(number, own)?;
        Ok(())
    }

    /// Takes away the last `count` that were put into a parent, if there is one. Does not allocate.
    pub fn forget(&mut self, parent: Option<usize>, count: usize)
        ensures { (n : ℕ) → children_in self.new n
            ≡ take (length (children_in self.old n) - cut_at parent count n)
            (children_in self.old n) }
    {
        if let Some(number) = parent {
            self.forget_at(number, count);
        }
    }

    /// Takes away the last so many that were put into the item of a number, and the item with the last of all. Does
    /// not allocate.
    fn forget_at(&mut self, number: usize, count: usize)
        ensures { (n : ℕ) → children_in self.new n
            ≡ take (length (children_in self.old n) - cond (number == n) count 0)
            (children_in self.old n) }
    {
        if self.cut(number, count) {
            self.children.remove(&number);
        }
    }

    /// Takes away the last so many that were put into the item of a number, and returns whether none is left. Does
    /// not allocate.
    fn cut(&mut self, number: usize, count: usize) -> bool
        ensures cut { (n : ℕ) → children_in self.new n
            ≡ take (length (children_in self.old n) - cond (number == n) count 0)
            (children_in self.old n) }
        ensures emptied { IsTrue result → children_in self.new number ≡ [] }
    {
        match self.children.get_mut(&number) {
            Some(own) => {
                own.truncate(own.len().saturating_sub(count));
                own.is_empty()
            }
            None => false,
        }
    }
}
