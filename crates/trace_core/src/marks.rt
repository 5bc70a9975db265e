//! Sets of numbers: an ordered set of few, or a mark for each of all.
ghost use Rattle.std.specs.Prelude.{◌≡◌, ◌<◌, ◌⊎◌, ◌↔◌, ℕ, true, false, [], IfOk, IfSome, OnOk, OnErr, IsTrue, Contains, length};
ghost use Rattle.trace_core.specs.Marks.{is_set};

use std::alloc::{AllocError, Global};
use std::collections::BTreeSet;
use std::marker::Model;

/// A set of numbers, each below a count of all. Few stand in an ordered set. Once one in 64 of all is there,
/// each of all has a mark, so that a look-up takes one step; these marks cost no more than 64 bytes for each
/// number that is there then.
#[derive(Debug, Drop)]
pub struct Marks {
    few: BTreeSet<usize>,
    many: Vec<bool>,
}

impl Model for Marks {
    ghost use Rattle.std.specs.Prelude.{List, ℕ, ◌++◌};
    ghost use Rattle.trace_core.specs.Marks.{set_marks, AreSet};

    ghost Value = { List ℕ };

    ghost view = { λ m. set_marks m.many.items ++ m.few.keys };

    ghost invariant = { λ m. AreSet m.many.items m.few.keys };
}

impl Marks {
    /// No numbers. Does not allocate.
    pub fn new(alloc: Global) -> Marks
        ensures { result ≡ [] }
    {
        Marks {
            few: BTreeSet::new(alloc),
            many: Vec::new(alloc),
        }
    }

    /// Whether a number is marked.
    pub fn has(&self, number: usize) -> bool
        ensures { IsTrue result ↔ Contains self.now number }
    {
        if number < self.many.len() {
            return self.many[number];
        }
        self.few.contains(&number)
    }

    /// The numbers, where they are few.
    pub fn few(&self) -> Option<&BTreeSet<usize>>
        ensures { IfSome result (λ few. (n : ℕ) → Contains few.now.keys n ↔ Contains self.now n) }
    {
        if self.many.is_empty() {
            Some(&self.few)
        } else {
            None
        }
    }

    /// Marks a number, of `all` that there are, and returns whether it is new. An `Err` changes nothing.
    pub fn mark(&mut self, alloc: Global, number: usize, all: usize) -> Result<bool, AllocError>
        ensures marked { OnOk result ((n : ℕ) → Contains self.new n
            ↔ (Contains self.old n ⊎ (number ≡ n))) }
        ensures new { IfOk result (λ new. new ≡ false ↔ Contains self.old number) }
        ensures err { OnErr result ((n : ℕ) → Contains self.new n ↔ Contains self.old n) }
    {
        self.give_marks(alloc, number, all)?;
        self.set(number)
    }

    /// Before a number is marked: gives each of so many numbers a mark, once one in 64 of them is there. An
    /// `Err` changes nothing.
    fn give_marks(&mut self, alloc: Global, number: usize, all: usize) -> Result<(), AllocError>
        ensures { (n : ℕ) → Contains self.new n ↔ Contains self.old n }
    {
        if 0 < self.many.len() {
            return Ok(());
        }
        if all <= number || self.few.len() < all / 64 {
            return Ok(());
        }
        self.many = marks_of_set(alloc, all, &self.few)?;
        Ok(())
    }

    /// Marks a number. Tells whether it is new. An `Err` changes nothing.
    fn set(&mut self, number: usize) -> Result<bool, AllocError>
        ensures marked { OnOk result ((n : ℕ) → Contains self.new n
            ↔ (Contains self.old n ⊎ (number ≡ n))) }
        ensures new { IfOk result (λ new. new ≡ false ↔ Contains self.old number) }
        ensures err { OnErr result ((n : ℕ) → Contains self.new n ↔ Contains self.old n) }
    {
        if number < self.many.len() {
            let new = !self.many[number];
            self.many[number] = true;
            return Ok(new);
        }
        Ok(self.few.insert(number)?)
    }
}

/// So many marks, of which those at the numbers of a set are set.
fn marks_of_set(
    alloc: Global,
    len: usize,
    numbers: &BTreeSet<usize>,
) -> Result<Vec<bool>, AllocError>
    ensures len { IfOk result (λ marks. length marks.items ≡ len) }
    ensures set { IfOk result (λ marks. (n : ℕ) → is_set marks.items n ≡ true
        ↔ ((n < len) × Contains numbers.now.keys n)) }
{
    let mut marks = vec![in alloc; false; len]?;
    for number in numbers {
        set_mark(&mut marks, *number);
    }
    Ok(marks)
}

/// Sets the mark at a number, if there is one.
fn set_mark(marks: &mut [bool], number: usize)
    ensures count { length marks.new ≡ length marks.old }
    ensures set { (n : ℕ) → is_set marks.new n ≡ true
        ↔ ((is_set marks.old n ≡ true) ⊎ ((n < length marks.old) × (number ≡ n))) }
{
    if number < marks.len() {
        marks[number] = true;
    }
}
