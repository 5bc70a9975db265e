//! A list that contracts see as a list.
ghost use Rattle.std.specs.Prelude.{◌≡◌, ◌==◌, List, [], length, IfOk};

use crate::copies::Copyable;
use std::alloc::{AllocError, Global};
use std::marker::Model;

/// A list of values, which contracts see as that list and nothing else.
#[derive(Debug, Drop)]
pub struct Sequence<T> {
    values: Vec<T>,
}

impl<T> Model for Sequence<T> {
    ghost Value = { List T };

    ghost view = { λ s. s.values.items };
}

impl<T> Sequence<T> {
    /// No values. Does not allocate.
    pub fn new(alloc: Global) -> Sequence<T>
        ensures { result ≡ [] }
    {
        Sequence {
            values: Vec::new(alloc),
        }
    }

    /// The values of a vector, in order. Does not allocate.
    pub fn from_vec(values: Vec<T>) -> Sequence<T>
        ensures { result ≡ values.items }
    {
        Sequence { values }
    }

    /// The vector of the values, in order. Does not allocate.
    pub fn into_vec(self) -> Vec<T>
        ensures { result.items ≡ self }
    {
        let Sequence { values } = self;
        values
    }

    /// The values in order.
    pub fn as_slice(&self) -> &[T]
        ensures { result.now ≡ self.now }
    {
        self.values.as_slice()
    }

    /// How many values there are.
    pub fn len(&self) -> usize
        ensures { result ≡ length self.now }
    {
        self.values.len()
    }

    /// Whether there is no value.
    pub fn is_empty(&self) -> bool
        ensures { result ≡ (length self.now == 0) }
    {
        self.values.is_empty()
    }
}

impl<T: Copyable> Sequence<T> {
    /// An equal list.
    pub fn copy(&self, alloc: Global) -> Result<Sequence<T>, AllocError>
        ensures { IfOk result (λ s. s ≡ self.now) }
    {
        let mut copies = Vec::with_capacity(alloc, self.len())?;
        for value in self.as_slice() {
            copies.push(value.copied(alloc)?)?;
        }
        Ok(Sequence::from_vec(copies))
    }
}

/// Two lists are equal where they have as many values and each equals the other's in its place.
impl<T: PartialEq> PartialEq for Sequence<T> {
    ghost use Rattle.std.specs.Cmp.Lexicographic.{pointwise, lists_per};

    ghost eq = { pointwise T.eq };

    ghost laws = { lists_per T.PartialEq.laws };

    fn eq(&self, other: &Sequence<T>) -> bool {
        self.as_slice() == other.as_slice()
    }
}

impl<T: Eq> Eq for Sequence<T> {
    ghost use Rattle.std.specs.Cmp.Lexicographic.{lists_equiv};

    ghost laws = { lists_equiv T.Eq.laws };
}
