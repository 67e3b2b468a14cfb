//! A vector that contracts see as the list of its items.
ghost use Rattle.std.specs.Borrow.{sem};
ghost use Rattle.gu_types.specs.Lends.{lends_slice};
ghost use Rattle.std.specs.Prelude.{◌≡◌, [], ◌∷◌, ◌++◌, ◌<◌, length, take, MatchOption, OnOk, OnErr};
ghost use Rattle.std.specs.List.{AllZip};
ghost use Rattle.std.specs.Cmp.Lexicographic.{pointwise, lists_equiv, lists_per};
ghost use Rattle.std.specs.Hash as fed;
ghost use Rattle.std.specs.Hash.{items_Alike};

use std::alloc::{AllocError, Global};
use std::hash::{Hash, Hasher};
use std::marker::Model;

/// A vector that contracts see as the list of its items, in order. It keeps its allocator.
#[derive(Debug, Drop)]
pub struct List<T> {
    items: Vec<T>,
}

impl<T> Model for List<T> {
    ghost use Rattle.std.specs.Prelude.{List};
    ghost use Rattle.std.specs.Coded.{coded_list};

    ghost Value = { List T };

    ghost coded = { coded_list T.code };

    ghost view = { λ list. list.items.items };
}

impl<T> List<T> {
    /// The list without items. It takes no memory.
    pub fn new(alloc: Global) -> List<T>
        ensures { result ≡ [] }
    {
        List {
            items: Vec::new(alloc),
        }
    }

    /// The items of the vector, in order. It takes no memory.
    pub fn from_vec(v: Vec<T>) -> List<T>
        ensures { result ≡ v.items }
    {
        List { items: v }
    }

    /// The items as a vector, in order. It takes no memory.
    pub fn into_vec(self) -> Vec<T>
        ensures { result.items ≡ self }
    {
        let List { items } = self;
        items
    }

    /// Takes the last item off. `None` exactly where the list is empty, which it then stays.
    pub fn pop(&mut self) -> Option<T>
        ensures { MatchOption result ((self.old ≡ []) × (self.new ≡ [])) (λ last. self.old ≡ self.new ++ last ∷ []) }
    {
        self.items.pop()
    }

    /// The items, in order.
    pub fn as_slice(&self) -> &[T]
        ensures { result.now ≡ self.now }
    {
        self.items.as_slice()
    }

    /// The items, in order, to be changed in place. Their number stays.
    pub fn as_mut_slice(&mut self) -> &mut [T]
        ensures* writes_back { sem 𝓛 (lends_slice T.row self.entry result) }
        ensures value { result.now ≡ self.old }
    {
        self.items.as_mut_slice()
    }
}

impl<T: Drop> List<T> {
    /// Puts an item at the end. `AllocError` only where memory is refused: the item is then
    /// dropped, and the list is as it was.
    pub fn push(&mut self, x: T) -> Result<(), AllocError>
        ensures ok { OnOk result (self.new ≡ self.old ++ x ∷ []) }
        ensures err { OnErr result (self.new ≡ self.old) }
    {
        self.items.push(x)?;
        Ok(())
    }

    /// Keeps the first `n` items, or all where there are no more than that.
    pub fn truncate(&mut self, n: usize)
        ensures { self.new ≡ take n self.old }
    {
        self.items.truncate(n);
    }
}

impl<T: Clone + Drop> Clone for List<T> {
    ghost is_clone = { AllZip T.is_clone };

    fn clone(&self) -> Result<Self, AllocError> {
        let items = self.items.clone()?;
        Ok(List { items })
    }
}

impl<T: PartialEq> PartialEq for List<T> {
    ghost eq = { λ x y. pointwise T.eq x y };

    ghost laws = { lists_per T.laws };

    fn eq(&self, other: &Self) -> bool {
        self.items == other.items
    }
}

impl<T: Eq> Eq for List<T> {
    ghost laws = { lists_equiv T.Eq.laws };
}

impl<T: Hash> Hash for List<T> {
    ghost hash_input = { fed.slice T.hash_input };

    ghost respects_eq = { (items_Alike (record { fed = T.respects_eq })).fed };

    fn hash<H: Hasher>(&self, state: &mut H) {
        self.items.hash(state);
    }
}

#[cfg(test)]
mod tests {
    use super::*;
    use std::test::Fail;

    #[test]
    fn grows_and_shrinks_as_a_vector(rt: HostRuntime) -> Result<(), Fail> {
        let mut list = List::new(rt.alloc());
        list.push(3u32)?;
        list.push(5)?;
        list.push(8)?;
        list.truncate(2);
        assert_eq!(rt; list.as_slice(), [3, 5].as_slice());
        for item in list.as_mut_slice() {
            *item ^= 1;
        }
        let copy = list.clone()?;
        assert_eq!(rt; copy == list, true);
        assert_eq!(rt; list.pop(), Some(4));
        assert_eq!(rt; copy == list, false);
        assert_eq!(rt; List::from_vec(list.into_vec()).as_slice(), [2].as_slice());
        Ok(())
    }
}
