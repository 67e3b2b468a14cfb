//! A vector that keeps a single item in place.
ghost use Rattle.gu_types.specs.Short.{items_of, IsMany};
ghost use Rattle.std.specs.Prelude.{◌≡◌, [], ◌∷◌, ◌++◌, MatchOption, OnOk, OnErr};
ghost use Rattle.std.specs.List.{AllZip};
ghost use Rattle.std.specs.Cmp.Lexicographic.{pointwise, lists_equiv, lists_per};
ghost use Rattle.std.specs.Hash as fed;
ghost use Rattle.std.specs.Hash.{items_Alike};

use std::alloc::{AllocError, Global};
use std::hash::{Hash, Hasher};
use std::marker::Model;
use std::mem;

/// A vector that contracts see as the list of its items, in order. It keeps its allocator. A list
/// with one item may hold it in place, without memory of its own.
#[derive(Debug, Drop)]
pub struct ShortList<T> {
    items: Items<T>,
}

/// How the items of a short list are held.
#[derive(Debug, Drop)]
enum Items<T> {
    /// A single item, in place, and what memory for more comes from.
    One([T; 1], Global),
    /// Any number of items.
    Many(Vec<T>),
}

impl<T> Model for ShortList<T> {
    ghost use Rattle.std.specs.Prelude.{List};
    ghost use Rattle.std.specs.Coded.{coded_list};
    ghost use Rattle.gu_types.specs.Short.{items_of};

    ghost Value = { List T };

    ghost coded = { coded_list T.code };

    ghost view = { λ list. items_of list.items };
}

impl<T> ShortList<T> {
    /// The list without items. It takes no memory.
    pub fn new(alloc: Global) -> ShortList<T>
        ensures { result ≡ [] }
    {
        ShortList::from_vec(Vec::new(alloc))
    }

    /// The list of one item. It takes no memory.
    pub fn one(alloc: Global, item: T) -> ShortList<T>
        ensures { result ≡ item ∷ [] }
    {
        ShortList {
            items: Items::One([item], alloc),
        }
    }

    /// The items of the vector, in order. It takes no memory.
    pub fn from_vec(v: Vec<T>) -> ShortList<T>
        ensures { result ≡ v.items }
    {
        ShortList {
            items: Items::Many(v),
        }
    }

    /// The items, in order.
    pub fn as_slice(&self) -> &[T]
        ensures { result.now ≡ self.now }
    {
        match &self.items {
            Items::One(item, _) => item.as_slice(),
            Items::Many(items) => items.as_slice(),
        }
    }
}

impl<T: Drop> Items<T> {
    /// The item that is held in place, where one is.
    fn into_single(self) -> Option<T>
        ensures { MatchOption result (IsMany self) (λ item. items_of self ≡ item ∷ []) }
    {
        match self {
            Items::One([item], _alloc) => Some(item),
            Items::Many(_items) => None,
        }
    }
}

impl<T: Drop> ShortList<T> {
    /// Puts an item at the end. `AllocError` only where memory is refused: the item is then
    /// dropped, and the list is as it was.
    pub fn push(&mut self, x: T) -> Result<(), AllocError>
        ensures ok { OnOk result (self.new ≡ self.old ++ x ∷ []) }
        ensures err { OnErr result (self.new ≡ self.old) }
    {
        match &mut self.items {
            Items::Many(items) => {
                if items.capacity() == 0 {
                    let alloc = *items.allocator();
                    self.items = Items::One([x], alloc);
                    return Ok(());
                }
                items.push(x)?;
                Ok(())
            }
            Items::One(_, alloc) => {
                let mut both = Vec::with_capacity(*alloc, 2)?;
                let none = Items::Many(Vec::new(*alloc));
                if let Some(first) = mem::replace(&mut self.items, none).into_single() {
                    both.push_reserved(first);
                }
                both.push_reserved(x);
                self.items = Items::Many(both);
                Ok(())
            }
        }
    }

    /// Takes the last item off. `None` exactly where the list is empty, which it then stays.
    pub fn pop(&mut self) -> Option<T>
        ensures { MatchOption result ((self.old ≡ []) × (self.new ≡ [])) (λ last. self.old ≡ self.new ++ last ∷ []) }
    {
        match &mut self.items {
            Items::Many(items) => items.pop(),
            Items::One(_, alloc) => {
                let none = Items::Many(Vec::new(*alloc));
                mem::replace(&mut self.items, none).into_single()
            }
        }
    }
}

impl<T: Clone + Drop> Clone for ShortList<T> {
    ghost is_clone = { AllZip T.is_clone };

    fn clone(&self) -> Result<Self, AllocError> {
        match &self.items {
            Items::One([item], alloc) => Ok(ShortList::one(*alloc, item.clone()?)),
            Items::Many(items) => Ok(ShortList::from_vec(items.clone()?)),
        }
    }
}

impl<T: PartialEq> PartialEq for ShortList<T> {
    ghost eq = { λ x y. pointwise T.eq x y };

    ghost laws = { lists_per T.laws };

    fn eq(&self, other: &Self) -> bool {
        self.as_slice() == other.as_slice()
    }
}

impl<T: Eq> Eq for ShortList<T> {
    ghost laws = { lists_equiv T.Eq.laws };
}

impl<T: Hash> Hash for ShortList<T> {
    ghost hash_input = { fed.slice T.hash_input };

    ghost respects_eq = { (items_Alike (record { fed = T.respects_eq })).fed };

    fn hash<H: Hasher>(&self, state: &mut H) {
        self.as_slice().hash(state);
    }
}

#[cfg(test)]
mod tests {
    use super::*;
    use std::test::Fail;

    #[test]
    fn grows_from_none_over_one_to_many(rt: HostRuntime) -> Result<(), Fail> {
        let mut list = ShortList::new(rt.alloc());
        assert_eq!(rt; list.pop(), None);
        list.push(3u32)?;
        assert_eq!(rt; list == ShortList::one(rt.alloc(), 3), true);
        list.push(5)?;
        list.push(8)?;
        assert_eq!(rt; list.as_slice(), [3, 5, 8].as_slice());
        let copy = list.clone()?;
        assert_eq!(rt; copy == list, true);
        assert_eq!(rt; list.pop(), Some(8));
        assert_eq!(rt; copy == list, false);
        let mut one = ShortList::one(rt.alloc(), 1u32).clone()?;
        assert_eq!(rt; one.pop(), Some(1));
        assert_eq!(rt; one.as_slice(), [].as_slice());
        Ok(())
    }
}
