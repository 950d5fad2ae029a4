//! Lists that own their items, and that contracts see as these items in their order.

ghost use Rattle.std.specs.Prelude.{◌≡◌, ◌++◌, ◌∷◌, [], IfOk};

use crate::faults::Memory;
use crate::numbers::Pair;
use crate::texts::Text;
use std::alloc::Global;
use std::marker::Model;

/// The value of a column in a row.
#[derive(Clone, Debug, Drop)]
pub enum Value {
    Number(i64),
    Text(Text),
}

/// A list that owns its items. Contracts see it as the list of these items, and see a list of lists as such.
#[derive(Clone, Debug, Drop)]
pub struct Listed<T> {
    items: Vec<T>,
}

impl<T> Model for Listed<T> {
    ghost use Rattle.std.specs.Prelude.{List};

    ghost Value = { List T };

    ghost view = { λ l. l.items.items };
}

impl<T> Listed<T> {
    /// The list without items. It takes no memory.
    pub fn empty(alloc: Global) -> Listed<T>
        ensures { result ≡ [] }
    {
        Listed {
            items: Vec::new(alloc),
        }
    }

    /// The same list, without a copy.
    pub fn of(items: Vec<T>) -> Listed<T>
        ensures { result ≡ items.items }
    {
        Listed { items }
    }

    /// The same list, without a copy.
    pub fn into_vec(self) -> Vec<T>
        ensures { result.items ≡ self }
    {
        self.items
    }

    pub fn as_slice(&self) -> &[T]
        ensures { result.now ≡ self.now }
    {
        self.items.as_slice()
    }
}

impl<T: Drop> Listed<T> {
    /// The list with one item more at its end.
    pub fn with(self, item: T) -> Result<Listed<T>, Memory>
        ensures { IfOk result (λ more. more ≡ self ++ item ∷ []) }
    {
        let mut items = self.items;
        match items.push(item) {
            Ok(()) => Ok(Listed { items }),
            Err(_) => Err(Memory),
        }
    }
}

/// A list of bytes.
pub type Bytes = Listed<u8>;

/// A list of numbers.
pub type Numbers = Listed<u64>;

/// A list of pairs of word positions.
pub type Pairs = Listed<Pair>;

/// A list of values, as those of a row.
pub type Values = Listed<Value>;
