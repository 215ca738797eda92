ghost use Rattle.std.specs.Prelude.{◌≡◌, ◌==◌, ◌≤◌, [], ◌∷◌, ◌++◌, length, OnOk, OnErr, IfOk};
ghost use Rattle.weld_data.specs.Kept.{kept_items, AreKept};

use std::alloc::{AllocError, Global};
use std::marker::Model;

/// How many numbers are kept in place: as many as leave a value no larger.
const FEW: usize = 30;

/// A list of numbers of kind i8, as the bytes of a string are. Few of them, as most strings have, take no memory of their own.
/// Contracts see the list of the numbers.
#[derive(Debug, Drop)]
pub struct I8s {
    items: Kept,
}

/// Some in place, or a vector.
#[derive(Debug, Drop)]
enum Kept {
    Few(Few),
    Many(Vec<i8>),
}

/// So many of these.
#[derive(Debug, Drop)]
struct Few {
    count: u8,
    items: [i8; FEW],
}

impl Model for I8s {
    ghost use Rattle.std.specs.Prelude.{List, ℤ};
    ghost use Rattle.weld_data.specs.Kept.{kept_items, AreKept};

    ghost Value = { List ℤ };

    ghost view = { λ l. kept_items l.items };

    ghost invariant = { λ l. AreKept l.items };
}

impl I8s {
    /// The list without numbers. It takes no memory.
    pub fn new() -> I8s
        ensures { result ≡ [] }
    {
        I8s {
            items: Kept::Few(Few {
                count: 0,
                items: [0i8; FEW],
            }),
        }
    }

    /// The list without numbers, with room for so many.
    pub fn with_capacity(alloc: Global, count: usize) -> Result<I8s, AllocError>
        ensures { IfOk result (λ list. list ≡ []) }
    {
        if count <= FEW {
            return Ok(I8s::new());
        }
        Ok(I8s::from_vec(Vec::with_capacity(alloc, count)?))
    }

    /// The list of these numbers, which it keeps. It takes no memory.
    pub fn from_vec(items: Vec<i8>) -> I8s
        ensures { result ≡ items.items }
    {
        I8s {
            items: Kept::Many(items),
        }
    }

    /// The list of a copy of these numbers.
    pub fn copy_of(alloc: Global, items: &[i8]) -> Result<I8s, AllocError>
        ensures { IfOk result (λ list. list ≡ items.now) }
    {
        if items.len() <= FEW {
            Ok(I8s {
                items: put_in_place(items),
            })
        } else {
            Ok(I8s {
                items: Kept::Many(Vec::from_slice(alloc, items)?),
            })
        }
    }

    /// The numbers.
    pub fn as_slice(&self) -> &[i8]
        ensures { result.now ≡ self.now }
    {
        match &self.items {
            Kept::Few(few) => &few.items[..usize::from(few.count)],
            Kept::Many(items) => items.as_slice(),
        }
    }

    /// How many numbers there are.
    pub fn len(&self) -> usize
        ensures { result ≡ length self.now }
    {
        self.as_slice().len()
    }

    /// Whether there is no number.
    pub fn is_empty(&self) -> bool
        ensures { result ≡ (length self.now == 0) }
    {
        self.as_slice().is_empty()
    }

    /// Appends a number. Where memory is wanting, the list stays as it was.
    pub fn push(&mut self, alloc: Global, item: i8) -> Result<(), AllocError>
        ensures ok { OnOk result (self.new ≡ self.old ++ item ∷ []) }
        ensures err { OnErr result (self.new ≡ self.old) }
    {
        match &mut self.items {
            Kept::Many(items) => {
                items.push(item)?;
                Ok(())
            }
            Kept::Few(few) => {
                if usize::from(few.count) < FEW {
                    few.items[usize::from(few.count)] = item;
                    few.count += 1;
                    return Ok(());
                }
                let mut many = Vec::with_capacity(alloc, 2 * FEW)?;
                many.extend_from_slice(few.items.as_slice())?;
                many.push(item)?;
                self.items = Kept::Many(many);
                Ok(())
            }
        }
    }
}

/// These numbers, kept in place.
fn put_in_place(items: &[i8]) -> Kept
    requires { length items.now ≤ 30 }
    ensures items { kept_items result ≡ items.now }
    ensures kept { AreKept result }
{
    let mut kept = [0i8; FEW];
    kept[..items.len()].copy_from_slice(items);
    Kept::Few(Few {
        count: items.len() as u8,
        items: kept,
    })
}
