ghost use Rattle.std.specs.Prelude.{◌≡◌, ◌≤◌, ◌<◌, ◌^◌, ◌==◌, List, [], ◌∷◌, ◌++◌, length, take, slice_get, OnOk, OnErr};

use crate::answer::NoMemory;
use crate::geometry::{Point, Rect};
use crate::pixel::{Pixel, Rgb};
use std::alloc::Global;
use std::marker::Model;

/// A list of items that grows at its end. Contracts see the list.
#[derive(Debug, Drop)]
pub struct Items<T> {
    items: Vec<T>,
}

/// Bytes, as of a message.
pub type Bytes = Items<u8>;

/// Pixels, row by row where they have an area.
pub type Pixels = Items<Pixel>;

/// Colours without alpha.
pub type Rgbs = Items<Rgb>;

/// Rectangles, in the order of a message.
pub type Rects = Items<Rect>;

/// Places, in the order of a message.
pub type Points = Items<Point>;

impl<T> Model for Items<T> {
    ghost Value = { List T };

    ghost view = { λ a. a.items.items };
}

impl<T: Copy> Items<T> {
    /// No items. It takes no memory.
    pub fn new(alloc: Global) -> Self
        ensures { result ≡ [] }
    {
        Items {
            items: Vec::new(alloc),
        }
    }

    /// The items of a vector, which it takes over.
    pub fn from_vec(items: Vec<T>) -> Self
        ensures { result ≡ items.items }
    {
        Items { items }
    }

    /// Puts an item at the end.
    pub fn push(&mut self, item: T) -> Result<(), NoMemory>
        ensures ok { OnOk result (self.new ≡ self.old ++ item ∷ []) }
        ensures err { OnErr result (self.new ≡ self.old) }
    {
        self.items.push(item)?;
        Ok(())
    }

    pub fn len(&self) -> usize
        ensures { result ≡ length self.now }
    {
        self.items.len()
    }

    pub fn is_empty(&self) -> bool
        ensures { result ≡ (length self.now == 0) }
    {
        self.items.is_empty()
    }

    /// The item at a place, counted from 0, if there is one.
    pub fn get(&self, at: usize) -> Option<T>
        ensures { result ≡ slice_get self.now at }
    {
        self.items.get(at).copied()
    }

    pub fn as_slice(&self) -> &[T]
        ensures { result.now ≡ self.now }
    {
        self.items.as_slice()
    }

    /// Puts all of these items at the end, or none of them.
    pub fn append(&mut self, items: &[T]) -> Result<(), NoMemory>
        ensures ok { OnOk result (self.new ≡ self.old ++ items.now) }
        ensures err { OnErr result (self.new ≡ self.old) }
    {
        self.items.extend_from_slice(items)?;
        Ok(())
    }
}

impl<T: Copy + Drop> Items<T> {
    /// Lets go of the items from this place on.
    pub fn truncate(&mut self, len: usize)
        requires { len ≤ length self.old }
        ensures { self.new ≡ take len self.old }
    {
        self.items.truncate(len);
    }
}
