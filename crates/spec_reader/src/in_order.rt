ghost use Rattle.std.specs.Prelude.{◌≡◌, length, slice_get, option_copied};

use std::marker::Model;

/// Values in the order of the text, seen as their list.
#[derive(Debug, Drop)]
pub struct InOrder<T> {
    items: Vec<T>,
}

impl<T> Model for InOrder<T> {
    ghost use Rattle.std.specs.Prelude.{List};

    ghost Value = { List T };

    ghost view = { λ l. l.items.items };
}

impl<T> InOrder<T> {
    pub(crate) fn from_vec(items: Vec<T>) -> Self
        ensures { result ≡ items.items }
    {
        InOrder { items }
    }

    pub(crate) fn into_vec(self) -> Vec<T>
        ensures { result.items ≡ self }
    {
        self.items
    }

    pub fn as_slice(&self) -> &[T]
        ensures { result.now ≡ self.now }
    {
        &self.items
    }

    pub fn len(&self) -> usize
        ensures { result ≡ length self.now }
    {
        self.items.len()
    }

    /// The value at a place, or none past the end.
    pub fn at(&self, place: usize) -> Option<&T>
        ensures { option_copied result ≡ slice_get self.now place }
    {
        self.items.get(place)
    }
}
