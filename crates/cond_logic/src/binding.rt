ghost use Rattle.std.specs.Prelude.{◌≡◌};
ghost use Rattle.cond_logic.specs.Tuples.{no_rows, put, place, lent};

use pg_values::{Row, Value};
use std::marker::Model;

/// The rows of a tuple and the arguments of its statement, lent. There are four places for rows, one
/// for each FROM item, seen with the arguments as a record.
#[derive(Debug, Drop)]
pub struct Binding<'a> {
    args: &'a [Value],
    first: Option<&'a Row>,
    second: Option<&'a Row>,
    third: Option<&'a Row>,
    fourth: Option<&'a Row>,
}

impl<'a> Model for Binding<'a> {
    ghost use Rattle.cond_logic.specs.Tuples.{Bound, lent};

    ghost Value = { Bound };

    ghost view = { λ b. record { args = b.args.now; rows = record { first = lent b.first; second = lent b.second; third = lent b.third; fourth = lent b.fourth } } };
}

impl<'a> Binding<'a> {
    /// These arguments and no rows.
    pub fn new(args: &'a [Value]) -> Binding<'a>
        ensures args { result.args ≡ args.now }
        ensures rows { result.rows ≡ no_rows }
    {
        Binding {
            args,
            first: None,
            second: None,
            third: None,
            fourth: None,
        }
    }

    /// The same binding with the row in the place of that item. There is no place past the fourth.
    #[inline]
    pub fn with(self, item: u32, row: &'a Row) -> Binding<'a>
        ensures args { result.args ≡ self.entry.args }
        ensures rows { result.rows ≡ put self.entry.rows item row.now }
    {
        let mut bound = self;
        match item {
            0 => bound.first = Some(row),
            1 => bound.second = Some(row),
            2 => bound.third = Some(row),
            3 => bound.fourth = Some(row),
            _ => {}
        }
        bound
    }

    /// The row takes the place of that item. There is no place past the fourth.
    #[inline]
    pub fn put(&mut self, item: u32, row: &'a Row)
        ensures args { self.new.args ≡ self.old.args }
        ensures rows { self.new.rows ≡ put self.old.rows item row.now }
    {
        match item {
            0 => self.first = Some(row),
            1 => self.second = Some(row),
            2 => self.third = Some(row),
            3 => self.fourth = Some(row),
            _ => {}
        }
    }

    /// The same binding once more.
    #[inline]
    pub fn again(&self) -> Binding<'a>
        ensures args { result.args ≡ self.now.args }
        ensures rows { result.rows ≡ self.now.rows }
    {
        Binding {
            args: self.args,
            first: self.first,
            second: self.second,
            third: self.third,
            fourth: self.fourth,
        }
    }

    /// The row in the place of that item.
    #[inline]
    pub fn row(&self, item: u32) -> Option<&'a Row>
        ensures { lent result ≡ place self.now.rows item }
    {
        match item {
            0 => self.first,
            1 => self.second,
            2 => self.third,
            3 => self.fourth,
            _ => None,
        }
    }

    #[inline]
    pub fn args(&self) -> &'a [Value]
        ensures { result.now ≡ self.now.args }
    {
        self.args
    }
}
