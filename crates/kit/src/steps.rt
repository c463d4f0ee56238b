//! A count of steps that costs nothing.
ghost use Rattle.std.specs.Prelude.{◌≡◌, ℕ, ◌+◌, ◌<◌};

use std::marker::Model;
use std::sync::ledger::{Blank, Book, Ledger, Share};

/// How many steps were taken since `open`, as a number of any size that only contracts see: the value
/// takes no bytes when the program runs. Nothing but `tick` changes it, so a clause that bounds its
/// growth bounds the work that was done.
#[derive(Drop)]
pub struct Steps<L: Ledger> {
    book: Book<L>,
    share: Share<L>,
}

impl<L: Ledger> Model for Steps<L> {
    ghost Value = { ℕ };

    ghost view = { λ s. s.book.total };

    ghost invariant = { λ s. 0 < s.share.parts };
}

impl<L: Ledger> Steps<L> {
    /// A count that begins at 0. Takes a blank of the ledger `L`, whole and not used before. Where nothing
    /// is counted, a caller passes `Brand` for `L` and `Blank::new(1)` to a function that opens it.
    pub fn open(blank: Blank) -> Self
        requires name { blank.name ≡ L.name }
        requires whole { blank.parts ≡ L.parts }
        requires some { 0 < blank.parts }
        ensures { result ≡ 0 }
    {
        let (book, share) = blank.open::<L>();
        Steps { book, share }
    }

    /// Takes one step.
    pub fn tick(&mut self)
        ensures { self.new ≡ self.old + 1 }
    {
        self.book.add(&mut self.share, 1);
    }
}
