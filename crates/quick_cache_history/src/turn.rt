//! Turns: each call of a history is made in one of its own.
ghost use Rattle.std.specs.Prelude.{◌≡◌};
ghost use Rattle.logbook.specs.Pages.{may_write};

use crate::law::Naming;
use logbook::Pen;
use std::marker::{Model, PhantomData};

/// The right to make one call, by which the call is known. Contracts see its number.
#[derive(Drop)]
pub(crate) struct Turn<J: Naming> {
    pub(crate) pen: Pen,
    of: PhantomData<J>,
}

impl<J: Naming> Model for Turn<J> {
    ghost use Rattle.std.specs.Prelude.{◌≡◌, ℕ};
    ghost use Rattle.logbook.specs.Pages.{may_write};

    ghost Value = { ℕ };

    ghost view = { λ turn. turn.pen.nib.key };

    ghost invariant = { λ turn. (turn.pen.nib.right ≡ may_write) × (turn.pen.book ≡ J.book) };
}

impl<J: Naming> Turn<J> {
    /// The turn of this pen.
    pub(crate) fn new(pen: Pen) -> Self
        requires right { pen.nib.right ≡ may_write }
        requires book { pen.book ≡ J.book }
        ensures { result ≡ pen.nib.key }
    {
        Turn {
            pen,
            of: PhantomData,
        }
    }

    /// Its pen.
    pub(crate) fn into_pen(self) -> Pen
        ensures right { result.nib.right ≡ may_write }
        ensures key { result.nib.key ≡ self }
        ensures book { result.book ≡ J.book }
    {
        let Turn { pen, of: _ } = self;
        pen
    }
}
