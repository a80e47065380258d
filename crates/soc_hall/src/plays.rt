//! What each step on the table tells.
ghost use Rattle.soc_hall.specs.inner.Steps.{numbered, drew, looked, fronted, counted, passed, keeping, given, note_of, hearing, spent, compared, taking_in};

use crate::logged::Logged;
use crate::view::{Place, View};
use atomic_table::{Join, Play, Split};
use std::marker::PhantomData;

/// One part of the right to be a seat goes to a new one.
pub(crate) struct Part;

impl<B, X, C, P> Split<View<B, X, C, P>> for Part {
    ghost left = { keeping };

    ghost right = { given };
}

pub(crate) struct Number;

impl<T, B, X, C, P> Play<Place<T, C, P>, View<B, X, C, P>> for Number {
    ghost then = { numbered };
}

pub(crate) struct Draw;

impl<T, B, X, C, P> Play<Place<T, C, P>, View<B, X, C, P>> for Draw {
    ghost then = { drew };
}

pub(crate) struct Look<T> {
    of: PhantomData<T>,
}

impl<T: Logged> Play<
    Place<T, T::Command, T::Reply>,
    View<T::Basis, T::Change, T::Command, T::Reply>,
> for Look<T> {
    ghost then = { looked T.log_of T.basis_of };
}

pub(crate) struct Front;

impl<T, B, X, C, P> Play<Place<T, C, P>, View<B, X, C, P>> for Front {
    ghost then = { fronted };
}

pub(crate) struct Count<T> {
    of: PhantomData<T>,
}

impl<T: Logged> Play<
    Place<T, T::Command, T::Reply>,
    View<T::Basis, T::Change, T::Command, T::Reply>,
> for Count<T> {
    ghost then = { counted T.log_of };
}

pub(crate) struct Pass<T> {
    of: PhantomData<T>,
}

impl<T: Logged> Play<
    Place<T, T::Command, T::Reply>,
    View<T::Basis, T::Change, T::Command, T::Reply>,
> for Pass<T> {
    ghost then = { passed T.answers };
}

/// A note of what a seat has seen.
pub(crate) struct Note;

impl<B, X, C, P> Split<View<B, X, C, P>> for Note {
    ghost left = { λ v. v };

    ghost right = { note_of };
}

pub(crate) struct Hear;

impl<B, X, C, P> Join<View<B, X, C, P>> for Hear {
    ghost both = { hearing };

    ghost spent = { spent };
}

pub(crate) struct Compare<T> {
    of: PhantomData<T>,
}

impl<T: Logged> Play<
    Place<T, T::Command, T::Reply>,
    View<T::Basis, T::Change, T::Command, T::Reply>,
> for Compare<T> {
    ghost then = { compared T.answers };
}

pub(crate) struct TakeIn;

impl<B, X, C, P> Join<View<B, X, C, P>> for TakeIn {
    ghost both = { taking_in };

    ghost spent = { spent };
}
