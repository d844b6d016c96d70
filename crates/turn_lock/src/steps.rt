//! The rule of the lock's table, and what each atomic step tells its caller.
ghost use Rattle.turn_lock.specs.Rule.{Kept};
ghost use Rattle.turn_lock.specs.Steps.{newcomer, drawn, looked, counted, passed, settled, giving, given_seat, joining, spent};

use crate::counted::Counted;
use crate::view::View;
use atomic_table::{Join, Play, Split, TableRule};
use std::marker::PhantomData;

pub struct Rule<V> {
    of: PhantomData<V>,
}

impl<V: Counted> TableRule<Option<V>, View<V::Entry>, ()> for Rule<V> {
    ghost holds = { λ _. Kept V.history V.seat_of };

    ghost first = { λ _. newcomer };
}

pub(crate) struct Draw;

impl<S, E> Play<S, View<E>> for Draw {
    ghost then = { drawn };
}

pub(crate) struct Look<V> {
    of: PhantomData<V>,
}

impl<V: Counted> Play<Option<V>, View<V::Entry>> for Look<V> {
    ghost then = { looked V.history V.seat_of };
}

pub(crate) struct Count<V> {
    of: PhantomData<V>,
}

impl<V: Counted> Play<Option<V>, View<V::Entry>> for Count<V> {
    ghost then = { counted V.history };
}

pub(crate) struct PassTurn;

impl<S, E> Play<S, View<E>> for PassTurn {
    ghost then = { passed };
}

pub(crate) struct Settle<V> {
    of: PhantomData<V>,
}

impl<V: Counted> Play<Option<V>, View<V::Entry>> for Settle<V> {
    ghost then = { settled V.seat_of };
}

pub(crate) struct Give;

impl<E> Split<View<E>> for Give {
    ghost left = { giving };

    ghost right = { given_seat };
}

pub(crate) struct TakeIn;

impl<E> Join<View<E>> for TakeIn {
    ghost both = { joining };

    ghost spent = { spent };
}
