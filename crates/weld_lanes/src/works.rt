//! Operators on the numbers of lanes: one loop for each operator and kind, in which nothing is asked.

ghost use Rattle.std.specs.Prelude.{◌≡◌, ◌<◌, ℕ, ℤ, ◌+ℤ◌, ◌-ℤ◌, ◌*ℤ◌, int_lt, int_le, not, ◌&&◌, ◌||◌, if◌then◌else◌, length, map};
ghost use Rattle.std.specs.Int.{int_min, int_max};
ghost use Rattle.std.specs.List.{fold};
ghost use Rattle.std.specs.Ordering.{int_eq};
ghost use Rattle.weld_data.specs.Operation.{truth};
ghost use Rattle.weld_data.specs.Wrapped.{wrapped};
ghost use Rattle.weld_lanes.specs.Answers.{at, is_true};
ghost use Rattle.weld_lanes.specs.Blocks.{AreOne, AreTwo, AreThree, AreSame};

use crate::kinds::Lane;

/// An operator on two numbers of a kind, which is known where a loop is compiled.
pub(crate) trait Work<L: Lane> {
    ghost use Rattle.std.specs.Prelude.{◌≡◌, ℤ};

    ghost gives: { ℤ → ℤ → ℤ };

    /// What it makes of the numbers. It takes no memory.
    fn of(&self, x: L, y: L) -> L
        ensures { L.number result ≡ gives (L.number x) (L.number y) };
}

/// The wrapped sum.
#[derive(Clone, Copy)]
pub(crate) struct Sum;

impl<L: Lane> Work<L> for Sum {
    ghost gives = { λ x y. wrapped L.kind (x +ℤ y) };

    #[inline(always)]
    fn of(&self, x: L, y: L) -> L {
        x.sum(y)
    }
}

/// The wrapped difference.
#[derive(Clone, Copy)]
pub(crate) struct Difference;

impl<L: Lane> Work<L> for Difference {
    ghost gives = { λ x y. wrapped L.kind (x -ℤ y) };

    #[inline(always)]
    fn of(&self, x: L, y: L) -> L {
        x.difference(y)
    }
}

/// The wrapped product.
#[derive(Clone, Copy)]
pub(crate) struct Product;

impl<L: Lane> Work<L> for Product {
    ghost gives = { λ x y. wrapped L.kind (x *ℤ y) };

    #[inline(always)]
    fn of(&self, x: L, y: L) -> L {
        x.product(y)
    }
}

/// The less of both.
#[derive(Clone, Copy)]
pub(crate) struct Least;

impl<L: Lane> Work<L> for Least {
    ghost gives = { int_min };

    #[inline(always)]
    fn of(&self, x: L, y: L) -> L {
        if y.is_less(x) { y } else { x }
    }
}

/// The greater of both.
#[derive(Clone, Copy)]
pub(crate) struct Greatest;

impl<L: Lane> Work<L> for Greatest {
    ghost gives = { int_max };

    #[inline(always)]
    fn of(&self, x: L, y: L) -> L {
        if y.is_less(x) { x } else { y }
    }
}

/// Whether both are the same.
#[derive(Clone, Copy)]
pub(crate) struct Equal;

impl<L: Lane> Work<L> for Equal {
    ghost gives = { λ x y. truth (int_eq x y) };

    #[inline(always)]
    fn of(&self, x: L, y: L) -> L {
        L::of_truth(x.is_equal(y))
    }
}

/// Whether they aren't the same.
#[derive(Clone, Copy)]
pub(crate) struct Unequal;

impl<L: Lane> Work<L> for Unequal {
    ghost gives = { λ x y. truth (not (int_eq x y)) };

    #[inline(always)]
    fn of(&self, x: L, y: L) -> L {
        L::of_truth(!x.is_equal(y))
    }
}

/// Whether the first is less.
#[derive(Clone, Copy)]
pub(crate) struct Less;

impl<L: Lane> Work<L> for Less {
    ghost gives = { λ x y. truth (int_lt x y) };

    #[inline(always)]
    fn of(&self, x: L, y: L) -> L {
        L::of_truth(x.is_less(y))
    }
}

/// Whether the first is at most the second.
#[derive(Clone, Copy)]
pub(crate) struct AtMost;

impl<L: Lane> Work<L> for AtMost {
    ghost gives = { λ x y. truth (int_le x y) };

    #[inline(always)]
    fn of(&self, x: L, y: L) -> L {
        L::of_truth(x.is_at_most(y))
    }
}

/// Whether both are true.
#[derive(Clone, Copy)]
pub(crate) struct Both;

impl<L: Lane> Work<L> for Both {
    ghost gives = { λ x y. truth (is_true x && is_true y) };

    #[inline(always)]
    fn of(&self, x: L, y: L) -> L {
        L::of_truth(x.is_true() & y.is_true())
    }
}

/// Whether one is true.
#[derive(Clone, Copy)]
pub(crate) struct Either;

impl<L: Lane> Work<L> for Either {
    ghost gives = { λ x y. truth (is_true x || is_true y) };

    #[inline(always)]
    fn of(&self, x: L, y: L) -> L {
        L::of_truth(x.is_true() | y.is_true())
    }
}

/// What the operator makes of the numbers at each place.
pub(crate) fn each_two<L: Lane, W: Work<L>>(work: &W, out: &mut [L], x: &[L], y: &[L])
    requires first { length x.now ≡ length out.old }
    requires second { length y.now ≡ length out.old }
    ensures { AreTwo W.gives (map L.number x.now) (map L.number y.now) (map L.number out.new)
        (length out.old) }
{
    for place in 0..out.len() {
        out[place] = work.of(x[place], y[place]);
    }
}

/// Whether the number at each place doesn't stand for true.
pub(crate) fn each_not<L: Lane>(out: &mut [L], x: &[L])
    requires { length x.now ≡ length out.old }
    ensures { AreOne (λ n. truth (not (is_true n))) (map L.number x.now) (map L.number out.new)
        (length out.old) }
{
    for place in 0..out.len() {
        out[place] = L::of_truth(!x[place].is_true());
    }
}

/// The second number where the first stands for true, else the third.
#[inline(always)]
fn chosen<L: Lane>(truth: L, x: L, y: L) -> L
    ensures { L.number result ≡ (if is_true (L.number truth) then L.number x else L.number y) }
{
    if truth.is_true() { x } else { y }
}

/// At each place the second number where the first stands for true, else the third.
pub(crate) fn each_choice<L: Lane>(out: &mut [L], truths: &[L], x: &[L], y: &[L])
    requires truths { length truths.now ≡ length out.old }
    requires first { length x.now ≡ length out.old }
    requires second { length y.now ≡ length out.old }
    ensures { AreThree (map L.number truths.now) (map L.number x.now) (map L.number y.now)
        (map L.number out.new) (length out.old) }
{
    for place in 0..out.len() {
        out[place] = chosen(truths[place], x[place], y[place]);
    }
}

/// The number at each place.
pub(crate) fn each_same<L: Lane>(out: &mut [L], x: L)
    ensures { AreSame (L.number x) (map L.number out.new) (length out.old) }
{
    for place in 0..out.len() {
        out[place] = x;
    }
}

/// The numbers themselves.
pub(crate) fn each_copy<L: Lane>(out: &mut [L], x: &[L])
    requires { length x.now ≡ length out.old }
    ensures { AreOne (λ n. n) (map L.number x.now) (map L.number out.new) (length out.old) }
{
    for place in 0..out.len() {
        out[place] = x[place];
    }
}

/// The numbers one after another, combined with what is there by the operator.
pub(crate) fn fold_all<L: Lane, W: Work<L>>(work: &W, start: L, x: &[L]) -> L
    ensures { L.number result ≡ fold W.gives (L.number start) (map L.number x.now) }
{
    let mut total = start;
    for place in 0..x.len() {
        total = work.of(total, x[place]);
    }
    total
}
