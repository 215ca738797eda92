//! What is merged row by row, once the numbers of a block are known.

ghost use Rattle.weld_acts.specs.Act.{Acts};
ghost use Rattle.weld_eval.specs.ThingView.{thing_of, things_of};
ghost use Rattle.weld_deeds.specs.Deeds.{DeedFits, DeedsFit, do_of, do_all, DoesAll};
ghost use Rattle.weld_deeds.specs.Does.{number_done, NumberFits, pair_done, PairFits, guarded_done, GuardedFits, list_done, I64ListFits};

use crate::lists::{put_i64_list, put_list};
use crate::puts::{put_number, put_struct, put_two};
use crate::texts::{Same, put_same};
use weld_blocks::numbers::Numbers;
use weld_blocks::scalar::truth_of;
use weld_data::Stop;
use weld_eval::thing::{Fields, Owned};

/// What the body of a loop does to the builder on each row of a block: nothing, a merge of a number, of two as a struct, of a
/// struct by its fields, of a vector by its items or of one value on all rows, one of two such as a truth value says, or one for
/// each field of a struct of builders.
#[cycle(deed)]
#[derive(Drop)]
pub enum Deed {
    Nothing,
    Number(Numbers),
    Pair(Numbers, Numbers),
    Struct(Vec<Numbers>),
    List(Vec<Numbers>),
    Same(Same),
    Choice(Numbers, Box<Deed>, Box<Deed>),
    Fields(Deeds),
}

/// What is done to each field, the first field first.
#[cycle(deed)]
#[derive(Drop)]
pub enum Deeds {
    End,
    And(Box<Deed>, Box<Deeds>),
}

/// Does it on the row of a place in the block, from 0.
#[cycle(doing)]
pub fn do_deed(deed: &Deed, place: usize, builder: &mut Owned) -> Result<(), Stop>
    requires { DeedFits deed.now place (thing_of builder.old) }
    ensures { Acts result (do_of deed.now place (thing_of builder.old)) (thing_of builder.new) }
{
    match deed {
        Deed::Number(numbers) => put_number(builder, numbers.at(place)),
        Deed::Nothing => Ok(()),
        Deed::Pair(keys, numbers) => {
            put_two(builder, keys.at(place), numbers.at(place), keys.memory())
        }
        Deed::Struct(columns) => put_struct(columns, place, builder),
        Deed::List(columns) => put_list(columns, place, builder),
        Deed::Same(same) => put_same(same, builder),
        Deed::Choice(truths, then, otherwise) => {
            if truth_of(truths.at(place)) {
                do_deed(then, place, builder)
            } else {
                do_deed(otherwise, place, builder)
            }
        }
        Deed::Fields(deeds) => match builder {
            Owned::Several(fields) => do_deeds(deeds, place, fields),
            _ => unreachable!(),
        },
    }
}

/// The same field by field.
#[cycle(doing)]
fn do_deeds(deeds: &Deeds, place: usize, fields: &mut Fields) -> Result<(), Stop>
    requires { DeedsFit deeds.now place (things_of fields.old) }
    ensures { DoesAll result (do_all deeds.now place (things_of fields.old))
        (things_of fields.new) }
{
    match deeds {
        Deeds::End => Ok(()),
        Deeds::And(deed, rest) => match fields {
            Fields::And(first, more) => match do_deed(deed, place, first) {
                Ok(()) => do_deeds(rest, place, more),
                Err(stop) => Err(stop),
            },
            Fields::End => unreachable!(),
        },
    }
}

/// What does something to a builder on each row of a block, its form being known where it is
/// compiled.
pub trait Does {
    ghost use Rattle.std.specs.Prelude.{ℕ};
    ghost use Rattle.weld_builders.specs.Outcome.{Outcome};
    ghost use Rattle.weld_meaning.specs.Thing.{Thing};
    ghost use Rattle.weld_acts.specs.Act.{Acts};
    ghost use Rattle.weld_eval.specs.ThingView.{thing_of};

    // What it does on the row of a place, and what lets it be done.
    ghost does: { Self → ℕ → Thing → Outcome Thing };

    ghost fits: { Self → ℕ → Thing → Type 0 };

    /// Does it on the row of a place in the block, from 0.
    fn at(&self, place: usize, builder: &mut Owned) -> Result<(), Stop>
        requires { fits self.now place (thing_of builder.old) }
        ensures { Acts result (does self.now place (thing_of builder.old)) (thing_of builder.new) };
}

/// Any deed.
#[derive(Clone, Copy)]
pub struct AnyDeed<'a> {
    pub deed: &'a Deed,
}

impl<'a> Does for AnyDeed<'a> {
    ghost does = { λ d. do_of d.deed.now };

    ghost fits = { λ d. DeedFits d.deed.now };

    fn at(&self, place: usize, builder: &mut Owned) -> Result<(), Stop> {
        do_deed(self.deed, place, builder)
    }
}

/// A number is merged.
#[derive(Clone, Copy)]
pub struct EachNumber<'a> {
    pub numbers: &'a Numbers,
}

impl<'a> Does for EachNumber<'a> {
    ghost does = { λ d. number_done d.numbers.now };

    ghost fits = { λ d. NumberFits d.numbers.now };

    #[inline(always)]
    fn at(&self, place: usize, builder: &mut Owned) -> Result<(), Stop> {
        put_number(builder, self.numbers.at(place))
    }
}

/// Two numbers are merged as a struct.
#[derive(Clone, Copy)]
pub struct EachPair<'a> {
    pub keys: &'a Numbers,
    pub numbers: &'a Numbers,
}

impl<'a> Does for EachPair<'a> {
    ghost does = { λ d. pair_done d.keys.now d.numbers.now };

    ghost fits = { λ d. PairFits d.keys.now d.numbers.now };

    #[inline(always)]
    fn at(&self, place: usize, builder: &mut Owned) -> Result<(), Stop> {
        put_two(
            builder,
            self.keys.at(place),
            self.numbers.at(place),
            self.keys.memory(),
        )
    }
}

/// A number is merged where a truth value says so.
#[derive(Clone, Copy)]
pub struct EachGuarded<'a> {
    pub truths: &'a Numbers,
    pub numbers: &'a Numbers,
}

impl<'a> Does for EachGuarded<'a> {
    ghost does = { λ d. guarded_done d.truths.now d.numbers.now };

    ghost fits = { λ d. GuardedFits d.truths.now d.numbers.now };

    #[inline(always)]
    fn at(&self, place: usize, builder: &mut Owned) -> Result<(), Stop> {
        if truth_of(self.truths.at(place)) {
            put_number(builder, self.numbers.at(place))
        } else {
            Ok(())
        }
    }
}

/// A vector of numbers is merged, which all are of kind i64.
#[derive(Clone, Copy)]
pub struct EachI64List<'a> {
    pub columns: &'a Vec<Numbers>,
}

impl<'a> Does for EachI64List<'a> {
    ghost does = { λ d. list_done d.columns.now.items };

    ghost fits = { λ d. I64ListFits d.columns.now.items };

    #[inline(always)]
    fn at(&self, place: usize, builder: &mut Owned) -> Result<(), Stop> {
        put_i64_list(self.columns, place, builder)
    }
}
