//! The names in scope.

ghost use Rattle.std.specs.Prelude.{◌≡◌, [], ◌∷◌, IfOk};
ghost use Rattle.weld_meaning.specs.Origin.{origin_of_name, value, outside, by_name};
ghost use Rattle.weld_linear.specs.ScopeView.{origin_in, seen_as};

use crate::seen::Seen;
use crate::source::Source;
use std::alloc::{AllocError, Global};
use std::marker::Model;
use weld_tree::Sym;

/// The names in scope with their origins. Contracts see them as plain data, the newest first.
///
/// Each name has the scope before it, and one further back: a look-up of a number that none of the names between them has
/// jumps there, so it takes some twenty steps over a thousand names that were numbered in their order.
#[cycle(scope)]
#[derive(Drop)]
pub struct Scope<'a> {
    /// The newest name, its origin where it isn't a value, how the names before it are seen, those names, some further back.
    newest: Option<(Sym, Option<&'a Source>, Seen, &'a Scope<'a>, &'a Scope<'a>)>,
    /// The least number of a name from the newest down to those further back.
    low: u32,
    /// The greatest.
    high: u32,
    count: u32,
}

impl<'a> Model for Scope<'a> {
    ghost use Rattle.weld_meaning.specs.Environment.{Named};
    ghost use Rattle.weld_meaning.specs.Origin.{Origin};
    ghost use Rattle.std.specs.Prelude.{length};
    ghost use Rattle.weld_linear.specs.ScopeView.{names_of, Jumps, length-seen_as};

    ghost Value = { Named Origin };

    ghost use Rattle.std.specs.Coded.{coded_list, coded×, coded_ℕ};
    ghost use Rattle.weld_linear.specs.Sources.{coded_origin};

    ghost coded = { coded_list (coded× coded_ℕ coded_origin) };

    ghost view = { λ a. names_of a.newest };

    ghost invariant = { λ a. Jumps a.newest a.low a.high };

    ghost size = { length };

    ghost use Rattle.std.proofs.Common.{arith};

    ghost size_decreases = { λ a h. Prim.grind (arith, length-seen_as) };
}

impl<'a> Scope<'a> {
    /// No names.
    pub fn empty() -> Scope<'a>
        ensures { result ≡ [] }
    {
        Scope {
            newest: None,
            low: 0,
            high: 0,
            count: 0,
        }
    }

    /// These and one more, of this origin.
    pub fn bound(name: Sym, source: &'a Source, rest: &'a Scope<'a>) -> Scope<'a>
        ensures { result ≡ (name.0, source.now) ∷ rest.now }
    {
        joined(name, Some(source), rest)
    }

    /// These and one more, a value.
    pub fn of_value(name: Sym, rest: &'a Scope<'a>) -> Scope<'a>
        ensures { result ≡ (name.0, value) ∷ rest.now }
    {
        joined(name, None, rest)
    }

    /// These as they are seen from within a lambda, and one more, of this origin.
    pub fn bound_within(name: Sym, source: &'a Source, rest: &'a Scope<'a>) -> Scope<'a>
        ensures { result ≡ (name.0, source.now) ∷ outside rest.now }
    {
        seen_so(name, Some(source), Seen::Outside, rest)
    }

    /// These as they are seen from within a lambda, and one more, a value.
    pub fn value_within(name: Sym, rest: &'a Scope<'a>) -> Scope<'a>
        ensures { result ≡ (name.0, value) ∷ outside rest.now }
    {
        seen_so(name, None, Seen::Outside, rest)
    }

    /// These, each as its own origin, and one more, of this origin.
    pub fn bound_by_name(name: Sym, source: &'a Source, rest: &'a Scope<'a>) -> Scope<'a>
        ensures { result ≡ (name.0, source.now) ∷ by_name rest.now }
    {
        seen_so(name, Some(source), Seen::ByName, rest)
    }

    /// The origin of the name; of one that isn't in scope that of a value.
    #[tactic(auto, using(crate::proofs::Names::name_outside, crate::proofs::Names::name_by_name))]
    pub fn origin_of(&self, name: Sym, alloc: Global) -> Result<Source, AllocError>
        ensures { IfOk result (λ o. o ≡ origin_of_name name.0 self.now) }
    {
        let mut scope = self;
        while let Some((bound, source, seen, rest, far)) = scope.newest {
            if name.0 == bound.0 {
                return copied(source, alloc);
            }
            let beyond = name.0 < scope.low || scope.high < name.0;
            match seen {
                Seen::Outside => return rest.origin_of(name, alloc)?.from_within(alloc),
                Seen::ByName => return rest.origin_of(name, alloc)?.paths_of(name, alloc),
                Seen::Same => {}
            }
            scope = if beyond { far } else { rest };
        }
        Ok(Source::value())
    }
}

/// A copy of the origin, if there is one, else that of a value.
fn copied(source: Option<&Source>, alloc: Global) -> Result<Source, AllocError>
    ensures { IfOk result (λ o. o ≡ origin_in source.entry) }
{
    match source {
        Some(source) => source.copy(alloc),
        None => Ok(Source::value()),
    }
}

/// The names and one more.
fn joined<'a>(name: Sym, source: Option<&'a Source>, rest: &'a Scope<'a>) -> Scope<'a>
    ensures { result ≡ (name.0, origin_in source.entry) ∷ rest.now }
{
    if let Some((_, _, Seen::Same, _, far)) = rest.newest {
        if let Some((_, _, Seen::Same, _, further)) = far.newest {
            if rest.count.wrapping_sub(far.count) == far.count.wrapping_sub(further.count) {
                return Scope {
                    newest: Some((name, source, Seen::Same, rest, further)),
                    low: name.0.min(rest.low).min(far.low),
                    high: name.0.max(rest.high).max(far.high),
                    count: rest.count.saturating_add(1),
                };
            }
        }
    }
    seen_so(name, source, Seen::Same, rest)
}

/// The names as they are seen so, and one more.
fn seen_so<'a>(name: Sym, source: Option<&'a Source>, seen: Seen, rest: &'a Scope<'a>) -> Scope<'a>
    ensures { result ≡ (name.0, origin_in source.entry) ∷ seen_as seen rest.now }
{
    Scope {
        newest: Some((name, source, seen, rest, rest)),
        low: name.0,
        high: name.0,
        count: rest.count.saturating_add(1),
    }
}
