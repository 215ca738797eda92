//! The names of lets.

ghost use Rattle.std.specs.Prelude.{◌≡◌, [], ◌∷◌};
ghost use Rattle.weld_meaning.specs.Environment.{look_for};
ghost use Rattle.weld_lane_form.specs.LetsView.{view_lets};
ghost use Rattle.weld_lane_form.specs.Lowering.{is_unlet};

use weld_tree::Sym;

/// The names of lets, the newest first, each with the place of its step.
#[derive(Clone, Copy)]
pub(crate) enum Lets<'a> {
    End,
    And(Sym, u32, &'a Lets<'a>),
}

/// The names of no lets.
pub(crate) fn no_lets<'a>() -> Lets<'a>
    ensures { view_lets result ≡ [] }
{
    Lets::End
}

/// The names of lets and one more.
pub(crate) fn with_let<'a>(name: Sym, place: u32, rest: &'a Lets<'a>) -> Lets<'a>
    ensures { view_lets result ≡ (name.0, place) ∷ view_lets rest.now }
{
    Lets::And(name, place, rest)
}

/// The place of the newest `let` of the name, where there is one.
pub(crate) fn place_of(lets: &Lets, name: Sym) -> Option<u32>
    ensures { result ≡ look_for name.0 (view_lets lets.now) }
{
    match lets {
        Lets::End => None,
        Lets::And(first, place, rest) => {
            if name.0 == first.0 {
                Some(*place)
            } else {
                place_of(rest, name)
            }
        }
    }
}

/// Whether no `let` has the name.
pub(crate) fn is_free(lets: &Lets, name: Sym) -> bool
    ensures { result ≡ is_unlet (look_for name.0 (view_lets lets.now)) }
{
    match place_of(lets, name) {
        Some(_) => false,
        None => true,
    }
}
