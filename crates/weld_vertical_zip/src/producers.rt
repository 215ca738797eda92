//! Lists that other loops make.

ghost use Rattle.std.specs.Prelude.{◌≡◌, ◌<◌, length, map, IfSome};
ghost use Rattle.weld_tree.specs.ExprTree.{pack_legs};
ghost use Rattle.weld_tree.specs.ExprView.{view_leg};
ghost use Rattle.weld_tree.specs.TypeView.{view_build};
ghost use Rattle.weld_vertical.specs.Sinking.{ends_in_merge, is_list, is_producer, starts_list};
ghost use Rattle.weld_vertical_zip.specs.Zipping.{is_made_leg, is_made_list};
ghost use Rattle.weld_vertical_zip.specs.Zips.{place_produced};

use weld_substitution::{is_use, uses_of};
use weld_tree::{BuildTy, Expr, Form, LeafForm, Leg, OneForm, Sym, TwoForm};

/// The place of the first leg that is the list that another loop makes, which starts with an empty
/// `vecbuilder` and merges once a row. It takes no memory.
#[tactic(auto, using(crate::proofs::PlaceLemmas::unshifted, crate::proofs::PlaceLemmas::place_found, crate::proofs::PlaceLemmas::place_missed, crate::proofs::PlaceLemmas::place_none))]
pub(crate) fn place_produced(legs: &[Leg]) -> Option<usize>
    ensures value { result ≡ place_produced (pack_legs (map view_leg legs.now)) }
    ensures within { IfSome result (λ n. n < length legs.now) }
{
    for (i, leg) in legs.iter().enumerate() {
        if is_made_leg(leg) {
            return Some(i);
        }
    }
    None
}

fn is_made_leg(leg: &Leg) -> bool
    ensures { result ≡ is_made_leg (view_leg leg.now) }
{
    match leg {
        Leg::Whole(e) => is_made_list(e),
        Leg::Strided(_, _, _, _) => false,
    }
}

fn is_made_list(e: &Expr) -> bool
    ensures { result ≡ is_made_list e.now }
{
    match &e.form {
        Form::One(OneForm::Finish, part) => is_producer(part),
        _ => false,
    }
}

#[tactic(auto, using(crate::proofs::Once::once_is))]
fn is_producer(e: &Expr) -> bool
    ensures { result ≡ is_producer e.now }
{
    match &e.form {
        Form::For(_, start, builder, _, _, body) => {
            starts_list(start)
                && (ends_in_merge(body, builder.sym) && uses_of(body, builder.sym) == 1)
        }
        _ => false,
    }
}

/// Whether it is an empty `vecbuilder`. It takes no memory.
pub fn starts_list(e: &Expr) -> bool
    ensures { result ≡ starts_list e.now }
{
    match &e.form {
        Form::Leaf(LeafForm::Builder(build)) => is_list(build),
        _ => false,
    }
}

fn is_list(build: &BuildTy) -> bool
    ensures { result ≡ is_list (view_build build.now) }
{
    match build {
        BuildTy::List(_) => true,
        BuildTy::Total(_, _) | BuildTy::Keyed(_, _, _) => false,
        BuildTy::Cells(_, _) | BuildTy::Groups(_, _) => false,
    }
}

/// Whether it is lets, perhaps none, that end in a merge into the name.
fn ends_in_merge(e: &Expr, name: Sym) -> bool
    ensures { result ≡ ends_in_merge name.0 e.now }
{
    match &e.form {
        Form::Let(_, _, body) => ends_in_merge(body, name),
        Form::Two(TwoForm::Merge, builder, _) => is_use(builder, name),
        _ => false,
    }
}
