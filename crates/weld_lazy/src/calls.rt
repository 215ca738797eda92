//! The calls that are reached, each a `let` of the program.
ghost use Rattle.std.specs.Prelude.{◌≡◌, ◌+◌, ◌<◌, ◌≤◌, ◌++◌, ◌∷◌, suc, ℕ, List, [], length, map, OnOk, OnErr, IfOk};
ghost use Rattle.weld_tree.specs.Program.{bound, IsProgram};
ghost use Rattle.weld_meaning.specs.Environment.{look_for};
ghost use Rattle.weld_objects.specs.Numbering.{number_in};
ghost use Rattle.weld_objects.specs.Objects.{Object as PlainObject, with_one};
ghost use Rattle.weld_objects.specs.Lowered.{placed_body, lets};
ghost use Rattle.weld_lazy.specs.View.{view_object, view_let};
ghost use Rattle.weld_lazy.specs.Lowering.{marks_of, chained, param_number, binder_number, binders_at, binders_from, HasCount};

use crate::ids::{Ids, ObjectId};
use crate::marks::Marks;
use crate::object::Object;
use std::alloc::{AllocError, Global};
use std::marker::Model;
use weld_meaning::Accepted;
use weld_objects::renaming::{Numbering, Syms, binders_of, renamed_copy};
use weld_tree::{Binder, Expr, Sym};

/// A `let` of the program: the number that it binds, and its value.
#[derive(Drop)]
pub(crate) struct LetPart {
    pub number: u32,
    pub body: Box<Expr>,
}

/// The lets of a program, the outermost first. Contracts see their numbers and values.
#[derive(Drop)]
pub(crate) struct Lets {
    items: Vec<LetPart>,
}

impl Model for Lets {
    ghost use Rattle.std.specs.Prelude.{ℕ, List, map};
    ghost use Rattle.std.specs.Coded.{coded_list, coded×, coded_ℕ};
    ghost use Rattle.weld_tree.specs.ExprTree.{ExprTree};
    ghost use Rattle.weld_tree.specs.ExprCode.{coded_expr};
    ghost use Rattle.weld_lazy.specs.View.{view_let};

    ghost Value = { List (ℕ × ExprTree) };

    ghost coded = { coded_list (coded× coded_ℕ coded_expr) };

    ghost view = { λ l. map view_let l.items.items };
}

impl Lets {
    /// No `let`. It takes no memory.
    pub fn new(alloc: Global) -> Lets
        ensures { result ≡ [] }
    {
        Lets {
            items: Vec::new(alloc),
        }
    }

    /// The lets, given up. It takes no memory.
    pub fn into_vec(self) -> Vec<LetPart>
        ensures { map view_let result.items ≡ self }
    {
        let Lets { items } = self;
        items
    }

    /// One more within the others.
    pub fn push(&mut self, part: LetPart) -> Result<(), AllocError>
        ensures { OnOk result (self.new ≡ self.old ++ view_let part ∷ []) }
    {
        self.items.push(part)?;
        Ok(())
    }
}

/// The numbers that a call's binders become, one after another from the base on.
fn number_binders(alloc: Global, binders: &Syms, base: u32) -> Result<Numbering, AllocError>
    requires { base + length binders.now ≤ 4294967295 }
    ensures { IfOk result (λ renaming. (s : ℕ) → look_for s renaming
        ≡ binder_number base binders.now s) }
{
    let mut renaming = Numbering::new(alloc);
    let mut place = binders.len();
    while place > 0 {
        place -= 1;
        renaming.put(binders.at(place), Sym(base + place as u32))?;
    }
    Ok(renaming)
}

/// The numbers that a call's parameters become: those of the objects that it is made on.
fn number_params(
    renaming: &mut Numbering,
    params: &[Binder],
    deps: &Ids,
    numbers: &Numbering,
) -> Result<(), AllocError>
    requires { length params.now ≡ length deps.now }
    ensures { OnOk result ((s : ℕ) → look_for s renaming.new
        ≡ param_number params.now (map (number_in numbers.now) deps.now) s
        (look_for s renaming.old)) }
{
    let mut place = params.len();
    while place > 0 {
        place -= 1;
        renaming.put(params[place].sym, numbers.number(Sym(deps.at(place).0)))?;
    }
    Ok(())
}

/// The body of a call's program where it stands in the whole.
pub(crate) fn place_body(
    alloc: Global,
    program: &Accepted,
    deps: &Ids,
    numbers: &Numbering,
    binders: &Syms,
    base: u32,
) -> Result<Box<Expr>, AllocError>
    requires count { length program.now.params ≡ length deps.now }
    requires binders { binders.now ≡ bound program.now.body }
    requires room { base + length binders.now ≤ 4294967295 }
    ensures { IfOk result (λ body. body.value ≡ placed_body base
        (map (number_in numbers.now) deps.now) program.now) }
{
    let program = program.program();
    let mut renaming = number_binders(alloc, binders, base)?;
    number_params(&mut renaming, program.params.as_slice(), deps, numbers)?;
    renamed_copy(alloc, &program.body, &renaming)
}
