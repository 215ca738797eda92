//! Rows over all legs, and what is made of them.

ghost use Rattle.std.specs.Prelude.{◌≡◌, ◌+◌, ◌<◌, ◌^◌, [], ◌∷◌, ◌++◌, length, IfOk};
ghost use Rattle.weld_tree.specs.TypeTree.{pack, struct};
ghost use Rattle.weld_tree.specs.ExprTree.{make_struct, many, pack_exprs};
ghost use Rattle.weld_horizontal.specs.Twice.{items_from, node_of};
ghost use Rattle.weld_vertical_zip.specs.Zipping.{all_items, made_row, own_row, part_of_row, types_behind, whole_row};
ghost use Rattle.weld_vertical_zip.specs.Zips.{of_sides, row_fields, AreFew};

use std::alloc::{AllocError, Global};
use weld_horizontal::item_at;
use weld_tree::{Expr, Exprs, Form, Known, ManyForm, Place, Sym, Ty, Tys};

/// The types of items round a list that another loop makes: of the legs before it, of the legs of
/// that loop, of the legs after it, and of its own items.
#[derive(Drop)]
pub struct Sides {
    pub before: Tys,
    pub within: Tys,
    pub after: Tys,
    pub item: Ty,
}

/// The items of all legs, those of the loop that makes the list in the list's place. It fails for
/// want of memory alone.
#[tactic(auto, using(crate::proofs::RowLists::packed_three))]
pub fn all_items(alloc: Global, before: &Tys, within: &Tys, after: &Tys) -> Result<Tys, AllocError>
    ensures value { IfOk result (λ ts. pack ts
        ≡ types_behind (pack before.now) (types_behind (pack within.now) (pack after.now))) }
    ensures len { IfOk result (λ ts.
        length ts ≡ length before.now + length within.now + length after.now) }
{
    let mut all = before.copy(alloc)?.into_vec();
    let mut own = within.copy(alloc)?.into_vec();
    let mut last = after.copy(alloc)?.into_vec();
    all.append(&mut own)?;
    all.append(&mut last)?;
    Ok(Tys::from_vec(all))
}

/// The type of the consumer's row.
#[tactic(auto, using(crate::proofs::RowLists::packed_whole))]
fn whole_row(alloc: Global, sides: &Sides) -> Result<Ty, AllocError>
    ensures { IfOk result (λ t. t ≡ whole_row (of_sides sides.now)) }
{
    let mut fields = sides.before.copy(alloc)?.into_vec();
    let mut last = sides.after.copy(alloc)?.into_vec();
    fields.push(sides.item.copy(alloc)?)?;
    fields.append(&mut last)?;
    Ok(Ty::struct_of(Tys::from_vec(fields)))
}

/// The items of these types from a number on, of a row over items of all types.
#[tactic(auto, using(crate::proofs::RowLists::fields_more, crate::proofs::RowLists::fields_all))]
fn items_from(
    alloc: Global,
    place: Place,
    row: Sym,
    all: &Tys,
    from: usize,
    types: &Tys,
) -> Result<Vec<Expr>, AllocError>
    requires { from + length types.now < 10 ^ 9 }
    ensures { IfOk result (λ es.
        pack_exprs es.items ≡ items_from place row.0 (pack all.now) from (pack types.now)) }
{
    let mut items = Vec::new(alloc);
    for (i, ty) in types.as_slice().iter().enumerate() {
        let ty = ty.copy(alloc)?;
        items.push(item_at(alloc, place, row, all, (from + i) as u32, ty)?)?;
    }
    Ok(items)
}

/// The row of the loop that makes the list, from a row over all legs. It fails for want of memory alone.
pub fn own_row(alloc: Global, place: Place, row: Sym, sides: &Sides) -> Result<Expr, AllocError>
    requires { AreFew (of_sides sides.now) }
    ensures { IfOk result (λ e. e ≡ own_row place row.0 (of_sides sides.now)) }
{
    let all = all_items(alloc, &sides.before, &sides.within, &sides.after)?;
    part_of_row(alloc, place, row, &all, sides.before.len(), &sides.within)
}

/// So many items of a row from a number on: the item where it is one, the struct where they are more.
#[tactic(auto, using(crate::proofs::RowLists::part_one, crate::proofs::RowLists::part_more))]
fn part_of_row(
    alloc: Global,
    place: Place,
    row: Sym,
    all: &Tys,
    from: usize,
    types: &Tys,
) -> Result<Expr, AllocError>
    requires { from + length types.now < 10 ^ 9 }
    ensures { IfOk result (λ e. e ≡ part_of_row place row.0 (pack all.now) from (pack types.now)) }
{
    if types.len() == 1 {
        let only = types.as_slice()[0].copy(alloc)?;
        return item_at(alloc, place, row, all, from as u32, only);
    }
    let items = items_from(alloc, place, row, all, from, types)?;
    let items = Exprs::from_vec(items);
    Ok(struct_at(place, Ty::struct_of(types.copy(alloc)?), items))
}

/// The consumer's row, from a row over all legs and the value that was merged. It fails for want of
/// memory alone.
pub fn made_row(
    alloc: Global,
    place: Place,
    row: Sym,
    sides: &Sides,
    value: Expr,
) -> Result<Expr, AllocError>
    requires { AreFew (of_sides sides.now) }
    ensures { IfOk result (λ e. e ≡ made_row place row.0 (of_sides sides.now) value) }
{
    let fields = row_fields(alloc, place, row, sides, value)?;
    let ty = whole_row(alloc, sides)?;
    Ok(struct_at(place, ty, fields))
}

/// The items of the consumer's row.
fn row_fields(
    alloc: Global,
    place: Place,
    row: Sym,
    sides: &Sides,
    value: Expr,
) -> Result<Exprs, AllocError>
    requires { AreFew (of_sides sides.now) }
    ensures { IfOk result (λ es.
        pack_exprs es ≡ row_fields place row.0 (of_sides sides.now) value) }
{
    let all = all_items(alloc, &sides.before, &sides.within, &sides.after)?;
    fields_from(alloc, place, row, &all, sides, value)
}

/// The same, by the items of all legs.
fn fields_from(
    alloc: Global,
    place: Place,
    row: Sym,
    all: &Tys,
    sides: &Sides,
    value: Expr,
) -> Result<Exprs, AllocError>
    requires few { AreFew (of_sides sides.now) }
    requires all { pack all.now ≡ all_items (of_sides sides.now) }
    ensures { IfOk result (λ es.
        pack_exprs es ≡ row_fields place row.0 (of_sides sides.now) value) }
{
    let first = items_from(alloc, place, row, all, 0, &sides.before)?;
    let first = with_value(first, value)?;
    let behind = sides.before.len() + sides.within.len();
    let last = items_from(alloc, place, row, all, behind, &sides.after)?;
    joined(first, last)
}

/// The items and one more.
fn with_value(items: Vec<Expr>, value: Expr) -> Result<Vec<Expr>, AllocError>
    ensures { IfOk result (λ es. es.items ≡ items.items ++ value ∷ []) }
{
    let mut items = items;
    items.push(value)?;
    Ok(items)
}

/// The items, and others behind them.
fn joined(first: Vec<Expr>, last: Vec<Expr>) -> Result<Exprs, AllocError>
    ensures { IfOk result (λ es. pack_exprs es ≡ pack_exprs (first.items ++ last.items)) }
{
    let mut items = first;
    let mut last = last;
    items.append(&mut last)?;
    Ok(Exprs::from_vec(items))
}

/// The struct of the items, which has this type.
fn struct_at(place: Place, ty: Ty, items: Exprs) -> Expr
    ensures { result ≡ many (node_of place ty) make_struct (pack_exprs items) }
{
    Expr {
        form: Form::Many(ManyForm::Struct, items),
        place,
        ty: Known::Is(ty),
    }
}
