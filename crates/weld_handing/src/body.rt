//! The body of a loop handed over, by the names that the loop binds.

ghost use Rattle.std.specs.Prelude.{◌≡◌, [], Some, IfOk};
ghost use Rattle.weld_meaning.specs.Origin.{own};
ghost use Rattle.weld_handing.specs.Handing.{handed_by};
ghost use Rattle.weld_handing.specs.Merging.{list_merges};
ghost use Rattle.weld_handing.specs.Walking.{handed_for, names_within};

use crate::hand::hand;
use crate::settling::Consumer;
use std::alloc::{AllocError, Global};
use weld_linear::{Path, Scope, Source, SourceForm};
use weld_tree::{Expr, Known, Sym, Ty};

/// The body of a loop of these names is handed over to the consumer, whose builders are of the type;
/// where none is noted, it stays. It fails for want of memory alone; the body may be anything then.
pub fn hand_body(
    alloc: Global,
    ty: &Known,
    own: Sym,
    count: Sym,
    item: Sym,
    consumer: Consumer,
    inside: &mut Expr,
) -> Result<(), AllocError>
    requires { list_merges (names_within own.0 count.0 item.0) inside.old ≡ 1 }
    ensures { IfOk result (λ _. inside.new ≡ handed_by ty.now count.0 consumer.builder
        consumer.number consumer.row consumer.body.value (names_within own.0 count.0 item.0)
        inside.old) }
{
    match ty {
        Known::Blank => Ok(()),
        Known::Is(ty) => hand_typed(alloc, ty, own, count, item, consumer, inside),
    }
}

fn hand_typed(
    alloc: Global,
    ty: &Ty,
    own: Sym,
    count: Sym,
    item: Sym,
    consumer: Consumer,
    inside: &mut Expr,
) -> Result<(), AllocError>
    requires { list_merges (names_within own.0 count.0 item.0) inside.old ≡ 1 }
    ensures { IfOk result (λ _. inside.new ≡ handed_for ty.now count.0 (Some consumer)
        (names_within own.0 count.0 item.0) inside.old) }
{
    let source = own_source(alloc);
    let none = Scope::empty();
    let with_builder = Scope::bound(own, &source, &none);
    let with_count = Scope::of_value(count, &with_builder);
    let scope = Scope::of_value(item, &with_count);
    let mut consumer = Some(consumer);
    hand(alloc, ty, count, &mut consumer, &scope, inside)?;
    Ok(())
}

/// The origin of a loop's own builder. It takes no memory.
pub fn own_source(alloc: Global) -> Source
    ensures { result ≡ own [] }
{
    Source {
        form: SourceForm::Own(Path::root(alloc)),
    }
}
