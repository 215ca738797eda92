//! Laws of this crate's definitions, each the contract of a function that does nothing.

ghost use Rattle.std.specs.Prelude.{◌≡◌, ◌⊎◌, ℕ, List, Some};
ghost use Rattle.weld_data.specs.Value.{Value};
ghost use Rattle.weld_tree.specs.HasValue.{HasValue};
ghost use Rattle.weld_tree.specs.TypeTree.{TypeTree};
ghost use Rattle.weld_table.specs.declared.wanted.Wanted.{Wanted};
ghost use Rattle.weld_table.specs.declared.wanted.Wanted.TheVariants.{Fields};
ghost use Rattle.weld_table.specs.declared.fault.TableFault.{TableFault};
ghost use Rattle.weld_table.specs.Table.{AreCells, TableReads, TableFails, columns_in, type_of_table};

use crate::fault::TableFault;

/// A content gives at most one value; where it gives one, it has no reason but want of memory not to; and it has at most one
/// reason beside that.
pub fn one_table()
    ensures value { (content : List ℕ) (wanted : Wanted) (v w : Value) → TableReads content wanted v
        → TableReads content wanted w → v ≡ w }
    ensures no_reason { (content : List ℕ) (wanted : Wanted) (v : Value) (f : TableFault)
        → TableReads content wanted v
        → TableFails content wanted f → f ≡ TableFault.Memory }
    ensures one_reason { (content : List ℕ) (wanted : Wanted) (f g : TableFault)
        → TableFails content wanted f → TableFails content wanted g
        → (f ≡ TableFault.Memory) ⊎ ((g ≡ TableFault.Memory) ⊎ (f ≡ g)) }
{}

/// Each content gives a value or has a reason other than want of memory.
pub fn each_table_reads_or_not()
    ensures { (content : List ℕ) (wanted : Wanted) → AreCells wanted
        → ((v : Value) × TableReads content wanted v) ⊎ ((f : TableFault)
        × TableFails content wanted f × (f ≡ TableFault.Memory → ⊥)) }
{}

/// What a content gives is of the table's type.
pub fn tables_have_their_type()
    ensures { (content : List ℕ) (wanted : Wanted) (v : Value) → AreCells wanted
        → TableReads content wanted v → HasValue (type_of_table wanted) v }
{}

/// Of a table type's columns the cells are such as cells may be, and a table of them is of that type.
pub fn table_types_have_columns()
    ensures cells { (t : TypeTree) (ts : List TypeTree) → columns_in t ≡ Some ts
        → AreCells (Fields ts) }
    ensures ty { (t : TypeTree) (ts : List TypeTree) → columns_in t ≡ Some ts
        → type_of_table (Fields ts) ≡ t }
{}
