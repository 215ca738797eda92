//! What one object of a script is.

use weld_calls::Call;
use weld_data::{Items, Kind, Names};
use weld_tree::{Ty, Tys};

/// Objects of a script by their numbers, from 0, in the order in which the script makes them.
pub type Ids = Items<u32>;

/// Objects of a script, in the order in which it makes them.
pub type MadeList = Items<Made>;

/// What a script declares, of which its user hands over the value.
#[derive(Drop)]
pub enum Declared {
    /// A value of this type.
    Input(Ty),
    /// A table: the names of its columns and the types of their cells, as many. Its value is the struct
    /// of the columns' vectors.
    Table(Names, Tys),
}

/// One object of a script. A line of a call makes an object for each literal argument, in order, and then its own.
#[derive(Drop)]
pub enum Made {
    /// A declaration.
    Declared(Declared),
    /// A number of a kind that stands among a call's arguments; false is 0 and true is 1.
    Literal(Kind, i128),
    /// A call, with the objects that it is made on. An operator and a column's number are part of the call.
    Call(Call, Ids),
}
