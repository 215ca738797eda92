//! What the lines of a script say.

use weld_data::{Items, Kind, Names, Text};
use weld_tree::{Ty, Tys};

/// An argument of a call, as it is written.
#[derive(Drop)]
pub enum Argument {
    /// The name of an object.
    Name(Text),
    /// A number of a kind; false is 0 and true is 1.
    Literal(Kind, i128),
    /// A number out of the range of its kind.
    OutOfRange,
    /// A string: an operator, or the name of a column.
    Chars(Text),
}

/// A list of arguments.
pub type Arguments = Items<Argument>;

/// A column of a table: its name and the type of its cells.
#[derive(Drop)]
pub struct Column {
    pub name: Text,
    pub cell: Ty,
}

/// The columns of a table: their names and the types of their cells, in order.
#[derive(Drop)]
pub struct Columns {
    pub names: Names,
    pub cells: Tys,
}

/// A statement of a script, one of the four forms of a line.
#[derive(Drop)]
pub enum Statement {
    /// `input NAME : TYPE`
    Input(Text, Ty),
    /// `table NAME ( COL : TYPE , .. )`
    Table(Text, Columns),
    /// `NAME = LIB . CALL ( ARG , .. )`
    Call(Text, Text, Text, Arguments),
    /// `show NAME , ..`
    Show(Names),
}

/// What a line says.
#[derive(Drop)]
pub enum Saying {
    /// Nothing: it has blanks and a comment alone.
    Nothing,
    /// It has none of the forms of a statement.
    NoForm,
    /// A statement.
    States(Statement),
}
