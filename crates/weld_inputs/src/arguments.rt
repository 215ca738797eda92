//! The arguments of a program: read from the blocks of a job's data, one for each parameter.

mod arguments;
mod block;
pub mod laws;
mod stop;

pub use arguments::read_arguments;
pub(crate) use block::read_block as read_param;
pub use stop::DataStop;
