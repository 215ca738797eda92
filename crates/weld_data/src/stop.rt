/// Why an evaluation ended without a value: a fault of the program, or want of memory.
#[derive(Clone, Copy, Debug, PartialEq, Eq, Hash)]
pub enum Stop {
    Fault,
    Memory,
}
