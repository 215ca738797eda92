/// What a run counted: the loops of the program, those that append to one list once a row, those that run by lanes, and the
/// tiles and the rows of all evaluations of its shared loops.
#[derive(Clone, Copy, Debug, PartialEq, Eq)]
pub struct RunNote {
    pub loops: u64,
    pub sized: u64,
    pub lanes: u64,
    pub tiles: u128,
    pub turns: u128,
}
