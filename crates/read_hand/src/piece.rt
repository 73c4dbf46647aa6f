/// Words of a log that follow one another.
#[derive(Drop)]
pub struct Piece {
    /// The number of the log.
    pub log: u32,
    /// The place of the first word's first byte in the log.
    pub from: u64,
    pub words: Vec<u64>,
}
