//! What a seat knows of the cells. No value of these types is made: clauses alone see them.
use gu_contents::Content;
use gu_types::List;

/// What a seat did at a cell. Clauses see a seat's record as a list of these, the newest first. The
/// program makes none.
pub enum Entry {
    /// It read the cell with a number, and found a content.
    Read(usize, Content),
    /// It joined into the cell with a number: the content that it asked, the content that it found,
    /// and the one that it left, which is the join of the two.
    Join(usize, Content, Content, Content),
}

/// A part of a record: what one seat did, and that seat's number.
pub struct Part {
    pub number: u64,
    pub entries: List<Entry>,
}

/// What a seat knows: whether it was joined into another, how many seats there are (the first seat
/// alone counts them), its number, what it did, and what the seats did that were joined into it.
pub struct View {
    pub spent: bool,
    pub count: u64,
    pub number: u64,
    pub own: List<Entry>,
    pub others: List<Part>,
}
