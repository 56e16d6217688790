use crate::plain::Spot;
use cht_ids::List;

// The fields of a dense block.
pub(crate) struct Block {
    pub(crate) side: u32,
    pub(crate) entries: List<i128>,
}

// The fields of a node.
pub(crate) struct Node {
    pub(crate) height: u32,
    pub(crate) peak: u128,
}

// The fields of a list of entries.
pub(crate) struct Listed {
    pub(crate) leaf: u32,
    pub(crate) height: u32,
    pub(crate) symmetric: bool,
    pub(crate) list: List<Spot>,
}
