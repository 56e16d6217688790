// The first byte of each form of chunk.
pub(crate) const LEAF: u8 = 1;

pub(crate) const NODE: u8 = 2;

pub(crate) const SYM_LEAF: u8 = 3;

pub(crate) const SYM_NODE: u8 = 4;

pub(crate) const ENTRIES: u8 = 5;

pub(crate) const NUM: u8 = 6;
