// The codes of the rules that the lines of a block may break.

pub(crate) const NOT_TEXT: u32 = 2;

pub(crate) const NUMBER: u32 = 5;

pub(crate) const BANNER: u32 = 7;

pub(crate) const SIZES: u32 = 8;

pub(crate) const ENTRY: u32 = 9;

pub(crate) const RANGE: u32 = 10;

pub(crate) const REPEATED: u32 = 11;

pub(crate) const UPPER: u32 = 12;

pub(crate) const CUT_SHORT: u32 = 13;
