ghost use Rattle.std.specs.Prelude.{◌≡◌};
ghost use Rattle.mm_text.specs.declared.market.MarketRefused.TheVariants.{Fault, Memory};

use cht_ids::List;
use std::alloc::{AllocError, AllocFailed};

/// How a matrix is listed.
#[derive(Clone, Copy, Debug, PartialEq, Eq)]
pub enum Form {
    /// Each place on its own.
    General,
    /// The places on and below the diagonal, for a matrix that is its own transpose.
    Symmetric,
}

/// An entry that a text lists. Rows and columns count from 1.
#[derive(Clone, Copy, Debug, PartialEq, Eq)]
pub struct Entry {
    pub row: u32,
    pub column: u32,
    pub value: i64,
}

/// A place of a matrix with its value, as wide as sums and products may become. Rows and columns count from 1.
#[derive(Clone, Copy, Debug, PartialEq, Eq)]
pub struct Cell {
    pub row: u32,
    pub column: u32,
    pub value: i128,
}

/// A matrix that was read: its shape, and its entries that are not zero, by row and then by column.
#[derive(Drop)]
pub struct Market {
    pub form: Form,
    pub rows: u32,
    pub columns: u32,
    pub entries: List<Entry>,
}

/// A matrix, and how much of the text it took: lines, and bytes with their line feeds.
#[derive(Drop)]
pub struct MarketRead {
    pub market: Market,
    pub lines: u64,
    pub bytes: u64,
}

/// The first rule of the format that a text breaks: its line, counted from 1 at the banner, and its code.
#[derive(Clone, Copy, Debug, PartialEq, Eq)]
pub struct MarketFault {
    pub line: u64,
    pub code: u32,
}

/// Why no matrix was read.
#[derive(Clone, Copy, Debug, PartialEq, Eq)]
pub enum MarketRefused {
    Fault(MarketFault),
    Memory,
}

impl From<MarketFault> for MarketRefused {
    ghost from_gives = { λ fault refused. refused ≡ Fault fault };

    fn from(fault: MarketFault) -> MarketRefused {
        MarketRefused::Fault(fault)
    }
}

impl From<AllocError> for MarketRefused {
    ghost from_gives = { λ _ refused. refused ≡ Memory };

    fn from(_: AllocError) -> MarketRefused {
        MarketRefused::Memory
    }
}

impl<T: Drop> From<AllocFailed<T>> for MarketRefused {
    ghost from_gives = { λ _ refused. refused ≡ Memory };

    fn from(_: AllocFailed<T>) -> MarketRefused {
        MarketRefused::Memory
    }
}
