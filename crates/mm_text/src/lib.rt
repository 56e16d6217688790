//! Integer matrices as Matrix Market text: reading a block, and writing one.
//!
//! The coordinate form with the field `integer` of the Matrix Market exchange format (NIST).
#![tactic(auto)]

mod banner;
mod buffer;
mod codes;
mod cursor;
mod entries;
mod head;
mod lines;
mod market;
mod numbers;
mod places;
mod reading;
mod sizes;
mod writing;

pub use buffer::HeldText;
pub use lines::{is_text, next_line, next_word};
pub use market::{Cell, Entry, Form, Market, MarketFault, MarketRead, MarketRefused};
pub use reading::read_market;
pub use writing::{write_cells, write_market, write_opening};
