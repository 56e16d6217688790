//! The small types that every layer uses: want of memory, a list that keeps its allocator, short texts,
//! numbers as decimal text, references to chunks as text, and the limit of sums.
#![tactic(auto)]

mod counter;
mod laws;
mod limits;
mod lines;
mod list;
mod memory;
mod number;
mod refs;
mod short;
mod unpack;

pub use counter::Counter;
pub use laws::{numbers_have_one_text, texts_have_one_ref, texts_spell_numbers};
pub use limits::{LIMIT, fits_product, fits_sum};
pub use lines::{cut_line, cut_word};
pub use list::List;
pub use memory::Memory;
pub use number::{read_number, read_unsigned, write_number};
pub use refs::{Id, Ref, TaskNo, read_ref, write_ref};
pub use short::Short;
pub use unpack::Unpack;
