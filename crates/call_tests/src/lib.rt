//! Tests of the public calls of the lower crates, one file for each: each call once on its happy path, with memory enough, each
//! generic one at a concrete type, and what devices that fail leave.
#![tactic(auto)]

#[cfg(test)]
mod cache_calls;
#[cfg(test)]
mod codec_calls;
#[cfg(test)]
mod dense_calls;
#[cfg(test)]
mod id_calls;
#[cfg(test)]
mod io_calls;
#[cfg(test)]
mod leaf_block_calls;
#[cfg(test)]
mod load_calls;
#[cfg(test)]
mod market_calls;
#[cfg(test)]
mod name_state_calls;
#[cfg(test)]
mod store_calls;
#[cfg(test)]
mod task_graph_calls;
#[cfg(test)]
mod task_type_calls;
#[cfg(test)]
mod word_calls;
