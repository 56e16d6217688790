// How many identifiers a body has, counted where the body stands.
ghost use Rattle.std.specs.Prelude.{◌≡◌, ◌+◌, ◌^◌, ◌<◌, Some, IsSome};
ghost use Rattle.chunk_store.specs.Contents.{value_at, with_value};
ghost use Rattle.chunk_refs.specs.Deleting.{one_more, one_less, is_last};

use crate::parts::{Chunk, Spot};
use chunk_store::Store;
use task_types::Payload;

/// Counts one identifier more for the body under a key.
#[tactic(auto, using(chunk_store::proofs::Writes::writes))]
pub(crate) fn count_more<C: Payload>(store: &mut Store<Chunk<C>>, key: u64)
    requires there { IsSome (value_at store.old key) }
    requires few { (chunk : _) → value_at store.old key ≡ Some chunk → chunk.names < 2 ^ 63 }
    ensures { (chunk : _) → value_at store.old key ≡ Some chunk → store.new ≡ with_value store.old key (one_more chunk) }
{
    if let Some(chunk) = store.get_mut(key) {
        chunk.names += 1;
    }
}

/// Counts one identifier less for the body under a key. A body that has none left leads on to the first of the chain. Answers whether it
/// has none left.
#[tactic(auto, using(chunk_store::proofs::Writes::writes))]
pub(crate) fn count_less<C: Payload>(
    store: &mut Store<Chunk<C>>,
    key: u64,
    first: Option<Spot>,
) -> bool
    requires there { IsSome (value_at store.old key) }
    requires some { (chunk : _) → value_at store.old key ≡ Some chunk → 0 < chunk.names }
    ensures less { (chunk : _) → value_at store.old key ≡ Some chunk → store.new ≡ with_value store.old key (one_less chunk first) }
    ensures last { (chunk : _) → value_at store.old key ≡ Some chunk → result ≡ is_last chunk }
{
    match store.get_mut(key) {
        None => false,
        Some(chunk) => lessen(chunk, first),
    }
}

// The same for a body.
fn lessen<C: Payload>(chunk: &mut Chunk<C>, first: Option<Spot>) -> bool
    requires { 0 < chunk.old.names }
    ensures less { chunk.new ≡ one_less chunk.old first }
    ensures last { result ≡ is_last chunk.old }
{
    let left = chunk.names - 1;
    chunk.names = left;
    if left == 0 {
        chunk.next = first;
    }
    left == 0
}
