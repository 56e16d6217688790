//! The laws of the bytes of chunks. Each function does nothing: its contract is the law, which `specs/Laws.antt` states.

ghost use Rattle.chunk_codec.specs.Laws.{BytesHaveOneChunk, NothingFollows};

/// No two sound chunks have the same bytes. So what `unpack` reads from what `pack` gave is the chunk that was packed.
pub fn bytes_have_one_chunk()
    ensures { BytesHaveOneChunk }
{}

/// The bytes of no sound chunk are the front of another's.
pub fn nothing_follows_a_chunk()
    ensures { NothingFollows }
{}
