ghost use Rattle.std.specs.Prelude.{◌≡◌, IfOk};

use crate::payload::Payload;
use crate::shared::Shared;
use cht_ids::Memory;
use std::alloc::Global;
use std::marker::Model;

/// The registered content of one chunk, as a shared value. It is sound, and it is never changed.
#[derive(Drop)]
pub struct Body<C: Payload> {
    shared: Shared<C>,
}

impl<C: Payload> Model for Body<C> {
    ghost Value = { C };

    ghost view = { λ body. body.shared };

    ghost invariant = { λ body. C.sound body.shared };
}

impl<C: Payload> Body<C> {
    /// A body with this content, which has to be sound.
    pub fn new(alloc: Global, content: C) -> Result<Body<C>, Memory>
        requires { C.sound content }
        ensures { IfOk result (λ body. body ≡ content) }
    {
        Ok(Body {
            shared: Shared::new(alloc, content)?,
        })
    }

    /// The content. It is sound.
    pub fn content(&self) -> &C
        ensures whole { result.now ≡ self.now }
        ensures sound { C.sound self.now }
    {
        self.shared.get()
    }

    /// The content as the value that is shared. It is sound.
    pub fn shared(&self) -> &Shared<C>
        ensures whole { result.now ≡ self.now }
        ensures sound { C.sound self.now }
    {
        &self.shared
    }
}
