ghost use Rattle.std.specs.Prelude.{◌≡◌, ◌+◌, ◌≤◌, ◌++◌, length};

use std::marker::Model;

const ROOM: usize = 64;

/// A text of at most 64 bytes, kept without memory.
#[derive(Drop)]
pub struct Short {
    bytes: [u8; ROOM],
    len: usize,
}

impl Model for Short {
    ghost use Rattle.std.specs.Prelude.{List, ℕ, take, ◌≤◌};

    ghost Value = { List ℕ };

    ghost view = { λ short. take short.len short.bytes };

    ghost invariant = { λ short. short.len ≤ 64 };
}

impl Short {
    /// Keeps a text of at most 64 bytes.
    pub fn of(text: &[u8]) -> Short
        requires { length text.now ≤ 64 }
        ensures { result ≡ text.now }
    {
        let mut bytes = [0; ROOM];
        bytes[..text.len()].copy_from_slice(text);
        Short {
            bytes,
            len: text.len(),
        }
    }

    /// Adds a text at the end.
    pub fn append(&mut self, more: &[u8])
        requires { length self.old + length more.now ≤ 64 }
        ensures { self.new ≡ self.old ++ more.now }
    {
        let len = self.len + more.len();
        self.bytes[self.len..len].copy_from_slice(more);
        self.len = len;
    }

    /// The bytes of the text.
    pub fn as_bytes(&self) -> &[u8]
        ensures value { result.now ≡ self.now }
        ensures short { length result.now ≤ 64 }
    {
        &self.bytes[..self.len]
    }
}
