ghost use Rattle.std.specs.Prelude.{◌≡◌, ℕ, ◌≤◌};

/// The content of a chunk.
pub trait Payload: Sized + Drop + Send + Sync {
    /// How many children a chunk with this content has.
    ghost arity: { Self → ℕ };

    /// Which contents are sound: those that a registered chunk may have.
    ghost sound: { Self → Type 0 };

    /// How many children a chunk with this content has, null ones counted.
    fn arity(&self) -> u32
        ensures value { result ≡ arity self.now }
        ensures few { result ≤ 4 };

    /// No content has more than four children.
    ghost few_children: { (content : Self) → arity content ≤ 4 };
}
