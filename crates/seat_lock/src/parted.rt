ghost use Rattle.std.specs.Prelude.{List};

/// A value that has a part for each seat of its lock.
pub trait Parted {
    /// What a part is: plain data. No value of it needs to be made.
    type Part;

    /// The parts by seat number, which counts from 0. There are as many as the lock has seats.
    ghost parts: { Self → List Self.Part };
}
