ghost use Rattle.std.specs.Prelude.{◌≡◌};
ghost use Rattle.cht_io.specs.Faults.{risen};

/// The count after one more fault, or after one more call. It stands still at its last value.
pub(crate) fn one_more(count: u64) -> u64
    ensures { result ≡ risen count }
{
    count.saturating_add(1)
}
