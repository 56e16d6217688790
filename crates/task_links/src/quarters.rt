// Numbers of 128 bits in quarters, so that nothing that keeps one is aligned to more than 4 bytes.
ghost use Rattle.std.specs.Prelude.{◌≡◌, ◌+◌, ◌*◌, ◌^◌};
ghost use Rattle.task_links.specs.Kept.{joined, joined_if};

/// A number of 128 bits in quarters: 2^32, 2^64 and 2^96 times the others, and the low one.
#[derive(Clone, Copy)]
pub struct Quarters {
    pub low: u32,
    pub second: u32,
    pub third: u32,
    pub high: u32,
}

const QUARTER: u64 = 0x1_0000_0000;

const HALF: u128 = 0x1_0000_0000_0000_0000;

// Two quarters as one number.
#[inline(always)]
fn half(low: u32, high: u32) -> u64
    ensures { result ≡ high * 2 ^ 32 + low }
{
    high as u64 * QUARTER + low as u64
}

// The quarters of two numbers of 64 bits.
#[inline(always)]
fn joint(low: u64, high: u64) -> Quarters
    ensures { joined result ≡ high * 2 ^ 64 + low }
{
    Quarters {
        low: (low % QUARTER) as u32,
        second: (low / QUARTER) as u32,
        third: (high % QUARTER) as u32,
        high: (high / QUARTER) as u32,
    }
}

/// A number in quarters.
#[inline(always)]
pub(crate) fn split(number: u128) -> Quarters
    ensures { joined result ≡ number }
{
    joint((number % HALF) as u64, (number / HALF) as u64)
}

/// The number of four quarters.
#[inline(always)]
pub(crate) fn whole(number: Quarters) -> u128
    ensures { result ≡ joined number }
{
    let low = half(number.low, number.second);
    let high = half(number.third, number.high);
    high as u128 * HALF + low as u128
}

/// A number that may be missing, in quarters, and whether it is there.
#[inline(always)]
pub(crate) fn split_if(number: Option<u128>) -> (Quarters, bool)
    ensures { joined_if result.0 result.1 ≡ number }
{
    match number {
        None => (joint(0, 0), false),
        Some(number) => (split(number), true),
    }
}

/// The number of four quarters, if it is there.
#[inline(always)]
pub(crate) fn whole_if(number: Quarters, there: bool) -> Option<u128>
    ensures { result ≡ joined_if number there }
{
    if there { Some(whole(number)) } else { None }
}
