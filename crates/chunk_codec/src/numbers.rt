ghost use Rattle.std.specs.Prelude.{◌≡◌, ◌≤◌, ◌<◌, ◌^◌, length};
ghost use Rattle.std.specs.Int.{w64, w128, cast_unsigned};
ghost use Rattle.chunk_codec.specs.Bytes.{big_endian, long_bytes};
ghost use Rattle.chunk_codec.specs.Sound.{greatest};

// The four bytes of a number.
pub(crate) fn bytes_of_32(number: u32) -> [u8; 4]
    ensures { result ≡ big_endian 4 number }
{
    number.to_be_bytes()
}

// The eight bytes of a signed number.
pub(crate) fn bytes_of_64(number: i64) -> [u8; 8]
    ensures { result ≡ big_endian 8 (cast_unsigned w64 number) }
{
    number.cast_unsigned().to_be_bytes()
}

// The sixteen bytes of a number.
pub(crate) fn bytes_of_128(number: u128) -> [u8; 16]
    ensures { result ≡ big_endian 16 number }
{
    number.to_be_bytes()
}

// The sixteen bytes of a signed number.
pub(crate) fn bytes_of_long(number: i128) -> [u8; 16]
    ensures { result ≡ long_bytes number }
{
    bytes_of_128(number.cast_unsigned())
}

// The number that some bytes spell, the highest first.
fn number(bytes: &[u8]) -> u128
    requires { length bytes.now ≤ 16 }
    ensures bytes { big_endian (length bytes.now) result ≡ bytes.now }
    ensures bound { result < 256 ^ length bytes.now }
{
    let mut number = 0u128;
    for byte in bytes {
        number = number * 256 + u128::from(*byte);
    }
    number
}

// The number that four bytes spell.
pub(crate) fn number_of_32(bytes: &[u8]) -> u32
    requires { length bytes.now ≡ 4 }
    ensures { big_endian 4 result ≡ bytes.now }
{
    number(bytes) as u32
}

// The signed number that eight bytes spell.
pub(crate) fn number_of_64(bytes: &[u8]) -> i64
    requires { length bytes.now ≡ 8 }
    ensures { big_endian 8 (cast_unsigned w64 result) ≡ bytes.now }
{
    (number(bytes) as u64).cast_signed()
}

// The number that sixteen bytes spell.
pub(crate) fn number_of_128(bytes: &[u8]) -> u128
    requires { length bytes.now ≡ 16 }
    ensures { big_endian 16 result ≡ bytes.now }
{
    number(bytes)
}

// The signed number that sixteen bytes spell.
pub(crate) fn number_of_long(bytes: &[u8]) -> i128
    requires { length bytes.now ≡ 16 }
    ensures { long_bytes result ≡ bytes.now }
{
    number_of_128(bytes).cast_signed()
}

// The greatest absolute value of some numbers.
pub(crate) fn greatest(numbers: &[i128]) -> u128
    ensures { result ≡ greatest numbers.now }
{
    let mut greatest = 0;
    for number in numbers {
        greatest = number.unsigned_abs().max(greatest);
    }
    greatest
}
