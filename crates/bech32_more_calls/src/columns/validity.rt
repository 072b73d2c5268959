//! The validity of what was decoded or encoded.

ghost use Rattle.std.specs.Prelude.{◌≡◌, ◌<◌, ◌≤◌, ◌+◌, ◌/◌, ◌^◌, IfNone, IfSome, length};
ghost use Rattle.bech32_more_calls.specs.columns.Validity.{PutsValidity, accepted_of, validity_bits, is_accepted};

// How many numbers are 0.
fn count_accepted(numbers: &[u8]) -> usize
    ensures { result ≡ accepted_of numbers.now }
{
    let mut accepted = 0;
    for number in numbers {
        if *number == 0 {
            accepted += 1;
        }
    }
    accepted
}

// 1 where a number is 0.
#[inline(always)]
fn accepted_bit(number: u8) -> u8
    ensures value { result ≡ is_accepted number }
    ensures few { result ≤ 1 }
{
    if number == 0 { 1 } else { 0 }
}

// The bits of at most eight numbers, the first the lowest.
fn byte_of(numbers: &[u8]) -> u8
    requires { length numbers.now ≤ 8 }
    ensures { result ≡ validity_bits numbers.now }
{
    let mut byte = 0u8;
    let mut i = numbers.len();
    while i > 0 {
        i -= 1;
        byte = 2 * byte + accepted_bit(numbers[i]);
    }
    byte
}

// How many bytes hold `count` bits.
fn bytes_for(count: usize) -> usize
    ensures { result ≡ (count + 7) / 8 }
{
    let whole = count / 8;
    if count % 8 == 0 { whole } else { whole + 1 }
}

// Puts the bits of numbers into a buffer that has room for them.
fn put_bits(numbers: &[u8], validity: &mut [u8])
    requires { (length numbers.now + 7) / 8 ≤ length validity.old }
    ensures { PutsValidity numbers.now validity.old validity.new }
{
    let count = numbers.len();
    for j in 0..bytes_for(count) {
        let end = if count - 8 * j < 8 { count } else { 8 * j + 8 };
        validity[j] = byte_of(&numbers[8 * j..end]);
    }
}

/// Puts a bit for each number, eight to a byte and the lowest first, which is 1 where the number is
/// 0, and returns how many are; the bits behind the last are 0. Where the buffer has no room for
/// them, it puts nothing.
pub fn put_validity(numbers: &[u8], validity: &mut [u8]) -> Option<usize>
    ensures value { IfSome result (λ accepted. (accepted ≡ accepted_of numbers.now)
        × PutsValidity numbers.now validity.old validity.new) }
    ensures room { IfNone result (length validity.old < (length numbers.now + 7) / 8) }
    ensures same { IfNone result (validity.new ≡ validity.old) }
{
    if validity.len() < bytes_for(numbers.len()) {
        return None;
    }
    put_bits(numbers, validity);
    Some(count_accepted(numbers))
}
