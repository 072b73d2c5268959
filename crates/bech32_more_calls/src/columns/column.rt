//! Columns and their rows.

ghost use Rattle.std.specs.Prelude.{◌≡◌, ◌≤◌, ◌<◌, ◌+◌, ◌*◌, ◌/◌, ◌%◌, ◌^◌, ◌↔◌, ◌⊎◌, IsTrue, MatchOption, MatchResult, None, Some, Ok, Err, drop, length, take};
ghost use Rattle.std.specs.Int.{from_le_bytes, w32, w64};
ghost use Rattle.bech32_more_calls.specs.columns.Rows.{HasRows, bit, bytes_of_row, cut, found, row_of, row_of_size, row_of_width, offset_width, without_zeros};

/// A column: row i has the bytes from offset i up to offset i + 1, or those from `i * width` up to
/// `(i + 1) * width`.
///
/// Layout 1 has offsets of 32 bits, layout 2 of 64, the lowest byte first. Layout 3 has rows of one
/// width, and so has layout 4, where a row ends before the zeros at its end. Bit i of `validity`,
/// the lowest bit of each byte first, is 0 where row i is null; where there are no bytes of it, no
/// row is.
#[repr(C)]
#[derive(Clone, Copy)]
pub struct Column<'a> {
    /// The bytes of all rows.
    pub bytes: &'a [u8],
    /// The offsets, as bytes.
    pub offsets: &'a [u8],
    /// A bit for each row.
    pub validity: &'a [u8],
    /// How many rows there are.
    pub rows: usize,
    /// The bytes of each row, where they have one width.
    pub width: usize,
    /// How the column is laid out.
    pub layout: u32,
}

// The bytes from one place up to another, where they lie in these, and the other is not above the
// most.
#[inline(always)]
fn part_of(most: usize, bytes: &[u8], start: usize, end: usize) -> Option<&[u8]>
    ensures { MatchOption result
        (cut most bytes.now start end ≡ None)
        (λ r. cut most bytes.now start end ≡ Some r.now) }
{
    if start > end || end > bytes.len().min(most) {
        return None;
    }
    Some(&bytes[start..end])
}

// The number of four bytes from a place on, the lowest first.
#[inline(always)]
fn number_of_4(bytes: &[u8], at: usize) -> usize
    requires { at + 4 ≤ length bytes.now }
    ensures { result ≡ from_le_bytes w32 (take 4 (drop at bytes.now)) }
{
    let b = &bytes[at..at + 4];
    u32::from_le_bytes([b[0], b[1], b[2], b[3]]) as usize
}

// The same of eight bytes.
#[inline(always)]
fn number_of_8(bytes: &[u8], at: usize) -> usize
    requires { at + 8 ≤ length bytes.now }
    ensures { result ≡ from_le_bytes w64 (take 8 (drop at bytes.now)) }
{
    let b = &bytes[at..at + 8];
    u64::from_le_bytes([b[0], b[1], b[2], b[3], b[4], b[5], b[6], b[7]]) as usize
}

// The offset from a place on, which has four bytes or eight.
#[inline(always)]
fn offset_at(offsets: &[u8], size: usize, at: usize) -> usize
    requires size { (size ≡ 4) ⊎ (size ≡ 8) }
    requires inside { at + size ≤ length offsets.now }
    ensures { result ≡ from_le_bytes (offset_width size) (take size (drop at offsets.now)) }
{
    if size == 4 {
        number_of_4(offsets, at)
    } else {
        number_of_8(offsets, at)
    }
}

// The bytes of row i by offsets of one size, none of them above the most.
#[inline(always)]
fn row_by<'a>(
    bytes: &'a [u8],
    offsets: &[u8],
    size: usize,
    most: usize,
    i: usize,
) -> Option<&'a [u8]>
    requires size { (size ≡ 4) ⊎ (size ≡ 8) }
    requires row { i < usize.MAX }
    ensures { MatchOption result
        (row_of_size size most bytes.now offsets.now i ≡ None)
        (λ r. row_of_size size most bytes.now offsets.now i ≡ Some r.now) }
{
    if i + 1 >= offsets.len() / size {
        return None;
    }
    let start = offset_at(offsets, size, size * i);
    part_of(most, bytes, start, offset_at(offsets, size, size * (i + 1)))
}

// The bytes of row i where all have one width.
#[inline(always)]
fn row_by_width(bytes: &[u8], width: usize, i: usize) -> Option<&[u8]>
    ensures { MatchOption result
        (row_of_width bytes.now width i ≡ None)
        (λ r. row_of_width bytes.now width i ≡ Some r.now) }
{
    let start = i.checked_mul(width)?;
    let end = start.checked_add(width)?;
    part_of(usize::MAX, bytes, start, end)
}

// Bytes without the zeros at their end.
fn before_zeros(bytes: &[u8]) -> &[u8]
    ensures { result.now ≡ without_zeros bytes.now }
{
    let mut end = bytes.len();
    while end > 0 && bytes[end - 1] == 0 {
        end -= 1;
    }
    &bytes[..end]
}

// The bit of a byte above this many lowest ones.
#[inline(always)]
fn bit_in(byte: u8, below: usize) -> u8
    requires { below < 8 }
    ensures { result ≡ byte / 2 ^ below % 2 }
{
    byte >> below & 1
}

// Bit i, the lowest of each byte first.
#[inline(always)]
fn bit_at(bytes: &[u8], i: usize) -> u8
    requires { i / 8 < length bytes.now }
    ensures { result ≡ bit bytes.now i }
{
    bit_in(bytes[i / 8], i % 8)
}

impl<'a> Column<'a> {
    /// Whether the column has a layout, and as many rows from one on.
    #[inline]
    pub fn has_rows(&self, first: usize, count: usize) -> bool
        ensures { IsTrue result ↔ HasRows self.now first count }
    {
        1 <= self.layout && self.layout <= 4 && first <= self.rows && count <= self.rows - first
    }

    // The bytes of row i, where they are in the column.
    #[inline(always)]
    fn bytes_at(&self, i: usize) -> Option<&'a [u8]>
        requires { i < usize.MAX }
        ensures { MatchOption result
            (bytes_of_row self.now i ≡ None)
            (λ r. bytes_of_row self.now i ≡ Some r.now) }
    {
        match self.layout {
            1 => row_by(self.bytes, self.offsets, 4, 0x7FFF_FFFF, i),
            2 => row_by(self.bytes, self.offsets, 8, 0x7FFF_FFFF_FFFF_FFFF, i),
            3 => row_by_width(self.bytes, self.width, i),
            _ => match row_by_width(self.bytes, self.width, i) {
                Some(bytes) => Some(before_zeros(bytes)),
                None => None,
            },
        }
    }

    // The same, or the number of a row that is not there.
    #[inline(always)]
    fn found_at(&self, i: usize) -> Result<&'a [u8], u8>
        requires { i < usize.MAX }
        ensures { MatchResult result
            (λ r. found (bytes_of_row self.now i) ≡ Ok r.now)
            (λ n. found (bytes_of_row self.now i) ≡ Err n) }
    {
        match self.bytes_at(i) {
            Some(bytes) => Ok(bytes),
            None => Err(4),
        }
    }

    /// The bytes of row i.
    ///
    /// # Errors
    ///
    /// The number of a row that is null, 1, or not in the column, 4.
    #[inline(always)]
    pub fn row(&self, i: usize) -> Result<&'a [u8], u8>
        requires { i < usize.MAX }
        ensures { MatchResult result
            (λ r. row_of self.now i ≡ Ok r.now)
            (λ n. row_of self.now i ≡ Err n) }
    {
        if self.validity.is_empty() {
            return self.found_at(i);
        }
        if i / 8 >= self.validity.len() {
            return Err(4);
        }
        if bit_at(self.validity, i) == 0 {
            return Err(1);
        }
        self.found_at(i)
    }
}
