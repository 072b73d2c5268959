//! The remainders of elements times powers of x.

use bech32_checksum::sums;

// Of each element times x^8, of each times x^9, and so on, packed.
pub(crate) const POWERS: [[u64; 32]; 8] = [
    sums!(0xf5dee51989, 0xa9fdca3312, 0x1bab10e32d, 0x3706b1677a, 0x644d626ffd;),
    sums!(0x5ac1aae998, 0xb581d1f719, 0x2941334f3b, 0x5280f63f7f, 0xa501ec7bf7;),
    sums!(0x3310c37ee1, 0x6621865ce2, 0xc6539c1dc4, 0xcee5bcbb88, 0xdfdbfdf230;),
    sums!(0xd04eb50c1f, 0xe89d6a1817, 0x993850b007, 0x7a22a1600e, 0xf41742641c;),
    sums!(0xf360b8b875, 0xae9365f0c3, 0x1f645b4586, 0x34daa2af0c, 0x63f5455b38;),
    sums!(0x8d0a1ed618, 0x5854298d39, 0xb0a8479a5b, 0x29028f31bf, 0x52050ae357;),
    sums!(0x30d05db574, 0x61a0afeac1, 0xc3134bf4a2, 0xce2413cd44, 0xde5a273e88;),
    sums!(0xa85d6c7ebf, 0x18b85cdc77, 0x3122ad9cc7, 0x62174fb98e, 0xc42c1bf31c;),
];
