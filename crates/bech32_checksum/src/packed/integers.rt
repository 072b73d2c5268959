//! Rows in an integer: of six elements in a `u32`, of twelve in a `u64`, of 25 in a `u128`.

ghost use Rattle.std.specs.Prelude.{refl};
ghost use Rattle.std.proofs.Common.{arith};
ghost use Rattle.bech32_checksum.specs.laws.PackedLaws as packed;

use crate::packed::PackedFe32;

impl PackedFe32 for u32 {
    ghost number = { λ x. x };

    ghost ONE = { 1 };

    ghost WIDTH = { 6 };

    const ONE: Self = 1;

    const WIDTH: usize = 6;

    #[inline]
    fn unpack(&self, n: usize) -> u8 {
        ((*self >> (n * 5)) & 0x1f_u32) as u8
    }

    #[inline]
    fn mul_by_x_then_add(&mut self, degree: usize, add: u8) -> u8 {
        let highest = self.unpack(degree - 1);
        *self = ((*self & ((1 << ((degree - 1) * 5)) - 1)) << 5) + u32::from(add);
        highest
    }

    ghost size_law = { Prim.omega arith };

    ghost wide_law = { Prim.omega arith };

    ghost one_law = { λ _. refl };

    ghost empty_law = { λ x h. Prim.cc };

    ghost can_bitxor_law = { λ x y. tt };

    ghost bitxor_law = { λ x y r h. h };

    ghost sum_law = { packed.xor_digits };

    ghost same_number_law = { λ x y h. h };

    ghost eq_law = { packed.number_eq };
}

impl PackedFe32 for u64 {
    ghost number = { λ x. x };

    ghost ONE = { 1 };

    ghost WIDTH = { 12 };

    const ONE: Self = 1;

    const WIDTH: usize = 12;

    #[inline]
    fn unpack(&self, n: usize) -> u8 {
        ((*self >> (n * 5)) & 0x1f_u64) as u8
    }

    #[inline]
    fn mul_by_x_then_add(&mut self, degree: usize, add: u8) -> u8 {
        let highest = self.unpack(degree - 1);
        *self = ((*self & ((1 << ((degree - 1) * 5)) - 1)) << 5) + u64::from(add);
        highest
    }

    ghost size_law = { Prim.omega arith };

    ghost wide_law = { Prim.omega arith };

    ghost one_law = { λ _. refl };

    ghost empty_law = { λ x h. Prim.cc };

    ghost can_bitxor_law = { λ x y. tt };

    ghost bitxor_law = { λ x y r h. h };

    ghost sum_law = { packed.xor_digits };

    ghost same_number_law = { λ x y h. h };

    ghost eq_law = { packed.number_eq };
}

impl PackedFe32 for u128 {
    ghost number = { λ x. x };

    ghost ONE = { 1 };

    ghost WIDTH = { 25 };

    const ONE: Self = 1;

    const WIDTH: usize = 25;

    #[inline]
    fn unpack(&self, n: usize) -> u8 {
        ((*self >> (n * 5)) & 0x1f_u128) as u8
    }

    #[inline]
    fn mul_by_x_then_add(&mut self, degree: usize, add: u8) -> u8 {
        let highest = self.unpack(degree - 1);
        *self = ((*self & ((1 << ((degree - 1) * 5)) - 1)) << 5) + u128::from(add);
        highest
    }

    ghost size_law = { Prim.omega arith };

    ghost wide_law = { Prim.omega arith };

    ghost one_law = { λ _. refl };

    ghost empty_law = { λ x h. Prim.cc };

    ghost can_bitxor_law = { λ x y. tt };

    ghost bitxor_law = { λ x y r h. h };

    ghost sum_law = { packed.xor_digits };

    ghost same_number_law = { λ x y h. h };

    ghost eq_law = { packed.number_eq };
}
