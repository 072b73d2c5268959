//! Code over any field, at the three fields of this repository and that of the integers modulo 7.

ghost use Rattle.std.specs.Prelude.{◌≡◌, ◌+◌, Some, fold};
ghost use Rattle.bech32_gf.specs.Powers.{powers_of};

use crate::tests::compare::same_items;
use bech32_gf::field::{ExtensionField, Field, MultiplicativeOrder};
use bech32_gf::gf32::Fe32;
use bech32_gf_ext::{Fe1024, Fe32768};
use testing_tools::seven::Seven;

// x^2 - y^2, which is (x + y)(x - y).
fn difference_of_squares<F: Field>(x: F, y: F) -> F
    ensures { result ≡ F.ops.mul (F.ops.add x y) (F.ops.add x (F.ops.neg y)) }
{
    let x_squared = x * x;
    let y_squared = y * y;
    x_squared - y_squared
}

// The order of the generator, which is that of the field.
fn order_of_generator<F: Field>() -> usize
    ensures { result ≡ F.MULTIPLICATIVE_ORDER }
{
    let generator = F::GENERATOR;
    generator.multiplicative_order()
}

// The sum of the powers 0 to n.
fn sum_of_powers<F: Field>(x: F, n: usize) -> F
    ensures { result ≡ fold F.ops.add F.ops.zero (powers_of F.ops x 0 (n + 1)) }
{
    x.powers_range(0, n).sum::<F>()
}

// An element of the base field, there and back.
fn there_and_back<E: ExtensionField>(x: E::BaseField) -> Option<E::BaseField>
    ensures { result ≡ Some x }
{
    E::from(x).to_base()
}

// Whether general code gives the right values at a field: the difference of the squares of two
// elements, the sum of an element's powers to an exponent, that of all powers of the generator, and
// the order of this; and whether the constant is what the function returns whose contract is the
// list of divisors.
fn general_code_at<F: Field>(
    [x, y, difference]: [F; 3],
    (base, last, sum): (F, usize, F),
    order: usize,
) -> [bool; 5] {
    [
        difference_of_squares(x, y) == difference,
        sum_of_powers(base, last) == sum,
        sum_of_powers(F::GENERATOR, order.saturating_sub(1)) == F::ZERO,
        order_of_generator::<F>() == order,
        F::MULTIPLICATIVE_ORDER_FACTORS == F::order_factors(),
    ]
}

#[test]
fn general_code_at_each_field(rt: HostRuntime) {
    let elements = [Fe32::C, Fe32::E, Fe32::P];
    let pairs = [
        Fe1024::new([Fe32::M, Fe32::E]),
        Fe1024::new([Fe32::J, Fe32::C]),
        Fe1024::new([Fe32::J, Fe32::P]),
    ];
    let triples = [
        Fe32768::EXT_ELEM,
        Fe32768::GENERATOR,
        Fe32768::new([Fe32::E, Fe32::Q, Fe32::F]),
    ];
    let (pair, triple) = (pairs[0], triples[1]);
    let found = [
        general_code_at(elements, (Fe32::Z, 3, Fe32::_0), 31),
        general_code_at(pairs, (pair, 3, Fe1024::new([Fe32::_8, Fe32::A])), 1023),
        general_code_at(
            triples,
            (triple, 3, Fe32768::new([Fe32::V, Fe32::H, Fe32::K])),
            32767,
        ),
        general_code_at(
            [5, 3, 2].map(Seven::new),
            (Seven::new(2), 1, Seven::new(3)),
            6,
        ),
    ];
    same_items(&rt, &found, &[[true; 5]; 4]);
    let back = [
        there_and_back::<Fe32>(Fe32::C),
        there_and_back::<Fe1024>(Fe32::C),
        there_and_back::<Fe32768>(Fe32::C),
    ];
    same_items(&rt, &back, &[Some(Fe32::C); 3]);
}
