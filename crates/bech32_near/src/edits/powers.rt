//! The remainders of the terms of one power of x.

ghost use Rattle.std.specs.Prelude.{◌≡◌, ◌+◌, ℕ, List, cond, replicate};
ghost use Rattle.bech32_gf.specs.Fe32 as fe32;
ghost use Rattle.bech32_gf.specs.declared.gf32.Fe32.{Fe32 as Element};
ghost use Rattle.bech32_checksum.specs.Code.{IsResidueOf};
ghost use Rattle.bech32_near.specs.edits.Walks.{ArePowers, IsWordOf, times_power};

use crate::edits::residue::{sum_of, word_of};
use bech32_checksum::{Checksum, Engine};
use bech32_gf::gf32::Fe32;

// The remainders of this many neighbouring powers of x, added up, times 1, 2, 4, 8 and 16.
#[derive(Drop)]
pub(crate) struct Powers<Ck: Checksum> {
    one: Engine<Ck>,
    two: Engine<Ck>,
    four: Engine<Ck>,
    eight: Engine<Ck>,
    sixteen: Engine<Ck>,
}

// An engine that was given one element this many times, and nothing above it.
#[inline]
fn engine_with<Ck: Checksum>(element: Fe32, count: usize) -> Engine<Ck>
    ensures { IsResidueOf Ck.MidstateRepr.number Ck.code result (replicate count element) }
{
    let mut engine = Engine::<Ck>::zero();
    for _i in 0..count {
        engine.input_fe(element);
    }
    engine
}

// The sum of two remainders, where the second is to be added.
#[inline]
fn sum_if<Ck: Checksum>(
    sum: Ck::MidstateRepr,
    bit: bool,
    term: Ck::MidstateRepr,
) -> Ck::MidstateRepr
    ensures { (n : ℕ) (count : ℕ) (x : Element) (y : Element)
        → IsWordOf Ck.MidstateRepr.number Ck.code sum (times_power n (replicate count x))
        → IsWordOf Ck.MidstateRepr.number Ck.code term (times_power n (replicate count y))
        → IsWordOf Ck.MidstateRepr.number Ck.code result
        (times_power n (replicate count (cond bit (fe32.add x y) x))) }
{
    if bit { sum_of::<Ck>(sum, term) } else { sum }
}

impl<Ck: Checksum> Powers<Ck> {
    // Of the lowest powers.
    #[inline]
    pub(crate) fn new(count: usize) -> Self
        ensures { ArePowers Ck.MidstateRepr.number Ck.code 0 count
            result.one result.two result.four result.eight result.sixteen }
    {
        Powers {
            one: engine_with(Fe32::P, count),
            two: engine_with(Fe32::Z, count),
            four: engine_with(Fe32::Y, count),
            eight: engine_with(Fe32::G, count),
            sixteen: engine_with(Fe32::S, count),
        }
    }

    // Goes on to the powers above.
    #[inline]
    pub(crate) fn raise(&mut self)
        ensures { (n : ℕ) (count : ℕ) → ArePowers Ck.MidstateRepr.number Ck.code n count
            self.old.one self.old.two self.old.four self.old.eight self.old.sixteen
            → ArePowers Ck.MidstateRepr.number Ck.code (n + 1) count
            self.new.one self.new.two self.new.four self.new.eight self.new.sixteen }
    {
        self.one.input_fe(Fe32::Q);
        self.two.input_fe(Fe32::Q);
        self.four.input_fe(Fe32::Q);
        self.eight.input_fe(Fe32::Q);
        self.sixteen.input_fe(Fe32::Q);
    }

    // The remainder of the powers times an element.
    #[inline]
    pub(crate) fn times(&self, element: Fe32) -> Ck::MidstateRepr
        ensures { (n : ℕ) (count : ℕ) → ArePowers Ck.MidstateRepr.number Ck.code n count
            self.now.one self.now.two self.now.four self.now.eight self.now.sixteen
            → IsWordOf Ck.MidstateRepr.number Ck.code result
            (times_power n (replicate count element)) }
    {
        let bits = element.to_u8();
        let one = word_of(&self.one);
        let none = sum_of::<Ck>(one, one);
        let sum = sum_if::<Ck>(none, bits % 2 == 1, one);
        let sum = sum_if::<Ck>(sum, (bits / 2) % 2 == 1, word_of(&self.two));
        let sum = sum_if::<Ck>(sum, (bits / 4) % 2 == 1, word_of(&self.four));
        let sum = sum_if::<Ck>(sum, (bits / 8) % 2 == 1, word_of(&self.eight));
        sum_if::<Ck>(sum, (bits / 16) % 2 == 1, word_of(&self.sixteen))
    }
}
