//! The checksum of codex32 with the calls for any checksum.

ghost use Rattle.std.specs.Prelude.{IsTrue};

use crate::tests::compare::same;
use bech32_checksum::Checksum;
use bech32_correction::{
    CorrectError, CorrectableError, Correction, Corrector, ErrorIterator, Mended, correct,
};
use bech32_decode::CheckedHrpstring;
use bech32_gf::gf32::Fe32;
use codex32::Codex32;
use std::alloc::Global;
use std::process::Abort;
use testing_tools::codes::Degree13;
use testing_tools::known::{EIGHT, EIGHT_ERRORS, FOUR, FOUR_ERRORS};

const TEXT: &str = "ms10testsxxxxxxxxxxxxxxxxxxxxxxxxxx4nzvca9cmczlw";

const BYTES: &[u8; 48] = b"ms10testsxxxxxxxxxxxxxxxxxxxxxxxxxx4nzvca9cmczlw";

// Of codex32 it is proved.
fn codex32_is_sane() -> bool
    ensures { IsTrue result }
{
    Codex32::sanity_check()
}

// Locations with the values to add there.
type Listing<'a> = &'a [(usize, Fe32)];

// Whether the erasures are below the window, and there was memory for them.
fn is_given<Ck: Checksum>(corrector: &mut Corrector<Ck>, erasures: &[usize]) -> bool {
    if corrector.are_within(erasures) {
        corrector.add_erasures(erasures).is_ok()
    } else {
        false
    }
}

// Whether the errors are just these.
fn gives(errors: ErrorIterator, want: Listing) -> bool {
    let mut errors = errors;
    let mut is_same = true;
    for error in want {
        is_same = errors.next() == Some(*error) && is_same;
    }
    errors.next().is_none() && is_same
}

// Whether just these errors were found, or nothing.
fn is_found(found: Option<ErrorIterator>, want: Option<Listing>) -> bool {
    let Some(errors) = found else {
        return want.is_none();
    };
    match want {
        Some(want) => gives(errors, want),
        None => false,
    }
}

// Whether just these errors are listed, or nothing is; not where memory runs out.
fn lists<Ck: Checksum>(corrector: &Corrector<Ck>, want: Option<Listing>) -> bool {
    match corrector.bch_errors() {
        Ok(found) => is_found(found, want),
        Err(_) => false,
    }
}

// What finds the errors in a text that the checksum refuses.
fn corrector_of<Ck: Checksum>(alloc: Global, text: &str) -> Option<Corrector<Ck>> {
    if !Ck::sanity_check() {
        return None;
    }
    match CheckedHrpstring::new::<Ck>(text) {
        Ok(_) => None,
        Err(error) => error.correction_context::<Ck, Global>(alloc),
    }
}

// The bound of a corrector, and its window.
fn bounds_of<Ck: Checksum>(corrector: &Corrector<Ck>) -> (usize, usize) {
    (corrector.singleton_bound(), corrector.window())
}

// Those of a corrector that may be there.
fn bounds_by<Ck: Checksum>(found: Option<Corrector<Ck>>) -> Option<(usize, usize)> {
    match found {
        Some(corrector) => Some(bounds_of(&corrector)),
        None => None,
    }
}

// Whether just these errors are listed with some erasures, or nothing is.
fn lists_with<Ck: Checksum>(
    corrector: &mut Corrector<Ck>,
    erasures: &[usize],
    want: Option<Listing>,
) -> bool {
    is_given(corrector, erasures) && lists(corrector, want)
}

// The same of a corrector that may be there.
fn is_listed_by<Ck: Checksum>(
    found: Option<Corrector<Ck>>,
    erasures: &[usize],
    want: Option<Listing>,
) -> bool {
    match found {
        Some(mut corrector) => lists_with(&mut corrector, erasures, want),
        None => false,
    }
}

// The same of a text that the checksum refuses.
fn is_listed(alloc: Global, text: &str, erasures: &[usize], want: Option<Listing>) -> bool {
    is_listed_by(corrector_of::<Codex32>(alloc, text), erasures, want)
}

const LAST_EIGHT: &[usize] = &[0, 1, 2, 3, 4, 5, 6, 7];

const LAST_NINE: &[usize] = &[0, 1, 2, 3, 4, 5, 6, 7, 8];

// The text with an element added at a location.
fn altered(rt: &impl Abort, location: usize, value: Fe32) -> [u8; 48] {
    let mut bytes = *BYTES;
    let place = 47usize.checked_sub(location).expect(rt, "a location");
    let byte = bytes.get_mut(place).expect(rt, "a character");
    let right = Fe32::from_char(char::from(*byte)).expect(rt, "an element");
    *byte = (right + value).to_char() as u8;
    bytes
}

// Whether just this is listed for the text with an element added at a location.
fn is_single_error_listed(rt: &impl Abort, alloc: Global, location: usize, value: Fe32) -> bool {
    let bytes = altered(rt, location, value);
    let text = str::from_utf8(&bytes).expect(rt, "a text");
    is_listed(alloc, text, &[], Some(&[(location, value)]))
}

#[test]
fn each_single_error(rt: HostRuntime) {
    let mut count = 0u32;
    for location in 0..45usize {
        for value in Fe32::iter_alpha() {
            if value != Fe32::Q {
                let is_listed = is_single_error_listed(&rt, rt.alloc(), location, value);
                same(&rt, &(location, value, is_listed), &(location, value, true));
                count = count.saturating_add(1);
            }
        }
    }
    same(&rt, &count, &1395);
}

// Whether a text was mended to this one.
fn mends<C>(said: &Result<Correction<Mended, C>, CorrectError>, want: &str) -> bool {
    match said {
        Ok(Correction::Mended(mended)) => mended.text.as_str() == want,
        _ => false,
    }
}

const CORRECTED: &[(&str, &[usize], bool)] = &[
    (FOUR_ERRORS, &[], true),
    (FOUR_ERRORS, &[44, 0], true),
    (EIGHT_ERRORS, LAST_EIGHT, true),
    (EIGHT_ERRORS, LAST_NINE, false),
];

// BIP-93, Error correction: four errors, or eight erasures; a code of 93 characters. For longer
// texts its roots do not serve.
#[test]
fn listed_errors(rt: HostRuntime) {
    let sane = [codex32_is_sane(), Degree13::<94>::sanity_check()];
    let is_accepted = CheckedHrpstring::new::<Codex32>(TEXT).is_ok();
    same(&rt, &(sane, is_accepted), &([true, false], true));
    let bounds = bounds_by(corrector_of::<Codex32>(rt.alloc(), FOUR_ERRORS));
    same(&rt, &bounds, &Some((8, 93)));
    let [zero, w, x, last] = FOUR;
    let listed = [
        is_listed(rt.alloc(), FOUR_ERRORS, &[], Some(&[w, zero, x, last])),
        is_listed(rt.alloc(), FOUR_ERRORS, &[44, 0], Some(&FOUR)),
        is_listed(rt.alloc(), EIGHT_ERRORS, LAST_EIGHT, Some(&EIGHT)),
        is_listed(rt.alloc(), EIGHT_ERRORS, LAST_NINE, None),
    ];
    same(&rt, &listed, &[true; 4]);
    for &(text, erasures, want) in CORRECTED {
        let is_corrected = mends(&correct::<Codex32, _>(rt.alloc(), text, erasures), TEXT);
        same(
            &rt,
            &(text, erasures, is_corrected),
            &(text, erasures, want),
        );
    }
}
