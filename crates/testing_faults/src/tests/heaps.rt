//! Which memory calls ask for.

use crate::tests::compare::same;
use crate::tests::correction::corrector_of;
use crate::tests::turns::Heap;
use bech32::primitives::correction::{Corrector, Question, listing_of_text};
use bech32::{Bech32, Checksum, CorrectError, Correction, Mended};
use bech32_correction::mended_by;
use std::alloc::{AllocError, Global};
use testing_tools::memory::Refusing;

// An address of BIP-173, and the same with one wrong character.
const ADDRESS: &str = "bc1qw508d6qejxtdg4y5r3zarvary0c5xw7kv8f3t4";

const MISTYPED: &str = "bc1qw508d6qejxtdg4y5r3zarvary0c5xw7kv8f3t5";

// Whether what a text was mended to is the address.
fn is_address(mended: Result<Mended<Heap<'_>>, AllocError>) -> Result<bool, CorrectError> {
    Ok(mended?.text.as_str() == ADDRESS)
}

// Whether a text is mended to the address with memory of the heap, where the listing is of another
// one.
fn is_mended(heap: Heap<'_>, other: Heap<'_>, text: &str) -> Result<bool, CorrectError> {
    match listing_of_text::<Bech32, Heap>(other, text, &[])? {
        Correction::Mended(listing) => is_address(mended_by(heap, text, listing)),
        _ => Ok(false),
    }
}

#[test]
fn texts_in_memory_of_the_given_allocator(rt: HostRuntime) {
    let heap = Refusing::new(rt.alloc(), 1000);
    let other = Refusing::new(rt.alloc(), 1);
    same(&rt, &is_mended(&heap, &other, MISTYPED).ok(), &Some(true));
    same(&rt, &other.has_refused(), &false);
}

// Whether a corrector says what it lists.
fn lists<Ck: Checksum>(corrector: &Corrector<Ck, Heap<'_>>) -> bool {
    corrector.bch_errors().is_ok()
}

// Whether one that is given these erasures says what it lists.
fn lists_when_given<Ck: Checksum>(corrector: &Corrector<Ck, Heap<'_>>, erasures: &[usize]) -> bool {
    match corrector.with(erasures) {
        Ok(Some(erased)) => lists(&erased),
        Ok(None) => false,
        Err(_) => false,
    }
}

// Whether one that is asked with these erasures, and up to this location, says what it lists.
fn lists_up_to<Ck: Checksum>(
    corrector: &Corrector<Ck, Heap<'_>>,
    erasures: &[usize],
    highest: Option<usize>,
) -> bool {
    corrector.listing(Question { erasures, highest }).is_ok()
}

// Whether a corrector with these erasures says what it lists, asked in each way.
fn lists_with<Ck: Checksum>(corrector: &Corrector<Ck, Heap<'_>>, erasures: &[usize]) -> bool {
    lists_when_given(corrector, erasures)
        && lists_up_to(corrector, erasures, None)
        && lists_up_to(corrector, erasures, Some(usize::MAX))
}

// The same of one that may be there.
fn says_what_it_lists<Ck: Checksum>(
    corrector: Option<Corrector<Ck, Heap<'_>>>,
    erasures: &[usize],
) -> bool {
    match corrector {
        Some(corrector) => lists_with(&corrector, erasures),
        None => false,
    }
}

// Whether that of the mistyped address does so with no request for memory.
fn lists_without_memory(alloc: Global, erasures: &[usize]) -> bool {
    let heap = Refusing::new(alloc, 1);
    let corrector = corrector_of::<Bech32, _>(&heap, MISTYPED);
    says_what_it_lists(corrector, erasures) && !heap.has_refused()
}

// What a checksum of six characters lists is put in place: nothing is asked for in vain either.
#[test]
fn listings_without_a_request(rt: HostRuntime) {
    let rows: [&[usize]; 5] = [&[], &[3], &[0, 1], &[0, 1, 2], &[1, 2, 4]];
    for erasures in rows {
        same(
            &rt,
            &(erasures, lists_without_memory(rt.alloc(), erasures)),
            &(erasures, true),
        );
    }
}
