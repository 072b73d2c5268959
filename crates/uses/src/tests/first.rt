use bech32::{Bech32m, Correction, Hrp, Mended, correct, decode, encode, nearest};
use std::alloc::Global;
use std::test::Fail;

const TEXT: &str = "abc14w46h2at4w46h2at4w46h2at4w46h2at958ngu";

#[test]
fn encodes_and_decodes(rt: HostRuntime) -> Result<(), Fail> {
    let alloc = rt.alloc();
    let hrp = Hrp::parse("abc")?;
    let text = encode::<Bech32m>(alloc, hrp, &[0xab; 20])?;
    assert_eq!(rt; text.as_str(), TEXT);
    let (part, bytes) = decode(alloc, &text)?;
    assert!(rt; part == hrp && bytes.as_slice() == [0xab; 20].as_slice());
    Ok(())
}

fn corrected(alloc: Global, text: &str) -> Option<Mended> {
    match correct::<Bech32m, _>(alloc, text, &[]) {
        Ok(Correction::Mended(mended)) => Some(mended),
        _ => None,
    }
}

// Whether it is the one text with two other characters.
fn is_near(alloc: Global, text: &str, right: &str) -> bool {
    match nearest::<Bech32m, _>(alloc, text, &[], 2) {
        Ok(near) => near.texts.len() == 1 && near.texts[0].text.as_str() == right,
        Err(_) => false,
    }
}

#[test]
fn mends(rt: HostRuntime) -> Result<(), Fail> {
    let one = "abc14w46h2at4w46h2at4w46h2at4w46h2at958ngq";
    let mended = corrected(rt.alloc(), one).ok_or("no correction")?;
    assert_eq!(rt; mended.text.as_str(), TEXT);
    let two = "abc14w46h2at4w46h2at4w46h2at4w46h2aq958ngq";
    assert!(rt; is_near(rt.alloc(), two, TEXT));
    Ok(())
}
