// Expected values are lua5.4's; that a byte too many is invalid is the manual's.
use std::test::Fail;
use text_functions::Builder;
use utf8_core::{Decoded, Step, back, count, decode, forward, push_code, sequence_start, walk};

#[test]
fn numbers_are_encoded_and_decoded(rt: HostRuntime) -> Result<(), Fail> {
    let mut text = Builder::new(rt.alloc());
    push_code(&mut text, 72)?;
    push_code(&mut text, 228)?;
    push_code(&mut text, 8364)?;
    push_code(&mut text, 0x10ffff)?;
    push_code(&mut text, 0x7fffffff)?;
    let bytes = text.finish();
    let expected = b"H\xc3\xa4\xe2\x82\xac\xf4\x8f\xbf\xbf\xfd\xbf\xbf\xbf\xbf\xbf";
    assert_eq!(rt; bytes.as_slice(), expected.as_slice());
    let euro = Decoded {
        code: 8364,
        more: 2,
    };
    assert_eq!(rt; decode(b"\xe2\x82\xac!", false), Some(euro));
    assert_eq!(rt; decode(b"\xfd\xbf\xbf\xbf\xbf\xbf", false), None);
    assert_eq!(rt; decode(b"\xc0\x80", true), None);
    assert_eq!(rt; decode(b"\xed\xa0\x80", false), None);
    Ok(())
}

#[test]
fn counting_stops_at_a_broken_byte(rt: HostRuntime) {
    assert_eq!(rt; count(b"ab\xc3\xa4", 0, 4, false), Ok(3));
    assert_eq!(rt; count(b"ab\xff", 0, 3, false), Err(2));
    assert_eq!(rt; count(b"ab\xff", 0, 2, false), Ok(2));
}

#[test]
fn places_are_those_of_sequences(rt: HostRuntime) {
    let text = b"a\xc3\xa4\xe2\x82\xacz";
    assert_eq!(rt; forward(text, 2, 0), Some(3));
    assert_eq!(rt; forward(text, 5, 0), None);
    assert_eq!(rt; back(text, 2, 7), Some(3));
    assert_eq!(rt; sequence_start(text, 5), 3);
    assert_eq!(rt; walk(text, 1, false), Step::Code(228));
    assert_eq!(rt; walk(text, 7, false), Step::End);
    assert_eq!(rt; walk(b"\xc3\xa4\xa4", 0, false), Step::Invalid);
}
