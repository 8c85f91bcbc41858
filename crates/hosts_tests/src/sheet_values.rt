// Values of a sheet: texts, strict equality and truth.
use std::test::Fail;
use values::sheet_value::SheetValue;
use values::text::Text;

const LETTERS: [u8; 17] = *b"abcdefghijklmnopq";

#[test]
fn text_lengths(rt: HostRuntime) -> Result<(), Fail> {
    assert!(rt; Text::new(&[]).is_none());
    assert!(rt; Text::new(&LETTERS).is_none());
    for len in 1..=16 {
        let bytes = &LETTERS[..len];
        let Some(text) = Text::new(bytes) else {
            return Err(Fail::new("1 to 16 bytes make a text"));
        };
        assert_eq!(rt; text.len(), len);
        for (i, byte) in bytes.iter().enumerate() {
            assert_eq!(rt; text.byte(i), Some(*byte));
        }
        assert_eq!(rt; text.byte(len), None);
    }
    Ok(())
}

// Whether the texts of two lists of bytes are strictly equal, if both are texts.
fn are_equal(a: &[u8], b: &[u8]) -> Option<bool> {
    let a = SheetValue::Text(Text::new(a)?);
    let b = SheetValue::Text(Text::new(b)?);
    Some(a.strictly_equals(&b))
}

// Texts that differ in the last byte, or in length by a byte 0, are not equal.
#[test]
fn text_equality(rt: HostRuntime) {
    let bytes = [b'a'; 16];
    for len in 1..=16 {
        let mut other = bytes;
        other[len - 1] = 0;
        let (text, changed) = (&bytes[..len], &other[..len]);
        assert_eq!(rt; are_equal(text, text), Some(true));
        assert_eq!(rt; are_equal(text, changed), Some(false));
        if len > 1 {
            assert_eq!(rt; are_equal(changed, &other[..len - 1]), Some(false));
            assert_eq!(rt; are_equal(text, &bytes[..len - 1]), Some(false));
        }
    }
}

// Each value is equal to itself alone, but not-a-number to nothing, and minus zero to 0.
#[test]
fn strict_equality(rt: HostRuntime) -> Result<(), Fail> {
    let Some(one) = Text::new(b"1") else {
        return Err(Fail::new("a byte makes a text"));
    };
    // each value and its truth
    let table = [
        (SheetValue::Yes, true),
        (SheetValue::No, false),
        (SheetValue::Number(0), false),
        (SheetValue::MinusZero, false),
        (SheetValue::NotANumber, false),
        (SheetValue::Number(1), true),
        (SheetValue::Number(i32::MIN), true),
        (SheetValue::Text(one), true),
    ];
    for (i, (value, truth)) in table.iter().enumerate() {
        assert_eq!(rt; value.is_truthy(), *truth);
        for (j, (other, _)) in table.iter().enumerate() {
            let zeros = (i == 2 || i == 3) && (j == 2 || j == 3);
            let expected = (i == j && i != 4) || zeros;
            assert_eq!(rt; value.strictly_equals(other), expected);
        }
    }
    Ok(())
}
