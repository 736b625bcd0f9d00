use std::test::Fail;
use text_pieces::{number_between, push_left, push_number, push_right, push_right_number};

#[test]
fn pieces_stand_in_their_columns(rt: HostRuntime) -> Result<(), Fail> {
    let mut text = Vec::new(rt.alloc());
    push_left(&mut text, 4, b"ab")?;
    push_right(&mut text, 4, b"cd")?;
    push_right_number(&mut text, 3, 7)?;
    push_right(&mut text, 1, b"wide")?;
    push_number(&mut text, 1200)?;
    push_number(&mut text, u64::MAX)?;
    push_right_number(&mut text, 24, 1_000_000_000_000)?;
    let wanted = b"ab    cd  7wide120018446744073709551615           1000000000000";
    assert_eq!(rt; text.as_slice(), wanted.as_slice());
    Ok(())
}

/// Digits, a range, and their number, if it is in the range.
type Number = (&'static [u8], u64, u64, Option<u64>);

const NUMBERS: &[Number] = &[
    (b"18446744073709551615", 0, u64::MAX, Some(u64::MAX)),
    (
        b"1000000000000",
        1,
        1_000_000_000_000,
        Some(1_000_000_000_000),
    ),
    (b"18446744073709551616", 0, u64::MAX, None),
    (b"0123456789", 0, u64::MAX, None),
];

#[test]
fn numbers_go_up_to_the_greatest(rt: HostRuntime) {
    for (digits, least, most, wanted) in NUMBERS {
        assert_eq!(rt; number_between(digits, *least, *most), *wanted);
    }
}
