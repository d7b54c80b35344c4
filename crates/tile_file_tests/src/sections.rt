//! Words and halves, written and read.
use section_grammar::{cut, half, place, push_half, push_record, push_word, push_zeros, word};
use std::test::Fail;

#[test]
fn numbers(rt: HostRuntime) -> Result<(), Fail> {
    let mut out = Vec::new(rt.alloc());
    push_word(&mut out, 0x0807_0605_0403_0201)?;
    push_half(&mut out, 0x0c0b_0a09)?;
    push_zeros(&mut out, 2)?;
    assert_eq!(rt;
        out.as_slice(),
        [1, 2, 3, 4, 5, 6, 7, 8, 9, 10, 11, 12, 0, 0].as_slice()
    );
    Ok(())
}

#[test]
fn fronts(rt: HostRuntime) -> Result<(), Fail> {
    let bytes: [u8; 9] = [2, 1, 0, 0, 0, 0, 0, 1, 7];
    assert_eq!(rt;
        (word(&bytes), half(&bytes)),
        (0x0100_0000_0000_0102, 0x102)
    );
    let (front, rest) = cut(&bytes, 8);
    assert_eq!(rt;
        (front.len(), place(9, rest), cut(rest, 5).0.len()),
        (8, 8, 1)
    );
    Ok(())
}

#[test]
fn records(rt: HostRuntime) -> Result<(), Fail> {
    let mut out = Vec::new(rt.alloc());
    push_record(&mut out, [1, 2 << 56, 3, 0xff00])?;
    let bytes: [u8; 32] = [
        1, 0, 0, 0, 0, 0, 0, 0, 0, 0, 0, 0, 0, 0, 0, 2, 3, 0, 0, 0, 0, 0, 0, 0, 0, 255, 0, 0, 0, 0,
        0, 0,
    ];
    assert_eq!(rt; out.as_slice(), bytes.as_slice());
    Ok(())
}
