//! The parts of lines: written and read back, and other texts.

use cdc_codec::{
    flag, line, number, number_16, number_32, number_64, skip, write_flagged, write_named,
    write_spaced, write_text,
};
use std::io;
use std::test::Fail;

// What is written is read back, part after part.
#[test]
fn a_line_is_read_back(rt: HostRuntime) -> Result<(), Fail> {
    let mut text = Vec::new(rt.alloc());
    push_line(&mut text)?;
    assert!(rt;
        text.as_slice()
            == b"amounts 340282366920938463463374607431768211455 0 yes\nnext no".as_slice()
    );
    let (greatest, rest) = number(skip(text.as_slice(), 7));
    assert!(rt; greatest == u128::MAX);
    let (none, rest) = number_16(rest);
    assert!(rt; none == 0);
    let (yes, rest) = flag(rest);
    assert!(rt; yes);
    let (empty, rest) = line(rest);
    assert!(rt; empty.is_empty());
    assert!(rt; rest == b"next no".as_slice());
    Ok(())
}

fn push_line(text: &mut Vec<u8>) -> io::Result<()> {
    write_named(text, "amounts", u128::MAX)?;
    write_spaced(text, 0u16)?;
    write_flagged(text, "", true)?;
    write_text(text, "\n")?;
    write_flagged(text, "next", false)
}

// A number that is too large is read as 0, and so is a text without digits.
#[test]
fn other_numbers_are_0(rt: HostRuntime) -> Result<(), Fail> {
    let (wide, rest) = number(b" 340282366920938463463374607431768211456,");
    assert!(rt; wide == 0 && rest == b",".as_slice());
    let (long, _) = number_64(b" 18446744073709551616");
    assert!(rt; long == 0);
    let (longest, _) = number_64(b" 18446744073709551615");
    assert!(rt; longest == u64::MAX);
    let (middle, _) = number_32(b" 4294967296");
    assert!(rt; middle == 0);
    let (short, _) = number_16(b" 65536");
    assert!(rt; short == 0);
    let (none, rest) = number_64(b" x1");
    assert!(rt; none == 0 && rest == b"x1".as_slice());
    Ok(())
}
