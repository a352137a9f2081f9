use super::*;
use std::test::Fail;

#[test]
fn reads_pairs_of_digits(rt: HostRuntime) -> Result<(), Fail> {
    let rows = [
        ("00", Some([0x00].as_slice())),
        ("d0F1", Some([0xD0, 0xF1].as_slice())),
        ("", None),
        ("0", None),
        ("000", None),
        ("0G", None),
        ("00 ", None),
    ];
    for (digits, bytes) in rows {
        let read = read_hex(rt.alloc(), digits.as_bytes())?;
        match (read, bytes) {
            (Some(read), Some(bytes)) => assert_eq!(rt; read.as_slice(), bytes),
            (read, bytes) => assert!(rt; read.is_none() && bytes.is_none(), "{digits}"),
        }
    }
    Ok(())
}

#[test]
fn splits_lines(rt: HostRuntime) {
    let text = b"a\n\nb";
    let (first, rest) = split_line(text);
    assert_eq!(rt; first, b"a".as_slice());
    assert_eq!(rt; rest, b"\nb".as_slice());
    let (last, rest) = split_line(b"b");
    assert_eq!(rt; last, b"b".as_slice());
    assert!(rt; rest.is_empty());
    assert_eq!(rt;
        cut_at(b"ab cd", b' '),
        (b"ab".as_slice(), b"cd".as_slice())
    );
    assert!(rt; is_skipped(b"") && is_skipped(b"# x") && !is_skipped(b"x"));
}
