use super::*;
use std::alloc::Global;
use std::process::Abort;
use std::test::Fail;

// A text and its lines.
type Cut<'a> = (&'a str, &'a [&'a str]);

fn cut_each(rt: &(impl Abort + Alloc<A = Global>), table: &[Cut]) {
    for (text, parts) in table {
        let Ok(spans) = lines(rt.alloc(), text.as_bytes()) else {
            assert!(rt; false, "no memory");
            return;
        };
        assert!(rt; spans.len() == parts.len(), "at {text}");
        for (span, part) in spans.iter().zip(parts.iter()) {
            assert!(rt;
                text.as_bytes().get(span.from..span.to) == Some(part.as_bytes()),
                "at {text}"
            );
        }
    }
}

#[test]
fn lines_of_texts(rt: HostRuntime) {
    let table: [Cut; 7] = [
        ("", &[]),
        ("\n", &[""]),
        ("a\n\nb", &["a", "", "b"]),
        ("a\r\n\r\n", &["a", ""]),
        ("a\rb\r\r\nc\r", &["a\rb\r", "c\r"]),
        ("\r\n", &[""]),
        ("stamp 0 2\ncut\n", &["stamp 0 2", "cut"]),
    ];
    cut_each(&rt, &table);
}

#[test]
fn numbers_are_written(rt: HostRuntime) {
    let mut text = Vec::new(rt.alloc());
    for n in [0, 10, u64::MAX] {
        assert!(&rt; push_u64(&mut text, n).is_ok());
        assert!(&rt; text.push(b' ').is_ok());
    }
    assert!(&rt; text.as_slice() == "0 10 18446744073709551615 ".as_bytes());
    assert!(&rt; read_u64(b"18446744073709551615") == Some(u64::MAX));
    assert!(&rt; read_u64(b"007").is_none());
}
