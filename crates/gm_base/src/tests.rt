//! What no clause says: that calls succeed with ample memory, and numbers as people write them.

use crate::{
    ChunkCopy, Edges, Key, Name, NameError, Results, Sources, TOP, Tag, Values, Words, digits,
    number,
};
use std::test::Fail;

#[test]
fn lists_take_what_is_pushed(rt: HostRuntime) -> Result<(), Fail> {
    let mut values = Values::new(rt.alloc());
    values.push(7)?;
    values.push(TOP)?;
    assert_eq!(rt; values.as_slice(), [7, TOP].as_slice());
    assert_eq!(rt; values.len(), 2);
    assert_eq!(rt; values.iter().copied().max(), Some(TOP));
    let again = Values::from_vec(values.into_vec());
    assert_eq!(rt; again.as_slice(), [7, TOP].as_slice());
    let mut sources = Sources::new(rt.alloc());
    sources.push(3)?;
    assert_eq!(rt; sources.as_slice(), [3].as_slice());
    let results = Results::new(rt.alloc());
    assert!(rt; results.is_empty());
    Ok(())
}

#[test]
fn words_take_what_is_pushed(rt: HostRuntime) -> Result<(), Fail> {
    let mut words = Words::new(rt.alloc());
    assert!(rt; words.is_empty());
    words.push("run")?;
    words.push("")?;
    assert_eq!(rt; words.len(), 2);
    assert_eq!(rt; words.get(0), "run");
    assert_eq!(rt; words.get(1), "");
    assert_eq!(rt; words.as_slice().len(), 2);
    Ok(())
}

#[test]
fn names_are_made(rt: HostRuntime) -> Result<(), Fail> {
    let name = Name::new(rt.alloc(), b"a-1.x_Z")?;
    assert_eq!(rt; name.as_slice(), b"a-1.x_Z".as_slice());
    for text in [
        b"".as_slice(),
        b"a b",
        b"a#",
        b"012345678901234567890123456789012",
    ] {
        assert_eq!(rt;
            Name::new(rt.alloc(), text).err(),
            Some(NameError::BadName),
            "{text:?}"
        );
    }
    Ok(())
}

#[test]
fn numbers_are_read_and_written(rt: HostRuntime) {
    let table = [
        (b"0".as_slice(), Some(0)),
        (b"007", Some(7)),
        (b"18446744073709551615", Some(TOP)),
        (b"18446744073709551616", None),
        (b"000000000000000000001", None),
        (b"", None),
        (b"+1", None),
        (b"1 ", None),
    ];
    for (text, value) in table {
        assert_eq!(rt; number(text, TOP), value, "{text:?}");
    }
    assert_eq!(rt; number(b"5", 4), None);
    let mut into = [b'x'; 39];
    assert_eq!(rt; digits(1_048_576, &mut into), 7);
    let front = &into[..8];
    assert_eq!(rt; front, b"1048576x".as_slice());
}

fn crosses_threads<T: Send + Sync + Drop>(_value: T) {}

#[test]
fn a_copy_may_be_shared(rt: HostRuntime) {
    let key = Key {
        chunk: 3,
        tag: Tag::Own(2),
    };
    let edges = Edges::new(rt.alloc());
    assert!(rt; edges.is_empty());
    crosses_threads(ChunkCopy { key, edges });
}
