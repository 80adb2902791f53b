//! A small text, walked over. What is expected was worked out by hand.

use crate::{means_something, next_line, next_statement, next_word};

/// CR LF, a line without a word, a comment, and a last line without a line end.
const TEXT: &[u8] = b"# x\r\n job\ta \r\n\r\nwait 3";

#[test]
fn walks_over_lines(rt: HostRuntime) {
    let expected: [(&[u8], bool); 4] = [
        (b"# x\r", false),
        (b" job\ta \r", true),
        (b"\r", false),
        (b"wait 3", true),
    ];
    let mut rest = TEXT;
    for (line, means) in expected {
        assert!(rt; !rest.is_empty(), "before {line:?}");
        let (found, more) = next_line(rest);
        assert_eq!(rt; found, line);
        assert_eq!(rt; means_something(found), means, "{line:?}");
        rest = more;
    }
    assert!(rt; rest.is_empty(), "a fifth line");
}

#[test]
fn walks_over_statements_and_words(rt: HostRuntime) {
    let expected: [[&[u8]; 2]; 2] = [[b"job", b"a"], [b"wait", b"3"]];
    let mut rest = TEXT;
    for words in expected {
        let (line, more) = next_statement(rest).expect(&rt, "a statement");
        let mut line = line;
        for word in words {
            let (found, behind) = next_word(line).expect(&rt, "a word");
            assert_eq!(rt; found, word);
            line = behind;
        }
        assert!(rt; next_word(line).is_none(), "a third word");
        rest = more;
    }
    assert!(rt; next_statement(rest).is_none(), "a third statement");
}
