//! The words of build lines, or what is shown of the first that is refused; the lines of scripts.

use build_script::{piece_of, script_lines, words_of};
use file_tree::{PlanFault, Reason};
use object_name::Bytes;
use std::alloc::Global;
use std::test::Fail;

/// Lines, and their words, each behind a bar.
const WORDS: [(&[u8], &[u8]); 16] = [
    (b"gcc -DX='a b' \"c d\" # note", b"|gcc|-DX=a b|c d"),
    (b"", b""),
    (b" \t # $(x) `y` ' \0", b""),
    (b"''", b"|"),
    (b"''#", b"|#"),
    (b"a#b", b"|a#b"),
    (b"a\\ b c", b"|a b|c"),
    (b"\"a\\\"b\\\\c\\$d\\`e\\f\"", b"|a\"b\\c$d`e\\f"),
    (b"'a\\b\"$`;'", b"|a\\b\"$`;"),
    (b"\"a'b;&|<>()*?[~#\"", b"|a'b;&|<>()*?[~#"),
    (b"\\;\\&\\'\\\"\\#", b"|;&'\"#"),
    (b"a=\"\"b''c", b"|a=bc"),
    (b"x\\\\", b"|x\\"),
    (b"\\# a", b"|#|a"),
    (b"a\t\tb ", b"|a|b"),
    (b"]{}!=%^,:@+", b"|]{}!=%^,:@+"),
];

/// Lines, the number of the word that is refused, and what is shown of it.
const REFUSED: [(&[u8], u32, &[u8]); 17] = [
    (b"echo a > b", 2, b">"),
    (b"echo a>b c", 1, b"a>b"),
    (b"a;b", 0, b"a;b"),
    (b"a 'b c", 1, b"'b"),
    (b"a \"b c\"$d e", 1, b"\"b"),
    (b"a \"b$c\"", 1, b"\"b$c\""),
    (b"a \"`b`\"", 1, b"\"`b`\""),
    (b"a b\\", 1, b"b\\"),
    (b"a \\", 1, b"\\"),
    (b"\"a\\", 0, b"\"a\\"),
    (b"a \0", 1, b"\0"),
    (b"'\0'", 0, b"'\0'"),
    (b"\\\0", 0, b"\\\0"),
    (b"  ~/x # '", 0, b"~/x"),
    (b"a b?c*", 1, b"b?c*"),
    (b"(cd d)", 0, b"(cd"),
    (b"a && b", 1, b"&&"),
];

/// Scripts, and their lines with their numbers.
const LINES: [(&[u8], &[u8]); 9] = [
    (b"", b"1:;"),
    (b"a", b"1:a;"),
    (b"a\nb\n", b"1:a;2:b;3:;"),
    (b"a\\\nb\nc", b"1:ab;3:c;"),
    (b"a\\\n", b"1:a;"),
    (b"a\\", b"1:a\\;"),
    (b"a\\\\\nb", b"1:a\\b;"),
    (b"\\\n\n\\\n\\\nx\\y\nz", b"1:;3:x\\y;6:z;"),
    (b"# a\\\n b", b"1:# a b;"),
];

/// The words of a line, each behind a bar.
fn described(alloc: Global, line: &[u8]) -> Result<Bytes, Fail> {
    let words = words_of(alloc, line).ok().ok_or("words")?;
    let mut text = Bytes::new(alloc);
    for word in words.as_slice() {
        text.append(b"|")?;
        text.append(word.as_slice())?;
    }
    Ok(text)
}

/// The lines of a script, each behind its number, which has one digit.
fn listed(alloc: Global, script: &[u8]) -> Result<Bytes, Fail> {
    let lines = script_lines(alloc, script)?;
    let mut text = Bytes::new(alloc);
    for line in lines.as_slice() {
        text.append(&[b'0' + (line.number % 10) as u8])?;
        text.append(b":")?;
        text.append(line.text.as_slice())?;
        text.append(b";")?;
    }
    Ok(text)
}

#[test]
fn words_of_lines(rt: HostRuntime) -> Result<(), Fail> {
    let alloc = rt.alloc();
    for (line, words) in WORDS {
        assert_eq!(rt; described(alloc, line)?.as_slice(), words);
    }
    Ok(())
}

#[test]
fn shell_words_are_refused(rt: HostRuntime) -> Result<(), Fail> {
    let alloc = rt.alloc();
    for (line, at, piece) in REFUSED {
        let fault = words_of(alloc, line).err().ok_or("a refusal")?;
        assert_eq!(rt;
            fault,
            PlanFault::Refused {
                at,
                reason: Reason::Shell
            }
        );
        assert_eq!(rt; piece_of(line, at), piece);
    }
    Ok(())
}

#[test]
fn lines_are_joined(rt: HostRuntime) -> Result<(), Fail> {
    let alloc = rt.alloc();
    for (script, lines) in LINES {
        assert_eq!(rt; listed(alloc, script)?.as_slice(), lines);
    }
    Ok(())
}
