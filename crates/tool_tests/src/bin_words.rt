//! What command lines of ar, ranlib, strip, cp, mv and rm ask for, or the refusal of a word.

use crate::words::{append_word, words};
use file_tree::{PlanFault, Reason};
use model_binutils::{BinPlan, plan};
use object_name::Bytes;
use std::alloc::Global;
use std::test::Fail;
use thunk_codec::Path;

/// Command lines, the place of the word that is refused, and why. A space stands between two words.
const REFUSED: [(&[u8], u32, Reason); 34] = [
    (b"ls", 0, Reason::Unknown),
    (b"gcc a.c", 0, Reason::Unknown),
    (b"ar", 1, Reason::NoValue),
    (b"ar r", 2, Reason::NoValue),
    (b"ar rc lib.a", 3, Reason::NoValue),
    (b"ar c lib.a a.o", 1, Reason::Unknown),
    (b"ar - lib.a a.o", 1, Reason::Unknown),
    (b"ar --r lib.a a.o", 1, Reason::Unknown),
    (b"ar rx lib.a a.o", 1, Reason::Unknown),
    (b"ar r -x a.o", 2, Reason::Unknown),
    (b"ar r ../lib.a a.o", 2, Reason::BadValue),
    (b"ar s lib.a a.o", 3, Reason::Unknown),
    (b"ar r lib.a a.o -b.o", 4, Reason::Unknown),
    (b"ar r lib.a d/a-name-of-16-byt", 3, Reason::BadValue),
    (b"ranlib", 1, Reason::NoValue),
    (b"ranlib -D", 2, Reason::NoValue),
    (b"ranlib -D -D lib.a", 2, Reason::Unknown),
    (b"ranlib lib.a lib.b", 2, Reason::Unknown),
    (b"ranlib /lib.a", 1, Reason::BadValue),
    (b"strip", 1, Reason::NoValue),
    (b"strip -s -g", 3, Reason::NoValue),
    (b"strip -o", 2, Reason::NoValue),
    (b"strip -o out", 3, Reason::NoValue),
    (b"strip -o out a b", 4, Reason::Unknown),
    (b"strip -oout a", 1, Reason::Unknown),
    (b"strip a -s", 2, Reason::Unknown),
    (b"cp a", 2, Reason::NoValue),
    (b"cp a ./a b", 2, Reason::Same),
    (b"cp a b c", 3, Reason::Unknown),
    (b"mv a ..", 2, Reason::BadValue),
    (b"rm", 1, Reason::NoValue),
    (b"rm x", 1, Reason::Unknown),
    (b"rm -f", 2, Reason::NoValue),
    (b"rm -f x -y", 3, Reason::Unknown),
];

/// Command lines, and what they ask for.
const PLANNED: [(&[u8], &[u8]); 15] = [
    (b"ar rcs ./lib.a a.o d/b.o", b"ar rs lib.a a.o d/b.o"),
    (
        b"ar -vcDr lib.a a-name-of-15-by",
        b"ar r lib.a a-name-of-15-by",
    ),
    (b"ar s lib.a", b"ar s lib.a"),
    (b"ar ss lib.a", b"ar s lib.a"),
    (b"ranlib d/../lib.a", b"ranlib lib.a"),
    (b"ranlib -D lib.a", b"ranlib lib.a"),
    (b"strip -g -s a b a", b"strip a b a"),
    (b"strip -s -o out a", b"strip out: a"),
    (b"cp a d/a", b"cp a d/a"),
    (b"mv a b", b"mv a b"),
    (b"rm -f a a", b"rm a a"),
    (b"echo -n .. a", b"nothing"),
    (b"true", b"nothing"),
    (b": x", b"nothing"),
    (b"mkdir -p /d", b"nothing"),
];

/// Appends a space and a path.
fn append_path(text: &mut Bytes, path: &Path) -> Result<(), Fail> {
    append_word(text, path.text())
}

/// Appends paths.
fn append_paths(text: &mut Bytes, paths: &[Path]) -> Result<(), Fail> {
    for path in paths {
        append_path(text, path)?;
    }
    Ok(())
}

/// Appends the letters of `ar`.
fn append_letters(text: &mut Bytes, replace: bool, table: bool) -> Result<(), Fail> {
    text.append(b"ar ")?;
    if replace {
        text.append(b"r")?;
    }
    if table {
        text.append(b"s")?;
    }
    Ok(())
}

/// What a plan asks for, as the table has it.
fn described(alloc: Global, plan: &BinPlan) -> Result<Bytes, Fail> {
    let mut text = Bytes::new(alloc);
    match plan {
        BinPlan::Ar {
            replace,
            table,
            archive,
            members,
        } => {
            append_letters(&mut text, *replace, *table)?;
            append_path(&mut text, archive)?;
            append_paths(&mut text, members.as_slice())?;
        }
        BinPlan::Ranlib(path) => {
            text.append(b"ranlib")?;
            append_path(&mut text, path)?;
        }
        BinPlan::Strip { output, files } => {
            text.append(b"strip")?;
            if let Some(path) = output {
                append_path(&mut text, path)?;
                text.append(b":")?;
            }
            append_paths(&mut text, files.as_slice())?;
        }
        BinPlan::Copy { from, to } => {
            text.append(b"cp")?;
            append_path(&mut text, from)?;
            append_path(&mut text, to)?;
        }
        BinPlan::Move { from, to } => {
            text.append(b"mv")?;
            append_path(&mut text, from)?;
            append_path(&mut text, to)?;
        }
        BinPlan::Remove(paths) => {
            text.append(b"rm")?;
            append_paths(&mut text, paths.as_slice())?;
        }
        BinPlan::Nothing => text.append(b"nothing")?,
    }
    Ok(text)
}

#[test]
fn command_words_are_refused(rt: HostRuntime) -> Result<(), Fail> {
    let alloc = rt.alloc();
    for (line, at, reason) in REFUSED {
        let words = words(alloc, line)?;
        let fault = plan(alloc, words.as_slice()).err().ok_or("a refusal")?;
        assert_eq!(rt; fault, PlanFault::Refused { at, reason });
    }
    Ok(())
}

#[test]
fn command_words_are_planned(rt: HostRuntime) -> Result<(), Fail> {
    let alloc = rt.alloc();
    for (line, parts) in PLANNED {
        let words = words(alloc, line)?;
        let plan = plan(alloc, words.as_slice()).ok().ok_or("a plan")?;
        assert_eq!(rt; described(alloc, &plan)?.as_slice(), parts);
    }
    Ok(())
}
