//! What command lines of gcc ask for, or the refusal of a word.

use file_tree::{PlanFault, Reason};
use model_gcc::{GccPlan, Operand, Stop, plan};
use object_name::{Bytes, Many};
use std::alloc::Global;
use std::test::Fail;
use thunk_codec::Folder;

/// Command lines, the place of the word that is refused, and why. A space stands between two words.
const REFUSED: [(&[u8], u32, Reason); 52] = [
    (b"gcc", 0, Reason::NoInput),
    (b"gcc -S -c a.c", 2, Reason::TwoStages),
    (b"gcc -c a.c -S", 3, Reason::TwoStages),
    (b"gcc -c -c -E a.c -o x", 3, Reason::TwoStages),
    (b"gcc -shared a.o", 1, Reason::Unknown),
    (b"gcc -c a.c b.c -o x.o", 4, Reason::OneFile),
    (b"gcc -c a.c b.c -ox.o", 4, Reason::OneFile),
    (b"gcc -c -o x.o a.o b.c", 2, Reason::OneFile),
    (b"gcc -E a.c", 0, Reason::NeedsOutput),
    (b"gcc -E", 0, Reason::NoInput),
    (b"gcc -o a -o b x.c", 3, Reason::Unknown),
    (b"gcc -o a -o", 3, Reason::Unknown),
    (b"gcc -oa -ob x.c", 2, Reason::Unknown),
    (b"gcc a.c -o", 2, Reason::NoValue),
    (b"gcc -I", 1, Reason::NoValue),
    (b"gcc a.c -l", 2, Reason::NoValue),
    (b"gcc -E -D", 2, Reason::NoValue),
    (b"gcc -D 1x a.c", 2, Reason::BadValue),
    (b"gcc -D1x a.c", 1, Reason::BadValue),
    (b"gcc -D=1 a.c", 1, Reason::BadValue),
    (b"gcc -UX=1 a.c", 1, Reason::BadValue),
    (b"gcc -U a.c b.c", 2, Reason::BadValue),
    (b"gcc ../a.c", 1, Reason::BadValue),
    (b"gcc /a.c", 1, Reason::BadValue),
    (b"gcc a.c ", 2, Reason::BadValue),
    (b"gcc a.c .", 2, Reason::BadValue),
    (b"gcc -I/x a.c", 1, Reason::BadValue),
    (b"gcc -I .. a.c", 2, Reason::BadValue),
    (b"gcc -L .. a.c", 2, Reason::BadValue),
    (b"gcc -o  a.c", 2, Reason::BadValue),
    (b"gcc -o.. a.c", 1, Reason::BadValue),
    (b"gcc -la/b a.c", 1, Reason::BadValue),
    (b"gcc -l  a.c", 2, Reason::BadValue),
    (b"gcc -Wl,-x a.c", 1, Reason::Unknown),
    (b"gcc -Wa,-x a.c", 1, Reason::Unknown),
    (b"gcc -Wp,-x a.c", 1, Reason::Unknown),
    (b"gcc -fsyntax-only a.c", 1, Reason::Unknown),
    (b"gcc - a.c", 1, Reason::Unknown),
    (b"gcc @f a.c", 1, Reason::Unknown),
    (b"gcc -std a.c", 1, Reason::Unknown),
    (b"gcc -cx a.c", 1, Reason::Unknown),
    (b"gcc -M a.c", 1, Reason::Unknown),
    (b"gcc -pedanticx a.c", 1, Reason::Unknown),
    (b"gcc -wx a.c", 1, Reason::Unknown),
    (b"gcc a.c --version", 2, Reason::Unknown),
    (b"gcc -c a.o", 2, Reason::WrongKind),
    (b"gcc -S a.c a.s", 3, Reason::WrongKind),
    (b"gcc -S a.S", 2, Reason::WrongKind),
    (b"gcc -E a.i -o x", 2, Reason::WrongKind),
    (b"gcc -c a.C b.c", 2, Reason::WrongKind),
    (b"gcc -l a.c", 0, Reason::NoInput),
    (b"gcc -c -lm", 0, Reason::NoInput),
];

/// Command lines, and what they ask for: the last stage and what `-o` names, the words of the preprocessor and of the compiler, the
/// folders of headers and of libraries, and the operands.
const PLANNED: [(&[u8], &[u8]); 22] = [
    (b"gcc a.c", b"link;;;;; Source a.c"),
    (b"cc a.c", b"link;;;;; Source a.c"),
    (
        b"gcc -Iinc -I inc2/ -c sub/a.c -DX -UY -DZ=a=b -O2 -g0 -Wall -std=c99 -c -o ./out/../a.o -L. -lm",
        b"assemble a.o; -Iinc -Iinc2 -DX=1 -UY -DZ=a=b; -O2 -g0 -Wall -std=c99; inc inc2; .; Source sub/a.c Library m",
    ),
    (b"gcc -o -c a.c", b"link -c;;;;; Source a.c"),
    (b"gcc -I  .c", b"link; -I.;; .;; Source .c"),
    (b"gcc -I a/../ a.c", b"link; -I.;; .;; Source a.c"),
    (b"gcc -I -c a.c", b"link; -I-c;; -c;; Source a.c"),
    (
        b"gcc -Ib -I. -Ib a.c",
        b"link; -Ib -I. -Ib;; b . b;; Source a.c",
    ),
    (
        b"gcc -D X -U _y1 -DZ= a.c",
        b"link; -DX=1 -U_y1 -DZ=;;;; Source a.c",
    ),
    (
        b"gcc a.o b.a -lm -L lib -Llib2 main.c -o prog",
        b"link prog;;;; lib lib2; Other a.o Other b.a Library m Source main.c",
    ),
    (b"gcc -l m a.c", b"link;;;;; Library m Source a.c"),
    (b"gcc a.c b.c -o p", b"link p;;;;; Source a.c Source b.c"),
    (b"gcc -E a.c -o a.i", b"preprocess a.i;;;;; Source a.c"),
    (b"gcc -o x a.S -E", b"preprocess x;;;;; AssemblySource a.S"),
    (
        b"gcc -S a.i b.c",
        b"compile;;;;; Preprocessed a.i Source b.c",
    ),
    (
        b"gcc -c a.c b.i c.s d.S",
        b"assemble;;;;; Source a.c Preprocessed b.i Assembly c.s AssemblySource d.S",
    ),
    (
        b"gcc -c a.c -lm -o x.o",
        b"assemble x.o;;;;; Source a.c Library m",
    ),
    (
        b"gcc -ansi -pedantic -pedantic-errors -w -pipe -pthread -std=c11 -fPIC -m32 -O -g -W a.c",
        b"link;; -ansi -pedantic -pedantic-errors -w -pipe -pthread -std=c11 -fPIC -m32 -O -g -W;;; Source a.c",
    ),
    (b"gcc a//b/./c/../d.c", b"link;;;;; Source a/b/d.c"),
    (b"gcc -c a.c/b.s", b"assemble;;;;; Assembly a.c/b.s"),
    (b"gcc a.C c i", b"link;;;;; Other a.C Other c Other i"),
    (b"gcc ./-c", b"link;;;;; Other -c"),
];

/// The words of a line.
pub(crate) fn words(alloc: Global, line: &[u8]) -> Result<Many<Bytes>, Fail> {
    let mut words = Many::new(alloc);
    for word in line.split(|byte| *byte == b' ') {
        words.push(Bytes::from_slice(alloc, word)?)?;
    }
    Ok(words)
}

/// The name of a plan's last stage.
fn stage(stop: Stop) -> &'static [u8] {
    match stop {
        Stop::Preprocess => b"preprocess",
        Stop::Compile => b"compile",
        Stop::Assemble => b"assemble",
        Stop::Link => b"link",
    }
}

/// Appends a space and a word.
pub(crate) fn append_word(text: &mut Bytes, word: &[u8]) -> Result<(), Fail> {
    text.append(b" ")?;
    text.append(word)?;
    Ok(())
}

/// Appends a list of words.
fn append_words(text: &mut Bytes, words: &[Bytes]) -> Result<(), Fail> {
    text.append(b";")?;
    for word in words {
        append_word(text, word.as_slice())?;
    }
    Ok(())
}

/// Appends a list of folders.
fn append_folders(text: &mut Bytes, folders: &[Folder]) -> Result<(), Fail> {
    text.append(b";")?;
    for folder in folders {
        append_word(text, folder.text())?;
    }
    Ok(())
}

/// Appends an operand: what it is, and its path or name.
fn append_operand(text: &mut Bytes, kind: &[u8], name: &[u8]) -> Result<(), Fail> {
    append_word(text, kind)?;
    append_word(text, name)
}

/// Appends the operands.
fn append_operands(text: &mut Bytes, operands: &[Operand]) -> Result<(), Fail> {
    text.append(b";")?;
    for operand in operands {
        match operand {
            Operand::Source(path) => append_operand(text, b"Source", path.text())?,
            Operand::Preprocessed(path) => append_operand(text, b"Preprocessed", path.text())?,
            Operand::Assembly(path) => append_operand(text, b"Assembly", path.text())?,
            Operand::AssemblySource(path) => append_operand(text, b"AssemblySource", path.text())?,
            Operand::Other(path) => append_operand(text, b"Other", path.text())?,
            Operand::Library(name) => append_operand(text, b"Library", name.as_slice())?,
        }
    }
    Ok(())
}

/// What a plan asks for, as the table has it.
fn described(alloc: Global, plan: &GccPlan) -> Result<Bytes, Fail> {
    let mut text = Bytes::from_slice(alloc, stage(plan.stop))?;
    if let Some(path) = &plan.output {
        append_word(&mut text, path.text())?;
    }
    append_words(&mut text, plan.cpp_words.as_slice())?;
    append_words(&mut text, plan.cc_words.as_slice())?;
    append_folders(&mut text, plan.include_folders.as_slice())?;
    append_folders(&mut text, plan.lib_folders.as_slice())?;
    append_operands(&mut text, plan.operands.as_slice())?;
    Ok(text)
}

#[test]
fn words_are_refused(rt: HostRuntime) -> Result<(), Fail> {
    let alloc = rt.alloc();
    for (line, at, reason) in REFUSED {
        let words = words(alloc, line)?;
        let fault = plan(alloc, words.as_slice()).err().ok_or("a refusal")?;
        assert_eq!(rt; fault, PlanFault::Refused { at, reason });
    }
    Ok(())
}

#[test]
fn words_are_planned(rt: HostRuntime) -> Result<(), Fail> {
    let alloc = rt.alloc();
    for (line, parts) in PLANNED {
        let words = words(alloc, line)?;
        let plan = plan(alloc, words.as_slice()).ok().ok_or("a plan")?;
        assert_eq!(rt; described(alloc, &plan)?.as_slice(), parts);
    }
    Ok(())
}
