//! The build of the demonstration: its files and its script.

ghost use Rattle.std.specs.Prelude.{◌≡◌, ◌≤◌, ◌++◌, IfOk, OnOk};
ghost use Rattle.blob_store.specs.Memory.{store_of};
ghost use Rattle.file_tree.specs.Memory.{files_of};
ghost use Rattle.gg_cli.specs.Demo.{compile_line, compile_lines, demo_files, demo_script, empty_store, header_text, main_text, named_files, object_word, object_words, source_path, source_text, sources, sum_text};

use blob_store::MemKeeper;
use build_plan::known_path;
use file_tree::MemTree;
use object_name::{Bytes, Many, write_number};
use std::alloc::{AllocError, Global};
use thunk_codec::Path;

/// The path of a source.
fn source_path(alloc: Global, number: u32) -> Result<Path, AllocError>
    ensures { IfOk result (λ path. path ≡ source_path number) }
{
    let mut text = Bytes::from_slice(alloc, b"u")?;
    write_number(u64::from(number), &mut text)?;
    text.append(b".c")?;
    known_path(alloc, text.as_slice())
}

/// Appends what a function gives, by the one before it, but for the first.
fn append_sum(text: &mut Bytes, number: u32) -> Result<(), AllocError>
    requires { 1 ≤ number }
    ensures { OnOk result (text.new ≡ text.old ++ sum_text number) }
{
    if number == 1 {
        return text.append(b"1 K +");
    }
    text.append(b"f")?;
    write_number(u64::from(number - 1), text)?;
    text.append(b" ")?;
    write_number(u64::from(number), text)?;
    text.append(b" K * +")
}

/// The source of a function.
fn source_text(alloc: Global, number: u32) -> Result<Bytes, AllocError>
    requires { 1 ≤ number }
    ensures { IfOk result (λ text. text ≡ source_text number) }
{
    let mut text = Bytes::from_slice(alloc, b"#include \"k.h\"\nfn f")?;
    write_number(u64::from(number), &mut text)?;
    text.append(b" : ")?;
    append_sum(&mut text, number)?;
    text.append(b"\n")?;
    Ok(text)
}

/// The file that says what K is.
fn header_text(alloc: Global, count: u32) -> Result<Bytes, AllocError>
    ensures { IfOk result (λ text. text ≡ header_text count) }
{
    let mut text = Bytes::from_slice(alloc, b"#define K ")?;
    write_number(u64::from(count), &mut text)?;
    text.append(b"\n")?;
    Ok(text)
}

/// The source of the program.
fn main_text(alloc: Global, count: u32) -> Result<Bytes, AllocError>
    ensures { IfOk result (λ text. text ≡ main_text count) }
{
    let mut text = Bytes::from_slice(alloc, b"fn main : f")?;
    write_number(u64::from(count), &mut text)?;
    text.append(b" print\n")?;
    Ok(text)
}

/// Adds the sources of so many functions.
#[tactic(auto, using(crate::proofs::DemoFilesGrow::sources_grow))]
fn push_sources(
    alloc: Global,
    files: &mut Many<(Path, Bytes)>,
    count: u32,
) -> Result<(), AllocError>
    ensures { OnOk result (files.new ≡ files.old ++ sources count) }
{
    'sources: for index in 0..count {
        let path = source_path(alloc, index + 1)?;
        let text = source_text(alloc, index + 1)?;
        files.push((path, text))?;
    }
    Ok(())
}

/// All files with their paths.
fn named_files(alloc: Global, count: u32) -> Result<Many<(Path, Bytes)>, AllocError>
    ensures { IfOk result (λ files. files ≡ named_files count) }
{
    let mut files = Many::new(alloc);
    files.push((known_path(alloc, b"k.h")?, header_text(alloc, count)?))?;
    push_sources(alloc, &mut files, count)?;
    files.push((known_path(alloc, b"main.c")?, main_text(alloc, count)?))?;
    Ok(files)
}

/// A tree in memory that has the files.
pub(crate) fn demo_tree(alloc: Global, count: u32) -> Result<MemTree, AllocError>
    ensures { IfOk result (λ tree. files_of tree ≡ demo_files count) }
{
    let files = named_files(alloc, count)?;
    MemTree::new(alloc, files, Many::new(alloc))
}

/// A keeper in memory that holds nothing.
pub(crate) fn empty_keeper(alloc: Global) -> Result<MemKeeper, AllocError>
    ensures { IfOk result (λ keeper. store_of keeper ≡ empty_store) }
{
    MemKeeper::new(alloc, Many::new(alloc), Many::new(alloc), Many::new(alloc))
}

/// Appends the line that compiles a source.
fn append_compile_line(text: &mut Bytes, number: u32) -> Result<(), AllocError>
    ensures { OnOk result (text.new ≡ text.old ++ compile_line number) }
{
    text.append(b"gcc -c u")?;
    write_number(u64::from(number), text)?;
    text.append(b".c -o u")?;
    write_number(u64::from(number), text)?;
    text.append(b".o\n")
}

/// Appends the lines that compile so many sources.
#[tactic(auto, using(crate::proofs::DemoFilesGrow::compile_lines_grow))]
fn append_compile_lines(text: &mut Bytes, count: u32) -> Result<(), AllocError>
    ensures { OnOk result (text.new ≡ text.old ++ compile_lines count) }
{
    'sources: for index in 0..count {
        append_compile_line(text, index + 1)?;
    }
    Ok(())
}

/// Appends the word of a compiled source.
fn append_object_word(text: &mut Bytes, number: u32) -> Result<(), AllocError>
    ensures { OnOk result (text.new ≡ text.old ++ object_word number) }
{
    text.append(b" u")?;
    write_number(u64::from(number), text)?;
    text.append(b".o")
}

/// Appends the words of so many compiled sources.
#[tactic(auto, using(crate::proofs::DemoFilesGrow::object_words_grow))]
fn append_object_words(text: &mut Bytes, count: u32) -> Result<(), AllocError>
    ensures { OnOk result (text.new ≡ text.old ++ object_words count) }
{
    'sources: for index in 0..count {
        append_object_word(text, index + 1)?;
    }
    Ok(())
}

/// The script.
pub(crate) fn demo_script(alloc: Global, count: u32) -> Result<Bytes, AllocError>
    ensures { IfOk result (λ text. text ≡ demo_script count) }
{
    let mut text = Bytes::new(alloc);
    append_compile_lines(&mut text, count)?;
    text.append(b"ar rcs libu.a")?;
    append_object_words(&mut text, count)?;
    text.append(b"\ngcc main.c -L. -lu -o prog\nstrip prog\n")?;
    Ok(text)
}
