//! Reading the parts of an archive, one after another.

ghost use Rattle.std.specs.Prelude.{◌≡◌, ◌<◌, ◌≤◌, EachIndex, IfOk, IfSome, length, position, slice_index, take_while, true};
ghost use Rattle.std.specs.Char.{is_ascii_digit};
ghost use Rattle.object_name.specs.Number.{digits_value};
ghost use Rattle.std.specs.List.{list_all};
ghost use Rattle.std.specs.Option.{option_copied, option_map};
ghost use Rattle.text_lines.specs.Cuts.{strip_prefix};
ghost use Rattle.tool_bin.specs.Archive.{is_member_name, is_name_byte, padding};
ghost use Rattle.tool_bin.specs.ArchiveReading.{all_members, after_table, contents_at, header_at, is_slash, is_space, member_at, name_in, member_name_of, size_in, member_size_of};

use crate::archive::Member;
use object_name::Many;
use std::alloc::{AllocError, Global};
use text_lines::strip_prefix;

/// The length of a header.
const HEADER_LEN: usize = 60;

/// What every header ends with.
const HEADER_END: &[u8] = b"`\n";

/// Whether all bytes are spaces.
fn are_spaces(bytes: &[u8]) -> bool
    ensures { result ≡ list_all is_space bytes.now }
{
    bytes.iter().all(|byte| *byte == b' ')
}

/// Whether a member's name may have this byte.
fn is_name_byte(byte: u8) -> bool
    ensures { result ≡ is_name_byte byte }
{
    byte >= 33 && byte <= 126 && byte != b'/'
}

/// Whether a member's name may have these bytes.
fn are_name_bytes(bytes: &[u8]) -> bool
    ensures { result ≡ list_all is_name_byte bytes.now }
{
    bytes.iter().all(|byte| is_name_byte(*byte))
}

/// Whether a member may have this name.
pub fn is_member_name(name: &[u8]) -> bool
    ensures { result ≡ is_member_name name.now }
{
    if name.is_empty() {
        return false;
    }
    if name.len() > 15 {
        return false;
    }
    are_name_bytes(name)
}

/// The index of the first `/`.
fn slash_in(bytes: &[u8]) -> Option<usize>
    ensures index { result ≡ position is_slash bytes.now }
    ensures within { IfSome result (λ index. index < length bytes.now) }
{
    bytes.iter().position(|byte| *byte == b'/')
}

/// The name in the name field of a member's header.
#[tactic(auto, unfolding(crate::specs::ArchiveReading::name_in))]
fn name_in(field: &[u8]) -> Option<&[u8]>
    ensures { option_copied result ≡ name_in field.now }
{
    let end = slash_in(field)?;
    if !are_spaces(&field[end + 1..]) {
        return None;
    }
    if !is_member_name(&field[..end]) {
        return None;
    }
    Some(&field[..end])
}

/// The number of digits at the beginning.
fn digits_len(bytes: &[u8]) -> usize
    ensures digits { result ≡ length (take_while is_ascii_digit bytes.now) }
    ensures within { result ≤ length bytes.now }
{
    bytes
        .iter()
        .take_while(|byte| byte.is_ascii_digit())
        .count()
}

/// The value of at most ten digits.
fn digits_value(digits: &[u8]) -> u64
    requires few { length digits.now ≤ 10 }
    requires digits { EachIndex digits.now (λ k. is_ascii_digit (slice_index digits.now k) ≡ true) }
    ensures { result ≡ digits_value digits.now }
{
    let mut value: u64 = 0;
    'digits: for digit in digits {
        value = value * 10 + u64::from(*digit - b'0');
    }
    value
}

/// The size in the size field of a header.
#[tactic(auto, unfolding(crate::specs::ArchiveReading::size_in))]
fn size_in(field: &[u8]) -> Option<u64>
    requires { length field.now ≤ 10 }
    ensures { result ≡ size_in field.now }
{
    let len = digits_len(field);
    if len < 1 {
        return None;
    }
    if !are_spaces(&field[len..]) {
        return None;
    }
    Some(digits_value(&field[..len]))
}

/// The header at the beginning, and the rest.
fn header_at(bytes: &[u8]) -> Option<(&[u8], &[u8])>
    ensures cut { option_map (λ x. (x.0.now, x.1.now)) result ≡ header_at bytes.now }
    ensures len { IfSome result (λ x. length x.0.now ≡ 60) }
{
    if bytes.len() < HEADER_LEN {
        return None;
    }
    Some(bytes.split_at(HEADER_LEN))
}

/// The name in a member's header.
fn member_name_of(header: &[u8]) -> Option<&[u8]>
    requires { length header.now ≡ 60 }
    ensures { option_copied result ≡ member_name_of header.now }
{
    name_in(&header[..16])
}

/// The size in a header.
fn member_size_of(header: &[u8]) -> Option<u64>
    requires { length header.now ≡ 60 }
    ensures { result ≡ member_size_of header.now }
{
    if !header.ends_with(HEADER_END) {
        return None;
    }
    size_in(&header[48..58])
}

/// The bytes after the padding of contents of this size. None where they don't begin with it.
fn after_padding(size: u64, bytes: &[u8]) -> Option<&[u8]>
    ensures { option_copied result ≡ strip_prefix (padding size) bytes.now }
{
    if size % 2 == 0 {
        return Some(bytes);
    }
    strip_prefix(b"\n", bytes)
}

/// Contents of this size, and the bytes after their padding.
#[tactic(auto, unfolding(crate::specs::ArchiveReading::contents_at))]
fn contents_at(size: u64, bytes: &[u8]) -> Option<(&[u8], &[u8])>
    ensures { option_map (λ x. (x.0.now, x.1.now)) result ≡ contents_at size bytes.now }
{
    if size > bytes.len() as u64 {
        return None;
    }
    let (contents, after) = bytes.split_at(size as usize);
    let rest = after_padding(size, after)?;
    Some((contents, rest))
}

/// The member at the beginning, and the rest.
#[tactic(auto, unfolding(crate::specs::ArchiveReading::member_at))]
fn member_at(bytes: &[u8]) -> Option<(Member<'_>, &[u8])>
    ensures { option_map (λ x. (x.0, x.1.now)) result ≡ member_at bytes.now }
{
    let (header, body) = header_at(bytes)?;
    let name = member_name_of(header)?;
    let size = member_size_of(header)?;
    let (contents, rest) = contents_at(size, body)?;
    Some((Member::new(name, contents), rest))
}

/// The bytes after the table at the beginning.
#[tactic(auto, unfolding(crate::specs::ArchiveReading::after_table))]
pub fn after_table(bytes: &[u8]) -> Option<&[u8]>
    ensures { option_copied result ≡ after_table bytes.now }
{
    let (header, body) = header_at(bytes)?;
    let size = member_size_of(header)?;
    let (_, rest) = contents_at(size, body)?;
    Some(rest)
}

/// The members that the bytes are, up to their end.
pub fn all_members(alloc: Global, bytes: &[u8]) -> Result<Option<Many<Member<'_>>>, AllocError>
    ensures { IfOk result (λ members. members ≡ all_members bytes.now) }
{
    let mut members = Many::new(alloc);
    let mut rest = bytes;
    'members: while !rest.is_empty() {
        let Some((member, after)) = member_at(rest) else {
            return Ok(None);
        };
        members.push(member)?;
        rest = after;
    }
    Ok(Some(members))
}
