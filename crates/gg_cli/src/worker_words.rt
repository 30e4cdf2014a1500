//! The words of `worker`.

ghost use Rattle.std.specs.Prelude.{◌≡◌, map, string_bytes, IfOk};
ghost use Rattle.std.specs.Option.{option_map};
ghost use Rattle.gg_cli.specs.WorkerWords.{split_at_last, port_of, address_of, times_of, worker_of};
ghost use Rattle.gg_cli.specs.Words.{IsCommand};
ghost use Rattle.gg_cli.specs.Reading.{Finds};

use crate::command::Command;
use crate::number_words::read_within;
use crate::word_fault::WordFault;
use object_name::Bytes;
use std::alloc::Global;

/// The greatest number of a port.
const MAX_PORT: u32 = 65_535;

/// The most connections that may be asked for.
const MAX_TIMES: u32 = 1_000_000;

/// The bytes before the last stop byte, and those after it. None where the text has no stop byte.
fn split_at_last(stop: u8, text: &[u8]) -> Option<(&[u8], &[u8])>
    ensures { option_map (λ cut. (cut.0.now, cut.1.now)) result ≡ split_at_last stop text.now }
{
    match text.iter().rposition(|byte| *byte == stop) {
        Some(at) => Some((&text[..at], &text[at + 1..])),
        None => None,
    }
}

/// The port of an address.
fn read_port(word: &[u8]) -> Option<u32>
    ensures { result ≡ port_of word.now }
{
    let (host, port) = split_at_last(b':', word)?;
    if host.is_empty() {
        return None;
    }
    read_within(port, 1, MAX_PORT)
}

/// The address that a word is.
pub(crate) fn read_address(alloc: Global, word: &[u8]) -> Result<Bytes, WordFault>
    ensures exact { Finds result (address_of word.now) }
{
    if word.starts_with(b"-") {
        return Err(WordFault::Usage);
    }
    match read_port(word) {
        Some(_) => Ok(Bytes::from_slice(alloc, word)?),
        None => Err(WordFault::Usage),
    }
}

/// The number of connections by what follows the address.
fn read_times(words: &[String]) -> Result<Option<u32>, WordFault>
    ensures exact { Finds result (times_of (map string_bytes words.now)) }
{
    match words {
        [] => Ok(None),
        [option, value] if option.as_bytes() == b"--times".as_slice() => {
            match read_within(value.as_bytes(), 1, MAX_TIMES) {
                Some(times) => Ok(Some(times)),
                None => Err(WordFault::Usage),
            }
        }
        _ => Err(WordFault::Usage),
    }
}

/// The command by what follows `worker`.
pub(crate) fn read_worker(alloc: Global, words: &[String]) -> Result<Command, WordFault>
    ensures exact { Finds result (worker_of (map string_bytes words.now)) }
    ensures rules { IfOk result (λ command. IsCommand command) }
{
    let Some((first, others)) = words.split_first() else {
        return Err(WordFault::Usage);
    };
    let address = read_address(alloc, first.as_bytes())?;
    let times = read_times(others)?;
    Ok(Command::Worker { address, times })
}
