//! The rules that the parts of a thunk keep, but for those on its references and on the length of its text.

ghost use Rattle.std.specs.Prelude.{◌≡◌, IsTrue};
ghost use Rattle.std.specs.List.{list_all};
ghost use Rattle.thunk_codec.specs.Fitting.{unreferring};
ghost use Rattle.thunk_codec.specs.Path.{is_path};
ghost use Rattle.thunk_codec.specs.Thunk.{keeps_rules, is_strictly_increasing};

use crate::path::Path;
use crate::rules::{are_sorted, is_before, keep_bytes, keep_numbers, paths_are_distinct};
use object_name::Bytes;

/// Looks at some paths, whose type says of each that it is canonical. It does nothing, and takes no memory.
pub fn look_at_paths(paths: &[Path])
    ensures { IsTrue (list_all is_path paths.now) }
{
    'paths: for path in paths {
        let _text = path.text();
    }
}

/// Whether each path is before the next.
fn paths_rise(paths: &[Path]) -> bool
    ensures { result ≡ is_strictly_increasing paths.now }
{
    let mut rest = paths;
    'paths: while let [first, others @ ..] = rest {
        let Some(second) = others.first() else {
            return true;
        };
        if !is_before(first.text(), second.text()) {
            return false;
        }
        rest = others;
    }
    true
}

/// Whether arguments, an environment, and the paths of inputs and of outputs keep the rules on the parts of a thunk, whatever
/// references stand at the inputs. The length of the text is no part of this.
pub fn keep_rules(
    args: &[Bytes],
    envs: &[(Bytes, Bytes)],
    inputs: &[Path],
    outputs: &[Path],
) -> bool
    ensures { result ≡ keeps_rules (unreferring args.now envs.now inputs.now outputs.now) }
{
    if !keep_numbers(inputs.len(), outputs.len()) {
        return false;
    }
    look_at_paths(inputs);
    look_at_paths(outputs);
    if !keep_bytes(args, envs) {
        return false;
    }
    if !are_sorted(envs) {
        return false;
    }
    if !paths_rise(inputs) {
        return false;
    }
    paths_are_distinct(outputs)
}
