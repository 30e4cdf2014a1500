//! The inputs of a job, of which one is found by its path.

ghost use Rattle.std.specs.Prelude.{◌≡◌, true, Some, None, MatchOption, length, map};
ghost use Rattle.std.specs.Cmp.Lexicographic.{slice_cmp};
ghost use Rattle.std.specs.List.Sorted.{IsBinarySearchResult, IsSearchInRange};
ghost use Rattle.std.specs.Ordering.{nat_cmp};
ghost use Rattle.thunk_codec.specs.Job.{input_at};
ghost use Rattle.thunk_codec.specs.Thunk.{is_strictly_increasing};

use crate::job::Job;
use crate::path::Path;
use crate::rules::paths_are_sorted;
use object_name::Bytes;
use std::marker::Model;

/// The inputs of a job, of which one is found by its path. Contracts see their list.
#[derive(Debug, Drop)]
pub struct InputsByPath<'a> {
    inputs: &'a [(Path, Bytes)],
    /// Whether each path comes before the next.
    are_sorted: bool,
}

impl<'a> Model for InputsByPath<'a> {
    ghost use Rattle.std.specs.Prelude.{◌≡◌, ℕ, List, map, true};
    ghost use Rattle.thunk_codec.specs.Thunk.{is_strictly_increasing};

    ghost Value = { List (List ℕ × List ℕ) };

    ghost view = { λ i. i.inputs.now };

    ghost invariant = { λ i. i.are_sorted ≡ true → is_strictly_increasing (map (λ input. input.0) i.inputs.now) ≡ true };
}

/// The index of the input with a path, by halves.
fn search(inputs: &[(Path, Bytes)], path: &[u8]) -> Result<usize, usize>
    ensures bound { IsSearchInRange result (length inputs.now) }
    ensures position { IsBinarySearchResult (λ input. slice_cmp nat_cmp input.0 path.now) inputs.now result }
{
    inputs.binary_search_by(|input| input.0.text().cmp(path))
}

/// The input with a path, among inputs that are in increasing order of their paths.
fn find_sorted<'a>(inputs: &'a [(Path, Bytes)], path: &[u8]) -> Option<&'a (Path, Bytes)>
    requires { is_strictly_increasing (map (λ input. input.0) inputs.now) ≡ true }
    ensures { MatchOption result (input_at path.now inputs.now ≡ None) (λ input. (input.now.0 ≡ path.now) × (input_at path.now inputs.now ≡ Some input.now.1)) }
{
    match search(inputs, path) {
        Ok(index) => Some(&inputs[index]),
        Err(_) => None,
    }
}

/// The first input with a path.
fn find_first<'a>(inputs: &'a [(Path, Bytes)], path: &[u8]) -> Option<&'a (Path, Bytes)>
    ensures { MatchOption result (input_at path.now inputs.now ≡ None) (λ input. (input.now.0 ≡ path.now) × (input_at path.now inputs.now ≡ Some input.now.1)) }
{
    let mut rest = inputs;
    'inputs: while let [input, others @ ..] = rest {
        if input.0.text() == path {
            return Some(input);
        }
        rest = others;
    }
    None
}

impl Job {
    /// The inputs, of which one is found by its path. It looks at each path once, to see whether they are sorted.
    pub fn inputs_by_path(&self) -> InputsByPath<'_>
        ensures { result ≡ self.now.inputs }
    {
        let inputs = self.inputs.as_slice();
        let are_sorted = paths_are_sorted(inputs);
        InputsByPath { inputs, are_sorted }
    }
}

impl<'a> InputsByPath<'a> {
    /// The first input with a path. Where the paths are sorted, as in the job of a thunk, it is found by halves.
    pub fn find(&self, path: &[u8]) -> Option<&'a (Path, Bytes)>
        ensures { MatchOption result (input_at path.now self.now ≡ None) (λ input. (input.now.0 ≡ path.now) × (input_at path.now self.now ≡ Some input.now.1)) }
    {
        if self.are_sorted {
            return find_sorted(self.inputs, path);
        }
        find_first(self.inputs, path)
    }
}
