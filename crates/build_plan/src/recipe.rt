//! Recipes of thunks.

use object_name::{Bytes, Many};
use thunk_codec::Path;

/// The function of a recipe.
#[derive(Debug, Drop)]
pub enum RecipeFunction {
    /// The tool whose card has this name.
    Card(Bytes),
    /// The file at a path: what it is a placeholder of, or else its bytes.
    File(Path),
}

/// The parts of a thunk, whose function and inputs are files or placeholders.
#[derive(Debug, Drop)]
pub struct Recipe {
    pub function: RecipeFunction,
    pub args: Many<Bytes>,
    /// Keys and values, the keys in rising order.
    pub envs: Many<(Bytes, Bytes)>,
    /// The paths of the inputs, which are also their paths in the job, in rising order.
    pub inputs: Many<Path>,
    pub outputs: Many<Path>,
}
