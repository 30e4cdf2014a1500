//! What a command line asks for.

use build_plan::Recipe;
use file_tree::Item;
use force_pool::Setup;
use object_name::{Bytes, Many};

/// How often a failed call is tried again where no number is given.
pub(crate) const DEFAULT_RETRIES: u32 = 2;

/// Which links outcomes of jobs come over.
#[derive(Debug, Drop)]
pub enum LinkChoice {
    /// So many links to workers in threads of this program.
    Jobs(u32),
    /// A link to the worker at each of these addresses, a host and a port as `HOST:PORT`.
    Workers(Many<Bytes>),
}

/// What the words ask for. A failed call of the store or of the tree is tried again, twice at most where no number says how often.
#[derive(Debug, Drop)]
pub enum Command {
    /// The values of items, worked out here in so many steps at most, which they share. A failed call of the store or of the
    /// tree is tried again so often at most.
    Force {
        budget: u32,
        retries: u32,
        items: Many<Item>,
    },
    /// The same with outcomes of jobs that come over links, and the numbers of the report after the values where they are wanted.
    ForceWith {
        links: LinkChoice,
        setup: Setup,
        report: bool,
        items: Many<Item>,
    },
    /// A thunk, and a placeholder for each of its outputs.
    CreateThunk(Recipe),
    /// The thunks of the work that a command has, whose words these are, and placeholders for the files that it writes.
    Model(Many<Bytes>),
    /// The same for each line of the script on the input.
    Infer,
    /// The work of each line of the script on the input, by running its tools.
    Build,
    /// What the thunk says of which an item is an output.
    Describe(Item),
    /// A build of so many functions, from 1 to 500, and of a program that prints the last of them, inferred and forced in memory.
    Demo(u32),
    /// The jobs of connections at an address, a host and a port as `HOST:PORT`, one connection after the other: of so many, or
    /// without end.
    Worker {
        address: Bytes,
        times: Option<u32>,
    },
    /// The first words of all commands.
    Help,
}
