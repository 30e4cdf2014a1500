//! The numbers of jobs by the names of their texts.

ghost use Rattle.std.specs.Prelude.{◌≡◌, ◌==◌, ℕ, position, vec_capacity, vec_len, ◌≤◌, ◌≢◌, true};
ghost use Rattle.force_core.specs.Index.{is_among};

use object_name::Name;
use std::alloc::{AllocError, Global};
use std::collections::HashMap;

/// Leads from the name of a text to the numbers of the jobs under it whose outcomes were not taken.
#[derive(Drop)]
pub(crate) struct Index {
    /// The number of one job under each name.
    firsts: HashMap<Name, u64>,
    /// The numbers of all others. There are none as long as different objects have different names.
    others: Vec<u64>,
}

impl Index {
    ghost use Rattle.std.specs.Prelude.{◌≡◌, ◌≢◌, ℕ, true, false, OnOk};
    ghost use Rattle.object_name.specs.Name.{ObjectName};
    ghost use Rattle.force_core.specs.Index.{leads, first_at, HasRoom};

    pub(crate) fn new(alloc: Global) -> Index {
        Index {
            firsts: HashMap::new(alloc),
            others: Vec::new(alloc),
        }
    }

    /// Makes room for a number more.
    pub(crate) fn reserve(&mut self) -> Result<(), AllocError>
        ensures same { (name : ObjectName) → (id : ℕ) → leads self.new name id ≡ leads self.old name id }
        ensures ok { OnOk result (HasRoom self.new) }
        ensures room { HasRoom self.old → HasRoom self.new }
    {
        self.others.reserve(1)?;
        self.firsts.reserve(1)
    }

    /// Adds a number, for which there is room, under a name.
    pub(crate) fn add(&mut self, name: Name, id: u64)
        requires { HasRoom self.old }
        ensures added { leads self.new name id ≡ true }
        ensures kept { (other : ObjectName) → (number : ℕ) → leads self.old other number ≡ true → leads self.new other number ≡ true }
    {
        if self.firsts.contains_key(&name) {
            self.others.push_reserved(id);
            return;
        }
        let Ok(_) = self.firsts.insert(name, id) else {
            unreachable!();
        };
    }

    /// Takes out the number of a job under a name.
    pub(crate) fn take_out(&mut self, name: Name, id: u64)
        ensures kept { (other : ObjectName) → (number : ℕ) → number ≢ id → leads self.old other number ≡ true → leads self.new other number ≡ true }
        ensures room { HasRoom self.old → HasRoom self.new }
    {
        match self.first(name) {
            None => {}
            Some(first) => {
                if first == id {
                    self.firsts.remove(&name);
                    return;
                }
            }
        }
        take_out(&mut self.others, id);
    }

    /// The number that stands alone under a name.
    pub(crate) fn first(&self, name: Name) -> Option<u64>
        ensures { result ≡ first_at self.now name }
    {
        match self.firsts.get(&name) {
            Some(id) => Some(*id),
            None => None,
        }
    }

    /// The other numbers, under whatever names.
    pub(crate) fn others(&self) -> &[u64]
        ensures { result.now ≡ self.now.others.items }
    {
        self.others.as_slice()
    }
}

/// The place of a number among some.
fn place_of(numbers: &[u64], id: u64) -> Option<usize>
    ensures { result ≡ position (λ other. other == id) numbers.now }
{
    numbers.iter().position(|other| *other == id)
}

/// Takes a number out of some.
fn take_out(numbers: &mut Vec<u64>, id: u64)
    ensures kept { (number : ℕ) → number ≢ id → is_among number numbers.old.items ≡ true → is_among number numbers.new.items ≡ true }
    ensures shorter { vec_len numbers.new ≤ vec_len numbers.old }
    ensures capacity { vec_capacity numbers.new ≡ vec_capacity numbers.old }
{
    match place_of(numbers.as_slice(), id) {
        Some(place) => {
            numbers.remove(place);
        }
        None => {}
    }
}
