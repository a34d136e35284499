//! Lists of ids, of which short ones take no memory of their own.
ghost use Rattle.std.specs.Prelude.{◌≡◌, ◌↔◌, ◌≤◌, [], IsTrue, length};

use std::marker::Model;

/// At most this many ids are kept in the value itself.
const IN_PLACE: usize = 5;

/// Where the ids are.
#[derive(Drop)]
enum Places {
    /// The first `count` of these ids.
    Few { count: u32, ids: [u32; 5] },
    /// All of these ids.
    Many(Vec<u32>),
}

/// A list of ids that never changes, such as a path. Contracts see it as the list of its ids.
#[derive(Drop)]
pub struct Ids {
    places: Places,
}

impl Model for Ids {
    ghost use Rattle.std.specs.Prelude.{List, ℕ};
    ghost use Rattle.invariants.specs.Places.{IsWithin, ids_in};

    ghost Value = { List ℕ };

    ghost view = { λ i. ids_in i.places };

    ghost invariant = { λ i. IsWithin i.places };
}

/// A list of so few ids that they take no memory of their own.
fn few(listed: &[u32]) -> Ids
    requires { length listed.now ≤ 5 }
    ensures { result ≡ listed.now }
{
    let mut ids = [0; 5];
    ids[..listed.len()].copy_from_slice(listed);
    let count = listed.len() as u32;
    Ids {
        places: Places::Few { count, ids },
    }
}

impl Ids {
    /// The list of these ids, in their order.
    pub fn from_vec(ids: Vec<u32>) -> Ids
        ensures { result ≡ ids.items }
    {
        if ids.len() <= IN_PLACE {
            few(ids.as_slice())
        } else {
            Ids {
                places: Places::Many(ids),
            }
        }
    }

    /// How many ids there are.
    pub fn len(&self) -> usize
        ensures { result ≡ length self.now }
    {
        match &self.places {
            Places::Few { count, .. } => *count as usize,
            Places::Many(ids) => ids.len(),
        }
    }

    /// Whether there is no id.
    pub fn is_empty(&self) -> bool
        ensures { IsTrue result ↔ (self.now ≡ []) }
    {
        self.len() == 0
    }

    /// The ids, in their order.
    pub fn as_slice(&self) -> &[u32]
        ensures { result.now ≡ self.now }
    {
        match &self.places {
            Places::Few { count, ids } => &ids[..*count as usize],
            Places::Many(ids) => ids.as_slice(),
        }
    }
}
