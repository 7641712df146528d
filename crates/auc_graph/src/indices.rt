//! A list of numbers of arcs, of persons or of objects.

ghost use Rattle.std.specs.Prelude.{◌≡◌};

use std::marker::Model;

/// Numbers of arcs, of persons or of objects, from 0 on. Contracts see them as a list.
#[derive(Debug, Drop)]
pub struct Indices {
    indices: Vec<u32>,
}

impl Model for Indices {
    ghost use Rattle.std.specs.Prelude.{List, ℕ};

    ghost Value = { List ℕ };

    ghost view = { λ a. a.indices.items };
}

impl Indices {
    /// These numbers. Takes no memory.
    pub fn new(indices: Vec<u32>) -> Self
        ensures { result ≡ indices.items }
    {
        Indices { indices }
    }

    /// Returns the numbers.
    pub fn into_vec(self) -> Vec<u32>
        ensures { result.items ≡ self }
    {
        let Indices { indices } = self;
        indices
    }

    /// The numbers, in order.
    pub fn as_slice(&self) -> &[u32]
        ensures { result.now ≡ self.now }
    {
        self.indices.as_slice()
    }
}
