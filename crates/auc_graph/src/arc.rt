//! Arcs, and the list of them that makes a problem.

ghost use Rattle.std.specs.Prelude.{◌≡◌, length};

use std::marker::Model;

/// An arc: this person may take this object at this cost, a cost of the file. C code reads these three fields.
#[repr(C)]
#[derive(Clone, Copy, Debug, PartialEq, Eq)]
pub struct Arc {
    // The widest field comes first, so an arc takes 16 bytes.
    pub cost: i64,
    pub person: u32,
    pub object: u32,
}

/// A problem: its persons, its objects and its arcs, in the order of the text. All numbers are within the limits.
#[derive(Debug, Drop)]
pub struct ArcList {
    persons: u32,
    objects: u32,
    arcs: Vec<Arc>,
}

impl Model for ArcList {
    ghost use Rattle.auc_graph.specs.Problem.{Problem, IsProblem};

    ghost Value = { Problem };

    ghost view = { λ a. record { persons = a.persons; objects = a.objects; arcs = a.arcs.items } };

    ghost invariant = { λ a. IsProblem (record { persons = a.persons; objects = a.objects; arcs = a.arcs.items }) };
}

impl ArcList {
    ghost use Rattle.auc_graph.specs.Problem.{IsProblem};

    /// The problem of these persons, objects and arcs.
    pub(crate) fn make(persons: u32, objects: u32, arcs: Vec<Arc>) -> Self
        requires { IsProblem (record { persons = persons; objects = objects; arcs = arcs.items }) }
        ensures { result ≡ record { persons = persons; objects = objects; arcs = arcs.items } }
    {
        ArcList {
            persons,
            objects,
            arcs,
        }
    }

    /// The number of persons, who are numbered from 0.
    pub fn persons(&self) -> u32
        ensures persons { result ≡ self.now.persons }
        ensures problem { IsProblem self.now }
    {
        self.persons
    }

    /// The number of objects, which are numbered from 0.
    pub fn objects(&self) -> u32
        ensures objects { result ≡ self.now.objects }
        ensures problem { IsProblem self.now }
    {
        self.objects
    }

    /// The arcs, in the order of the text. One that was listed twice is there twice.
    pub fn arcs(&self) -> &[Arc]
        ensures arcs { result.now ≡ self.now.arcs }
        ensures problem { IsProblem self.now }
    {
        self.arcs.as_slice()
    }
}
