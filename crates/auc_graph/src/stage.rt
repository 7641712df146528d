//! Reads one number after another: the kind of the next one.

ghost use Rattle.std.specs.Prelude.{◌≡◌, ◌≤◌, ◌<◌, ◌⊎◌, ℕ, List, [], ◌≤ℤ◌, IfOk};
ghost use Rattle.auc_graph.specs.declared.stage.Stage.TheVariants.{AtCount, AtPerson, AtObject};
ghost use Rattle.auc_graph.specs.Memory.{AnswersUnless};
ghost use Rattle.auc_graph.specs.Reading.{within, index, objects_for, step_at, finish_at};
ghost use Rattle.auc_graph.specs.Pieces.{IsStage};

use crate::arc::{Arc, ArcList};
use crate::limits::{MOST_ARCS, MOST_COST, MOST_OBJECTS, MOST_PERSONS};
use crate::number::Number;
use crate::read_error::ReadError;

/// The kind of the next number of a text, and the state by then.
#[derive(Clone, Copy, Debug, PartialEq, Eq)]
pub enum Stage {
    /// The number of persons, at most this; so many objects are wanted, or as many as persons where `wanted` is 0.
    AtCount {
        most: u32,
        wanted: u32,
    },
    /// The person of the next arc, if there is one.
    AtPerson {
        persons: u32,
        objects: u32,
    },
    /// The object of this person's arc.
    AtObject {
        persons: u32,
        objects: u32,
        person: u32,
    },
    /// The cost of the arc of this person to this object.
    AtCost {
        persons: u32,
        objects: u32,
        person: u32,
        object: u32,
    },
}

/// The number at a token, where it is one and from least to most.
fn within_of(
    number: Number,
    least: i64,
    most: i64,
    token: u64,
    range: ReadError,
) -> Result<i64, ReadError>
    ensures exact { result ≡ within least most token range number }
    ensures bounds { IfOk result (λ z. (least ≤ℤ z) × (z ≤ℤ most)) }
{
    match number {
        Number::Bad => Err(ReadError::BadNumber { token }),
        Number::Value(value) if least <= value && value <= most => Ok(value),
        Number::Value(_) | Number::Huge => Err(range),
    }
}

/// A number from 1 to most, as a number from 0.
fn index_of(number: Number, most: u32, token: u64, range: ReadError) -> Result<u32, ReadError>
    ensures exact { result ≡ index most token range number }
    ensures below { IfOk result (λ i. i < most) }
{
    let value = within_of(number, 1, most as i64, token, range)?;
    Ok((value - 1) as u32)
}

/// The number of objects beside this number of persons.
fn objects_of(wanted: u32, persons: u32) -> Result<u32, ReadError>
    ensures exact { result ≡ objects_for wanted persons }
    ensures enough { IfOk result (λ objects. persons ≤ objects) }
    ensures few { IfOk result (λ objects. objects ≤ persons ⊎ objects ≤ wanted) }
{
    if wanted == 0 {
        return Ok(persons);
    }
    if wanted < persons {
        return Err(ReadError::TooFewObjects);
    }
    Ok(wanted)
}

/// The stage after the number of persons.
#[inline(always)]
#[tactic(auto, unfolding(crate::specs::Reading::step_at))]
fn after_count(most: u32, wanted: u32, number: Number) -> Result<Stage, ReadError>
    requires most { most ≤ MOST_PERSONS }
    requires wanted { wanted ≤ MOST_OBJECTS }
    ensures exact { (limit : ℕ) (arcs : List Arc)
        → AnswersUnless ReadError.NoMemory (λ stage. (stage, arcs)) result
        (λ r. step_at limit (AtCount most wanted) arcs number ≡ r) }
    ensures sound { (limit : ℕ) → IfOk result (λ stage. IsStage limit stage []) }
{
    let before = index_of(number, most, 0, ReadError::CountRange)?;
    let persons = before + 1;
    let objects = objects_of(wanted, persons)?;
    Ok(Stage::AtPerson { persons, objects })
}

/// The stage after the person of an arc.
#[inline(always)]
#[tactic(auto, unfolding(crate::specs::Reading::step_at))]
fn after_person(
    limit: u32,
    persons: u32,
    objects: u32,
    arcs: &[Arc],
    number: Number,
) -> Result<Stage, ReadError>
    requires few { limit ≤ MOST_ARCS }
    requires sound { IsStage limit (AtPerson persons objects) arcs.now }
    ensures exact { AnswersUnless ReadError.NoMemory (λ stage. (stage, arcs.now)) result
        (λ r. step_at limit (AtPerson persons objects) arcs.now number ≡ r) }
    ensures sound { IfOk result (λ stage. IsStage limit stage arcs.now) }
{
    let before = arcs.len() as u64;
    if before >= limit as u64 {
        return Err(ReadError::TooManyArcs);
    }
    let fault = ReadError::PersonRange { arc: before };
    let person = index_of(number, persons, 3 * before + 1, fault)?;
    Ok(Stage::AtObject {
        persons,
        objects,
        person,
    })
}

/// The stage after the object of an arc.
#[inline(always)]
#[tactic(auto, unfolding(crate::specs::Reading::step_at))]
fn after_object(
    _limit: u32,
    persons: u32,
    objects: u32,
    person: u32,
    arcs: &[Arc],
    number: Number,
) -> Result<Stage, ReadError>
    requires few { _limit ≤ MOST_ARCS }
    requires sound { IsStage _limit (AtObject persons objects person) arcs.now }
    ensures exact { AnswersUnless ReadError.NoMemory (λ stage. (stage, arcs.now)) result
        (λ r. step_at _limit (AtObject persons objects person) arcs.now number ≡ r) }
    ensures sound { IfOk result (λ stage. IsStage _limit stage arcs.now) }
{
    let before = arcs.len() as u64;
    let fault = ReadError::ObjectRange { arc: before };
    let object = index_of(number, objects, 3 * before + 2, fault)?;
    Ok(Stage::AtCost {
        persons,
        objects,
        person,
        object,
    })
}

impl Stage {
    /// The stage after the next number. Where this ends an arc, the arc is appended to the others.
    #[inline(always)]
    #[tactic(auto, unfolding(crate::specs::Reading::step_at))]
    pub(crate) fn after(
        self,
        limit: u32,
        arcs: &mut Vec<Arc>,
        number: Number,
    ) -> Result<Stage, ReadError>
        requires few { limit ≤ MOST_ARCS }
        requires sound { IsStage limit self arcs.old.items }
        ensures exact { AnswersUnless ReadError.NoMemory (λ stage. (stage, arcs.new.items)) result
            (λ r. step_at limit self arcs.old.items number ≡ r) }
        ensures sound { IfOk result (λ stage. IsStage limit stage arcs.new.items) }
    {
        match self {
            Stage::AtCount { most, wanted } => after_count(most, wanted, number),
            Stage::AtPerson { persons, objects } => {
                after_person(limit, persons, objects, arcs.as_slice(), number)
            }
            Stage::AtObject {
                persons,
                objects,
                person,
            } => after_object(limit, persons, objects, person, arcs.as_slice(), number),
            Stage::AtCost {
                persons,
                objects,
                person,
                object,
            } => {
                let before = arcs.len() as u64;
                let fault = ReadError::CostRange { arc: before };
                let cost = within_of(number, -MOST_COST, MOST_COST, 3 * before + 3, fault)?;
                arcs.push(Arc {
                    person,
                    object,
                    cost,
                })?;
                Ok(Stage::AtPerson { persons, objects })
            }
        }
    }

    /// The problem of a text that ends here.
    #[tactic(auto, unfolding(crate::specs::Reading::finish_at))]
    pub(crate) fn finished(self, limit: u32, arcs: Vec<Arc>) -> Result<ArcList, ReadError>
        requires few { limit ≤ MOST_ARCS }
        requires sound { IsStage limit self arcs.items }
        ensures { finish_at self arcs.items ≡ result }
    {
        let before = arcs.len() as u64;
        match self {
            Stage::AtCount { .. } => Err(ReadError::Empty),
            Stage::AtPerson { persons, objects } => Ok(ArcList::make(persons, objects, arcs)),
            Stage::AtObject { .. } => Err(ReadError::Cut {
                tokens: 3 * before + 2,
            }),
            Stage::AtCost { .. } => Err(ReadError::Cut {
                tokens: 3 * before + 3,
            }),
        }
    }
}
