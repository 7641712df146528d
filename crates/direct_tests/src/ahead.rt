//! The last phase, tried early: where the first phase took few bids it ends the run, or is given up, and so it is where
//! there are ties.

ghost use Rattle.std.specs.Prelude.{false, true, ◌≤◌};

use crate::texts::{AMPLE, problem_of, text_of};
use auc_direct::{Progress, Watch, solve_direct_watched};
use auc_graph::{Arc, ArcList};
use std::test::*;

/// Four persons, who each have an arc of cost 1 and another one of the greatest cost: in the first phase each bids
/// once.
const LEVELS: &str =
    "4\n1 1 1 1 2 1000000\n2 2 1 2 3 1000000\n3 3 1 3 4 1000000\n4 1 1000000 4 4 1\n";

/// Counts how often it was asked, and keeps the first two eps and the last one; and goes on.
#[derive(Drop)]
struct Ear {
    questions: u32,
    first: i64,
    second: i64,
    last: i64,
}

impl Watch for Ear {
    ghost has_stopped = { λ _. false };

    ghost was_asked = { λ _. true };

    fn has_said_no(&self) -> bool {
        false
    }

    fn goes_on(&mut self, progress: Progress) -> bool {
        if self.questions == 0 {
            self.first = progress.eps;
        }
        if self.questions == 1 {
            self.second = progress.eps;
        }
        self.last = progress.eps;
        self.questions = self.questions.saturating_add(1);
        true
    }
}

fn listening() -> Ear {
    Ear {
        questions: 0,
        first: 0,
        second: 0,
        last: 0,
    }
}

/// Groups of three, of whom each has two objects at cost 0 and the third one at 10. The other persons each have their
/// own object at cost 0, the next one at 100, and the third one of a group at 1. So column reduction doesn't give that
/// object its price. The first phase sells it at a great eps, and the last phase would take many small steps up to that
/// price.
fn groups(rt: &HostRuntime, groups: u32, others: u32) -> Result<ArcList, Fail>
    requires some { 1 ≤ groups }
    requires groups { groups ≤ 1000 }
    requires others { others ≤ 1000 }
{
    let grouped = 3 * groups;
    let persons = grouped + others;
    let mut arcs = Vec::new(rt.alloc());
    for person in 0..grouped {
        for place in 0..3 {
            arcs.push(Arc {
                cost: if place < 2 { 0 } else { 10 },
                person,
                object: person - person % 3 + place,
            })?;
        }
    }
    for person in grouped..persons {
        let next = if person + 1 < persons {
            person + 1
        } else {
            grouped
        };
        let wanted = (person - grouped) % groups * 3 + 2;
        for (object, cost) in [(person, 0), (next, 100), (wanted, 1)] {
            arcs.push(Arc {
                cost,
                person,
                object,
            })?;
        }
    }
    ArcList::from_arcs(persons, persons, arcs).map_err(|_| Fail::new("no problem"))
}

/// After a first phase the last one ends the run.
#[test]
fn two_levels(rt: HostRuntime) -> Result<(), Fail> {
    let problem = problem_of(&rt, LEVELS, 0)?;
    let mut ear = listening();
    let answer = solve_direct_watched(rt.alloc(), &problem, &AMPLE, &mut ear)?;
    let told = text_of(&rt, &problem, answer)?;
    assert!(rt; told.as_slice().starts_with(b"auction 1\noptimal 4 4\n"));
    assert!(rt; ear.questions == 2);
    assert!(rt; ear.first > 1);
    assert!(rt; ear.last == 1);
    Ok(())
}

/// Persons who each have an object at cost 1 and the next one too: at the last eps one phase is enough.
#[test]
fn ties(rt: HostRuntime) -> Result<(), Fail> {
    let mut arcs = Vec::new(rt.alloc());
    for person in 0..40 {
        for object in [person, (person + 1) % 40] {
            arcs.push(Arc {
                cost: 1,
                person,
                object,
            })?;
        }
    }
    let problem = ArcList::from_arcs(40, 40, arcs).map_err(|_| Fail::new("no problem"))?;
    let mut ear = listening();
    let answer = solve_direct_watched(rt.alloc(), &problem, &AMPLE, &mut ear)?;
    let told = text_of(&rt, &problem, answer)?;
    assert!(rt; told.as_slice().starts_with(b"auction 1\noptimal 40 40\n"));
    assert!(rt; ear.questions == 1);
    assert!(rt; ear.first == 1);
    Ok(())
}

/// Most persons have two best objects, so the last phase is tried first. It is given up, since a fifth of the persons
/// stay without an object. Then other phases come, and the last one again.
#[test]
fn given_up(rt: HostRuntime) -> Result<(), Fail> {
    for (many, others, claim) in [
        (30, 50, "auction 1\noptimal 140 300\n"),
        (60, 80, "auction 1\noptimal 260 600\n"),
    ] {
        let problem = groups(&rt, many, others)?;
        let mut ear = listening();
        let answer = solve_direct_watched(rt.alloc(), &problem, &AMPLE, &mut ear)?;
        let told = text_of(&rt, &problem, answer)?;
        assert!(rt; told.as_slice().starts_with(claim.as_bytes()));
        assert!(rt; ear.first == 1);
        assert!(rt; ear.second > 1);
        assert!(rt; ear.questions > 2);
        assert!(rt; ear.last == 1);
    }
    Ok(())
}
