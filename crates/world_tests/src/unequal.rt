//! More objects than persons: the answers of the serial solver, whatever the number of shards.

ghost use Rattle.std.specs.Prelude.{◌≤◌};

use crate::answers::answered_of;
use crate::problems::TWO;
use auc_graph::{ReadLimits, Rows, TEXT_PERSONS, read_arcs};
use auc_world::{Limits, first_eps};
use std::test::*;

/// Whether this is the answer about the problem with this number of objects.
fn answers(
    rt: &HostRuntime,
    text: &str,
    objects: u16,
    limits: Limits,
    expected: &str,
) -> Result<bool, Fail>
    requires { objects ≤ 20000 }
{
    let read = ReadLimits {
        persons: TEXT_PERSONS,
        arcs: 100,
        reads: 0,
        objects: objects as u32,
    };
    let problem = read_arcs(rt.alloc(), text.as_bytes(), read)?;
    let rows = Rows::build(rt.alloc(), &problem)?;
    let out = answered_of(rt, &problem, limits)?;
    Ok(first_eps(&rows) == 1 && out.as_slice() == expected.as_bytes())
}

/// An object that nobody takes has price 0.
#[test]
fn optimal(rt: HostRuntime) -> Result<(), Fail> {
    let one = "auction 2\noptimal 1 2 3\nassign 1 2 3\nprice 1 0\nprice 2 5\n";
    let two =
        "auction 2\noptimal 2 3 3\nassign 1 2 2\nassign 2 1 1\nprice 1 7\nprice 2 5\nprice 3 0\n";
    for shards in [1, 2, 16] {
        assert!(rt; answers(&rt, "1\n1 1 5\n1 2 3\n", 2, Limits::usual(shards), one)?);
    }
    assert!(rt; answers(&rt, TWO, 3, Limits::usual(1), two)?);
    Ok(())
}

#[test]
fn brackets(rt: HostRuntime) -> Result<(), Fail> {
    let one_bid = Limits {
        bids: 1,
        ..Limits::usual(1)
    };
    let text =
        "auction 2\nbracket bids 2 3 3 4\nassign 1 1 1\nassign 2 2 3\nprice 1 4\nprice 2 0\nprice 3 0\n";
    assert!(rt; answers(&rt, TWO, 3, one_bid, text)?);
    Ok(())
}

/// A Hall set whose objects version 1 can name has a text of version 1.
#[test]
fn infeasible(rt: HostRuntime) -> Result<(), Fail> {
    let near = "auction 1\ninfeasible 2 1\nperson 1\nperson 2\nobject 3\n";
    let far = "auction 2\ninfeasible 2 1\nperson 1\nperson 2\nobject 15000\n";
    assert!(rt; answers(&rt, "2\n1 3 5\n2 3 7\n", 3, Limits::usual(1), near)?);
    assert!(rt;
        answers(
            &rt,
            "2\n1 15000 5\n2 15000 7\n",
            20_000,
            Limits::usual(1),
            far
        )?
    );
    Ok(())
}
