//! A small tree: place 0 leads to 1, 1 to 2, and 3 to 1.

ghost use Rattle.std.specs.Prelude.{◌≡◌, [], length, OnOk};

use gd_tree::{Segment, Tree};
use gd_units::Dth;
use std::alloc::{AllocError, Global};
use std::process::Abort;
use std::test::Fail;

fn grow(tree: &mut Tree) -> Result<(), AllocError>
    requires { tree.old ≡ [] }
    ensures { OnOk result (length tree.new ≡ 3) }
{
    let capacity = Dth::ZERO;
    tree.push(Segment {
        from: 0,
        to: 1,
        capacity,
    })?;
    tree.push(Segment {
        from: 1,
        to: 2,
        capacity,
    })?;
    tree.push(Segment {
        from: 3,
        to: 1,
        capacity,
    })
}

fn shows_routes(rt: &impl Abort, alloc: Global, tree: &Tree) -> Result<(), Fail>
    requires { length tree.now ≡ 3 }
{
    let route = tree.route(alloc, 3, 2)?.ok_or("from 3 over 1 to 2")?;
    assert_eq!(rt; route.as_slice(), [2, 1].as_slice());
    assert!(rt; tree.route(alloc, 2, 0)?.is_none(), "against both segments");
    Ok(())
}

#[test]
fn routes_of_a_copy(rt: HostRuntime) -> Result<(), Fail> {
    let mut tree = Tree::new(rt.alloc());
    grow(&mut tree)?;
    let copy = tree.try_clone(rt.alloc())?;
    shows_routes(&rt, rt.alloc(), &copy)
}
