//! Three links in a ring.

ghost use Rattle.std.specs.Prelude.{map, pos, IfOk, IsTrue};
ghost use Rattle.gd_scale.specs.Words.{word_fits};
ghost use Rattle.gd_scale.specs.Sizes.{whole};
ghost use Rattle.gd_cost.specs.Made.{number_of};
ghost use Rattle.gd_labels.specs.Links.{AreLinks};

use gd_cost::One;
use gd_labels::{Found, Links, potentials};
use std::alloc::{AllocError, Global};
use std::test::Fail;

/// Links from node 0 to 1 to 2 and back to 0, which gain 1, 2 and this.
fn ring(alloc: Global, last: i128) -> Result<Links<One>, AllocError>
    requires { IsTrue (word_fits (pos 16) last) }
    ensures { IfOk result (λ links. AreLinks whole word_fits 3 links.from.items links.to.items
        (map number_of links.gain.items)) }
{
    Ok(Links {
        from: Vec::from_array(alloc, [0, 1, 2])?,
        to: Vec::from_array(alloc, [1, 2, 0])?,
        gain: Vec::from_array(alloc, [One::of(1), One::of(2), One::of(last)])?,
    })
}

#[test]
fn labels_of_a_ring_that_gains_nothing(rt: HostRuntime) -> Result<(), Fail> {
    let links = ring(rt.alloc(), -3)?;
    let Found::Labels(labels) = potentials(rt.alloc(), &links, 3)? else {
        return Err("no walk gains")?;
    };
    let wanted = [One::of(0), One::of(1), One::of(3)];
    assert_eq!(rt; labels.as_slice(), wanted.as_slice());
    Ok(())
}

#[test]
fn ring_that_gains(rt: HostRuntime) -> Result<(), Fail> {
    let links = ring(rt.alloc(), -2)?;
    let Found::Closed(walk) = potentials(rt.alloc(), &links, 3)? else {
        return Err("the ring gains")?;
    };
    assert_eq!(rt; walk.as_slice(), [2, 1, 0].as_slice());
    Ok(())
}
