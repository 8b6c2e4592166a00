//! What the arcs of a network gain.

ghost use Rattle.std.specs.Prelude.{ℕ, ◌<◌, pos, length, map, IfOk, IsTrue};
ghost use Rattle.gd_labels.specs.Links.{most_gain};
ghost use Rattle.gd_mincost.specs.Gains.{IsGainAt, AreGains, gain_at};
ghost use Rattle.gd_mincost.specs.Settling.{worth};

use gd_cost::ByClass;
use gd_network::Network;
use std::alloc::{AllocError, Global};

/// What a dekatherm along an arc gains: nothing along an element's, and along that of a line's tenth what it is worth there.
pub(crate) fn gain_of<C: ByClass>(network: &Network<'_>, number: usize) -> C
    requires { number < length network.now.arcs }
    ensures is { IsGainAt C.scale (worth C.meaning C.at) network.now.question.asked number
        (C.meaning result) }
    ensures small { IsTrue (C.within (pos most_gain) (C.meaning result)) }
{
    match network.tenth(number) {
        None => C::zero(),
        Some(tenth) => {
            let class = network.question().class(tenth.line);
            C::unit_at(class, tenth.before as u8 + 1)
        }
    }
}

/// What each arc gains, by the arcs' numbers.
pub(crate) fn gains<C: ByClass>(alloc: Global, network: &Network<'_>) -> Result<Vec<C>, AllocError>
    ensures all { IfOk result
        (λ gains. AreGains C.scale C.within (length network.now.arcs) (map C.meaning gains.items)) }
    ensures each { IfOk result
        (λ gains. (a : ℕ) → a < length network.now.arcs
        → IsGainAt C.scale (worth C.meaning C.at) network.now.question.asked a
        (gain_at C.scale (map C.meaning gains.items) a)) }
{
    let mut gains = Vec::new(alloc);
    for number in 0..network.arc_count() {
        gains.push(gain_of(network, number))?;
    }
    Ok(gains)
}
