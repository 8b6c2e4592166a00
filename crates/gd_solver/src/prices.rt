//! Prices from potentials.

ghost use Rattle.std.specs.Prelude.{◌≡◌, ℕ, pos, ◌+◌, ◌<◌, length, map, IfOk, IsTrue};
ghost use Rattle.gd_rules.specs.Limits.{most_price_word};
ghost use Rattle.gd_rules.specs.Priced.{price};
ghost use Rattle.gd_question.specs.Nodes.{start, stop};
ghost use Rattle.gd_network.specs.Potential.{ArePrices};
ghost use Rattle.gd_scale.specs.Laws.{less};
ghost use Rattle.gd_mincost.specs.Settling.{potential, most_potential};

use gd_cost::Cost;
use gd_network::Network;
use std::alloc::{AllocError, Global};

/// How far the potential falls along an element's arc.
fn fall<C: Cost>(network: &Network<'_>, potentials: &[C], element: usize) -> C
    requires element { element < length network.now.question.asked.elements }
    requires nodes { length potentials.now ≡ length network.now.question.asked.elements + 1 }
    requires small { (node : ℕ) → node < length potentials.now
        → IsTrue (C.within (pos most_potential) (potential C.scale
        (map C.meaning potentials.now) node)) }
    ensures is { C.meaning result ≡ less C.scale
        (potential C.scale (map C.meaning potentials.now)
        (start network.now.question.asked element))
        (potential C.scale (map C.meaning potentials.now)
        (stop network.now.question.asked element)) }
    ensures small { IsTrue (C.within (pos most_price_word) (C.meaning result)) }
{
    network.known();
    let arc = network.arc(element);
    potentials[arc.from].sub(potentials[arc.to])
}

/// The prices of a question's elements: each is how far the potential falls along the element's arc.
pub(crate) fn prices_of<C: Cost>(
    alloc: Global,
    network: &Network<'_>,
    potentials: &[C],
) -> Result<Vec<C>, AllocError>
    requires nodes { length potentials.now ≡ length network.now.question.asked.elements + 1 }
    requires small { (node : ℕ) → node < length potentials.now
        → IsTrue (C.within (pos most_potential) (potential C.scale
        (map C.meaning potentials.now) node)) }
    ensures falls { IfOk result (λ prices. ArePrices C.scale network.now.question.asked
        (potential C.scale (map C.meaning potentials.now)) (map C.meaning prices.items)) }
    ensures small { IfOk result
        (λ prices. (e : ℕ) → e < length network.now.question.asked.elements
        → IsTrue (C.within (pos most_price_word) (price C.scale (map C.meaning prices.items) e))) }
{
    let mut prices = Vec::new(alloc);
    for element in 0..network.question().element_count() {
        prices.push(fall(network, potentials, element))?;
    }
    Ok(prices)
}
