//! Whether potentials show that a flow is best.

ghost use Rattle.std.specs.Prelude.{◌≡◌, ℕ, suc, ◌+◌, ◌<◌, ◌^◌, pos, true, false, length, map, IfSome, IsTrue};
ghost use Rattle.gd_scale.specs.Scale.{AtMost};
ghost use Rattle.gd_mincost.specs.Settling.{potential, worth};
ghost use Rattle.gd_mincost.specs.Stillness.{AreSmall, IsStillAlong, IsStillBack, GainsNoneAlong, GainsNoneBack, IsBeforeTenth, ShowsBest};

use crate::MAX_POTENTIAL_WORD;
use crate::gains::gain_of;
use gd_cost::{ByClass, Cost};
use gd_network::Network;

/// Whether what a step gains would raise the potential at its end.
fn improves<C: Cost>(start: C, gain: C, end: C) -> bool
    requires start { IsTrue (C.within (pos (2 ^ 100)) (C.meaning start)) }
    requires gain { IsTrue (C.within (pos (2 ^ 100)) (C.meaning gain)) }
    ensures { result ≡ false
        → AtMost C.scale (C.scale.plus (C.meaning start) (C.meaning gain)) (C.meaning end) }
{
    start.add(gain).cmp(end).is_gt()
}

/// Whether a step from one node to another that gains so much would raise no potential.
fn raises_none<C: Cost>(potentials: &[C], from: usize, to: usize, gain: C) -> bool
    requires from { from < length potentials.now }
    requires to { to < length potentials.now }
    requires small { AreSmall C.scale C.within (map C.meaning potentials.now) }
    requires gain { IsTrue (C.within (pos (2 ^ 100)) (C.meaning gain)) }
    ensures { result ≡ true → AtMost C.scale
        (C.scale.plus (potential C.scale (map C.meaning potentials.now) from) (C.meaning gain))
        (potential C.scale (map C.meaning potentials.now) to) }
{
    if improves(potentials[from], gain, potentials[to]) {
        return false;
    }
    true
}

/// Whether an arc gains nothing by carrying more.
fn gains_none_along<C: ByClass>(network: &Network<'_>, potentials: &[C], number: usize) -> bool
    requires arc { number < length network.now.arcs }
    requires nodes { length potentials.now ≡ length network.now.question.asked.elements + 1 }
    requires small { AreSmall C.scale C.within (map C.meaning potentials.now) }
    ensures { result ≡ true
        → GainsNoneAlong C.scale (worth C.meaning C.at)
        network.now.question.asked network.now.arcs (map C.meaning potentials.now) number }
{
    network.known();
    let arc = network.arc(number);
    let gain = gain_of::<C>(network, number);
    raises_none(potentials, arc.from, arc.to, gain)
}

/// Whether an arc gains nothing by carrying less.
fn gains_none_back<C: ByClass>(network: &Network<'_>, potentials: &[C], number: usize) -> bool
    requires arc { number < length network.now.arcs }
    requires nodes { length potentials.now ≡ length network.now.question.asked.elements + 1 }
    requires small { AreSmall C.scale C.within (map C.meaning potentials.now) }
    ensures { result ≡ true
        → GainsNoneBack C.scale (worth C.meaning C.at)
        network.now.question.asked network.now.arcs (map C.meaning potentials.now) number }
{
    network.known();
    let arc = network.arc(number);
    let gain = gain_of::<C>(network, number);
    let turned = C::zero().sub(gain);
    raises_none(potentials, arc.to, arc.from, turned)
}

/// Whether the arc behind one stands for the next tenth of the same line.
fn is_before_tenth(network: &Network<'_>, number: usize) -> bool
    requires { number < length network.now.arcs }
    ensures { result ≡ true → IsBeforeTenth network.now.question.asked number }
{
    match network.tenth(number) {
        Some(tenth) => tenth.before < 9,
        None => false,
    }
}

/// Finds that an arc gains nothing by carrying more, or can't, and whether that is known of the next one too: a later tenth
/// of a line gains no more. `None` where it gains. Of this arc it may be known already.
fn still_along<C: ByClass>(
    network: &Network<'_>,
    flow: &[i64],
    potentials: &[C],
    number: usize,
    is_known: bool,
) -> Option<bool>
    requires arc { number < length network.now.arcs }
    requires size { length flow.now ≡ length network.now.arcs }
    requires nodes { length potentials.now ≡ length network.now.question.asked.elements + 1 }
    requires small { AreSmall C.scale C.within (map C.meaning potentials.now) }
    requires known { is_known ≡ true
        → GainsNoneAlong C.scale (worth C.meaning C.at)
        network.now.question.asked network.now.arcs (map C.meaning potentials.now) number }
    ensures still { IfSome result (λ _. IsStillAlong C.scale (worth C.meaning C.at)
        network.now.question.asked network.now.arcs flow.now (map C.meaning potentials.now)
        number) }
    ensures next { IfSome result (λ next. next ≡ true
        → GainsNoneAlong C.scale (worth C.meaning C.at)
        network.now.question.asked network.now.arcs (map C.meaning potentials.now) (suc number)) }
{
    network.known();
    if !is_known {
        if flow[number] >= network.arc(number).upper {
            return Some(false);
        }
        if !gains_none_along(network, potentials, number) {
            return None;
        }
    }
    Some(is_before_tenth(network, number))
}

/// Finds that an arc gains nothing by carrying less, or can't, and whether that is known of the one before too: an earlier
/// tenth of a line is worth no less. `None` where it gains. Of this arc it may be known already.
fn still_back<C: ByClass>(
    network: &Network<'_>,
    flow: &[i64],
    potentials: &[C],
    number: usize,
    is_known: bool,
) -> Option<bool>
    requires arc { number < length network.now.arcs }
    requires size { length flow.now ≡ length network.now.arcs }
    requires nodes { length potentials.now ≡ length network.now.question.asked.elements + 1 }
    requires small { AreSmall C.scale C.within (map C.meaning potentials.now) }
    requires known { is_known ≡ true
        → GainsNoneBack C.scale (worth C.meaning C.at)
        network.now.question.asked network.now.arcs (map C.meaning potentials.now) number }
    ensures still { IfSome result (λ _. IsStillBack C.scale (worth C.meaning C.at)
        network.now.question.asked network.now.arcs flow.now (map C.meaning potentials.now)
        number) }
    ensures next { IfSome result (λ next. next ≡ true → (k : ℕ) → suc k ≡ number
        → GainsNoneBack C.scale (worth C.meaning C.at)
        network.now.question.asked network.now.arcs (map C.meaning potentials.now) k) }
{
    network.known();
    if !is_known {
        if flow[number] <= network.arc(number).lower {
            return Some(false);
        }
        if !gains_none_back(network, potentials, number) {
            return None;
        }
    }
    if number == 0 {
        return Some(false);
    }
    Some(is_before_tenth(network, number - 1))
}

/// Whether no arc that can carry more gains by it.
fn are_still_along<C: ByClass>(network: &Network<'_>, flow: &[i64], potentials: &[C]) -> bool
    requires size { length flow.now ≡ length network.now.arcs }
    requires nodes { length potentials.now ≡ length network.now.question.asked.elements + 1 }
    requires small { AreSmall C.scale C.within (map C.meaning potentials.now) }
    ensures { result ≡ true → (a : ℕ) → a < length network.now.arcs
        → IsStillAlong C.scale (worth C.meaning C.at)
        network.now.question.asked network.now.arcs flow.now (map C.meaning potentials.now) a }
{
    let mut is_known = false;
    for number in 0..network.arc_count() {
        match still_along(network, flow, potentials, number, is_known) {
            Some(next) => is_known = next,
            None => return false,
        }
    }
    true
}

/// Whether no arc that can carry less gains by it, from the last one on.
fn are_still_back<C: ByClass>(network: &Network<'_>, flow: &[i64], potentials: &[C]) -> bool
    requires size { length flow.now ≡ length network.now.arcs }
    requires nodes { length potentials.now ≡ length network.now.question.asked.elements + 1 }
    requires small { AreSmall C.scale C.within (map C.meaning potentials.now) }
    ensures { result ≡ true → (a : ℕ) → a < length network.now.arcs
        → IsStillBack C.scale (worth C.meaning C.at)
        network.now.question.asked network.now.arcs flow.now (map C.meaning potentials.now) a }
{
    let count = network.arc_count();
    let mut is_known = false;
    for step in 0..count {
        let number = count - 1 - step;
        match still_back(network, flow, potentials, number, is_known) {
            Some(before) => is_known = before,
            None => return false,
        }
    }
    true
}

/// Whether no step that has room gains.
fn is_still<C: ByClass>(network: &Network<'_>, flow: &[i64], potentials: &[C]) -> bool
    requires size { length flow.now ≡ length network.now.arcs }
    requires nodes { length potentials.now ≡ length network.now.question.asked.elements + 1 }
    requires small { AreSmall C.scale C.within (map C.meaning potentials.now) }
    ensures { result ≡ true
        → ShowsBest C.scale (worth C.meaning C.at)
        network.now.question.asked network.now.arcs flow.now (map C.meaning potentials.now) }
{
    are_still_along(network, flow, potentials) && are_still_back(network, flow, potentials)
}

/// Whether no potential is too large.
fn are_small<C: Cost>(potentials: &[C]) -> bool
    ensures { result ≡ true → AreSmall C.scale C.within (map C.meaning potentials.now) }
{
    for potential in potentials {
        if !potential.fits(MAX_POTENTIAL_WORD) {
            return false;
        }
    }
    true
}

/// Whether potentials show that a flow within its bounds is best: there is one for each node, none of them too large,
/// and no step that has room gains.
///
/// It answers `true` only where they do. It asks for an amount for each arc.
pub fn show_best<C: ByClass>(network: &Network<'_>, flow: &[i64], potentials: &[C]) -> bool
    requires { length flow.now ≡ length network.now.arcs }
    ensures nodes { result ≡ true
        → length potentials.now ≡ length network.now.question.asked.elements + 1 }
    ensures small { result ≡ true → AreSmall C.scale C.within (map C.meaning potentials.now) }
    ensures still { result ≡ true
        → ShowsBest C.scale (worth C.meaning C.at)
        network.now.question.asked network.now.arcs flow.now (map C.meaning potentials.now) }
{
    if potentials.len() != network.node_count() {
        return false;
    }
    if !are_small(potentials) {
        return false;
    }
    is_still(network, flow, potentials)
}
