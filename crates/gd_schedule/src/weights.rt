//! What dekatherms weigh: within a class those of a later tenth of a line's ceiling weigh more, and are worth less (own).

ghost use Rattle.std.specs.Prelude.{◌≡◌, ◌≤◌, ◌+◌};
ghost use Rattle.gd_scale.specs.Sum.{sum_nat};
ghost use Rattle.gd_rules.specs.Spread.{tenth_of, tenth_end};

use gd_units::Dth;

/// The last dekatherm of a tenth of the ceiling.
fn tenth_end(ceiling: u64, tenth: u64) -> u64
    requires ceiling { ceiling ≤ Dth.MAX }
    requires tenth { tenth ≤ 10 }
    ensures { result ≡ tenth_end ceiling tenth }
{
    ceiling * tenth / 10
}

/// The tenth of a line's ceiling in which a dekatherm lies, 1 to 10; its dekatherms are counted from 1.
pub fn tenth_of(ceiling: Dth, dekatherm: u64) -> u8
    requires { 1 ≤ dekatherm }
    ensures is { result ≡ tenth_of ceiling dekatherm }
    ensures low { 1 ≤ result }
    ensures high { result ≤ 10 }
{
    let last = ceiling.get();
    let mut tenth = 0;
    for j in 0..10 {
        if tenth_end(last, j) < dekatherm {
            tenth += 1;
        }
    }
    tenth
}

/// What the first dekatherms of a line weigh together, each its tenth.
///
/// Past the end of each of the tenths 0 to 9 a dekatherm weighs 1 more, so ten differences give the sum.
pub(crate) fn line_weight(ceiling: Dth, quantity: Dth) -> u64
    ensures is { result ≡ sum_nat quantity (λ d. tenth_of ceiling (d + 1)) }
    ensures high { result ≤ 10_000_000_000 }
{
    let last = ceiling.get();
    let count = quantity.get();
    let mut weight = 0;
    for j in 0..10 {
        weight += count.saturating_sub(tenth_end(last, j));
    }
    weight
}
