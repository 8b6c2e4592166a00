//! What a dekatherm is worth, by class and tenth.

ghost use Rattle.std.specs.Prelude.{◌≡◌, ℕ, pos, neg_ℤ, ◌≤◌, IsTrue};
ghost use Rattle.gd_rules.specs.Units.{NeverRises};
ghost use Rattle.gd_scale.specs.Sizes.{listed};
ghost use Rattle.gd_rules.specs.Tariff.{at_class};
ghost use Rattle.gd_rules.proofs.ByClass.{lex_fits, lex_falls, pair_fits, pair_falls, one_pair_fits};

use crate::{Cost, Lex, Pair};
use gd_units::Class;

/// The cost in force: for each class its dekatherms, and then the negative of what their tenths weigh.
pub type Tariff = Pair<Lex<8>, Lex<8>>;

/// A cost that says what a dekatherm of a class is worth, by the tenth of its line's ceiling in which it lies.
pub trait ByClass: Cost {
    /// What a dekatherm is worth, by class alone.
    ghost one: { ℕ → Self };

    /// What a dekatherm is worth, by class and tenth.
    ghost at: { ℕ → ℕ → Self };

    /// What a dekatherm of a class is worth, by the class alone.
    fn unit(class: Class) -> Self
        ensures { Self.meaning result ≡ Self.meaning (one class) };

    /// What a dekatherm of a class in a tenth, 1 to 10, is worth.
    fn unit_at(class: Class, tenth: u8) -> Self
        requires low { 1 ≤ tenth }
        requires high { tenth ≤ 10 }
        ensures { Self.meaning result ≡ Self.meaning (at class tenth) };

    /// It fits 16.
    ghost one_fits: { (class : ℕ) → IsTrue (Self.within (pos 16) (Self.meaning (one class))) };

    /// It fits 16 in each tenth.
    ghost at_fits: { (class tenth : ℕ) → tenth ≤ 10
        → IsTrue (Self.within (pos 16) (Self.meaning (at class tenth))) };

    /// No dekatherm of a later tenth is worth more.
    ghost never_rises: { NeverRises Self.scale (λ class tenth. Self.meaning (at class tenth)) };
}

impl ByClass for Lex<8> {
    ghost one = { λ class. record { words = listed 8 (at_class class (pos 1)) } };

    ghost at = { λ class tenth. record { words = listed 8 (at_class class (pos 1)) } };

    ghost one_fits = { λ class. lex_fits class 0 };

    ghost at_fits = { λ class tenth _. lex_fits class tenth };

    ghost never_rises = { lex_falls };

    fn unit(class: Class) -> Lex<8> {
        let mut words = [0; 8];
        words[class.number() as usize - 1] = 1;
        Lex::of(words)
    }

    fn unit_at(class: Class, _tenth: u8) -> Lex<8> {
        Self::unit(class)
    }
}

impl ByClass for Pair<Lex<8>, Lex<8>> {
    ghost one = { λ class. record {
      first = record { words = listed 8 (at_class class (pos 1)) };
      second = record { words = listed 8 (λ k. pos 0) };
    } };

    ghost at = { λ class tenth. record {
      first = record { words = listed 8 (at_class class (pos 1)) };
      second = record { words = listed 8 (at_class class (neg_ℤ (pos tenth))) };
    } };

    ghost one_fits = { one_pair_fits };

    ghost at_fits = { pair_fits };

    ghost never_rises = { pair_falls };

    fn unit(class: Class) -> Pair<Lex<8>, Lex<8>> {
        Pair::of(Lex::unit(class), Lex::zero())
    }

    fn unit_at(class: Class, tenth: u8) -> Pair<Lex<8>, Lex<8>> {
        Pair::of(Lex::unit(class), Lex::unit(class).times(-i64::from(tenth)))
    }
}
