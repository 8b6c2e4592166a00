//! What follows from the rules of elapsed and confirmed quantities and of floors.

ghost use Rattle.std.specs.Prelude.{◌≡◌, ℕ, suc, ◌+◌, ◌*◌, ◌<◌, ◌≤◌, ◌⊎◌, Bool, true, false, Option};
ghost use Rattle.gd_rules.specs.Bounds.{flowed, elapsed, confirmed, protected, line_floor, bumped};

/// What flows is rounded to the whole dekatherm below.
pub fn flow_is_rounded_down()
    ensures { (quantity hours rest : ℕ) → 1 ≤ rest
        → (flowed quantity hours rest * rest ≤ quantity * hours)
        × (quantity * hours < (flowed quantity hours rest + 1) * rest) }
{}

/// From cycle to cycle the elapsed quantity never falls.
pub fn elapsed_never_falls()
    ensures { (passed : ℕ → ℕ) (day : ℕ) (scheduled : ℕ → ℕ) (early late : ℕ) → early ≤ late
        → elapsed passed day scheduled early ≤ elapsed passed day scheduled late }
{}

/// If no cycle takes effect after the gas day's end, and each schedule either keeps the line's floor or is the former one (the cycle was skipped), then the elapsed quantity never exceeds the schedule in effect.
pub fn elapsed_stays_within_schedule()
    ensures { (passed : ℕ → ℕ) (day : ℕ) (scheduled : ℕ → ℕ) (class : ℕ) (waived : ℕ
        → Bool) (ceiling : ℕ → ℕ)
        → ((c : ℕ) → passed c ≤ day)
        → ((c : ℕ) → (line_floor (suc c) class (waived (suc c)) (elapsed passed day scheduled (suc
        c)) (scheduled c) (ceiling (suc c)) ≤ scheduled (suc c)) ⊎ (scheduled (suc c)
        ≡ scheduled c))
        → (c : ℕ) → elapsed passed day scheduled (suc c) ≤ scheduled c }
{}

/// What has flowed is always confirmed, if it is within the schedule in effect, and nothing has flowed at Timely.
pub fn confirmed_covers_elapsed()
    ensures { (cycle nominated : ℕ) (origin dest : Option ℕ) (former gone : ℕ) → gone ≤ former
        → (cycle ≡ 1 → gone ≡ 0) → gone ≤ confirmed cycle nominated origin dest former gone }
{}

/// A floor lies between what has flowed and what is confirmed.
pub fn floor_lies_between()
    ensures { (cycle class : ℕ) (waived : Bool) (gone former ceiling : ℕ) → gone ≤ ceiling
        → (gone ≤ line_floor cycle class waived gone former ceiling)
        × (line_floor cycle class waived gone former ceiling ≤ ceiling) }
{}

/// The floor of a waived line is what has flowed.
pub fn waived_floor_is_elapsed()
    ensures { (cycle class gone former ceiling : ℕ)
        → line_floor cycle class true gone former ceiling ≡ gone }
{}

/// No schedule that keeps the floor of a protected line bumps it.
pub fn protected_lines_are_not_bumped()
    ensures { (cycle class : ℕ) (waived : Bool) (gone former ceiling scheduled : ℕ)
        → protected cycle class waived ≡ true
        → line_floor cycle class waived gone former ceiling ≤ scheduled
        → bumped cycle former ceiling scheduled ≡ 0 }
{}

/// In Intraday 3 no schedule that keeps a line's floor bumps it, whatever its class, unless it is waived (NAESB WGQ 1.3.2).
pub fn intraday_3_bumps_no_line()
    ensures { (class gone former ceiling scheduled : ℕ)
        → line_floor 5 class false gone former ceiling ≤ scheduled
        → bumped 5 former ceiling scheduled ≡ 0 }
{}

/// In Timely no line has a floor: nothing has flowed, and no line is protected.
pub fn timely_has_no_floors()
    ensures { (passed : ℕ → ℕ) (day : ℕ) (scheduled : ℕ → ℕ) (class : ℕ) (waived : Bool)
        (former ceiling : ℕ)
        → line_floor 1 class waived (elapsed passed day scheduled 1) former ceiling ≡ 0 }
{}
