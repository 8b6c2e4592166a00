//! What follows from the definitions for every gas day, whatever calls come to its book.

ghost use Rattle.gd_machine.specs.Day.{Day, IsDay};
ghost use Rattle.gd_machine.specs.History.{History};
ghost use Rattle.gd_machine.specs.Known.{IsSound};
ghost use Rattle.gd_machine.specs.Machine.{IsLegal, AllPass};
ghost use Rattle.gd_machine.specs.Headline.{Headline};

/// Each schedule that is published is allowed and best for the question of its frozen cycle; where a cycle is declared
/// impossible no schedule is allowed, and Timely never is; each accepted nomination is counted in exactly one cycle.
pub fn every_day_holds()
    ensures { Headline }
{}

/// Nominations are of lines with a route and a class, their cycles never fall, and no more has flowed of a line than its
/// schedule in effect.
pub fn every_day_is_sound()
    ensures { (day : Day) (h : History) → IsDay day → IsLegal day h → AllPass h → IsSound day h }
{}
