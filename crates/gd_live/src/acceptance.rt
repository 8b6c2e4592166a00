//! Whether what stands before a call answers a question.

ghost use Rattle.std.specs.Prelude.{◌≡◌, ℕ, List, true, Ok};
ghost use Rattle.gd_certificate.specs.Checked.{IsRight};
ghost use Rattle.gd_certificate.specs.Cutting.{Members};
ghost use Rattle.gd_certificate.specs.Explained.{IsShaped, Cuts};
ghost use Rattle.gd_text.specs.Members.{members_of};
ghost use Rattle.gd_day.specs.Groups.{Passes};
ghost use Rattle.gd_course.specs.Course.{Tariffs, Offers};

use gd_certificate::{CertFault, check, check_cut};
use gd_day::{offered_cut, offered_prices, offered_schedule};
use gd_question::Question;
use gd_text_part::Row;
use std::alloc::{AllocError, Global};

/// Whether the rows offer a schedule, with prices that show it best.
pub(crate) fn offers_best(
    alloc: Global,
    question: &Question,
    group: &[Row],
) -> Result<bool, AllocError>
    requires { Passes question.now.pipeline group.now }
    ensures { result ≡ Ok true → (schedule : List ℕ) × (prices : Tariffs)
        × Offers question.now.pipeline group.now schedule prices
        × IsRight (record { question = question.now; schedule = schedule; prices = prices }) }
{
    let schedule = offered_schedule(alloc, group)?;
    let prices = offered_prices(alloc, group, question.system())?;
    let found = check(alloc, question, &schedule, &prices);
    drop(schedule);
    drop(prices);
    match found {
        Ok(()) => Ok(true),
        Err(CertFault::OutOfMemory) => Err(AllocError),
        Err(_) => Ok(false),
    }
}

/// Whether the rows name a set that shows that no schedule is allowed.
pub(crate) fn names_cut(
    alloc: Global,
    question: &Question,
    group: &[Row],
) -> Result<bool, AllocError>
    requires { Passes question.now.pipeline group.now }
    ensures { result ≡ Ok true → (cut : Members) × (members_of group.now question.now.pipeline ≡ Ok cut)
        × IsShaped question.now.pipeline cut × Cuts question.now cut }
{
    let cut = offered_cut(alloc, group, question.system())?;
    let found = check_cut(question, &cut);
    drop(cut);
    Ok(found.is_ok())
}
