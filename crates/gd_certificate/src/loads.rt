//! What every check of a certificate asks first: whether the schedule is allowed.

ghost use Rattle.std.specs.Prelude.{IfOk, IfErr};
ghost use Rattle.gd_certificate.specs.Loads.{AreLoads, ExplainsLoads};

use crate::CertFault;
use gd_question::Question;
use gd_schedule::{Schedule, load_table};
use std::alloc::Global;

/// The loads of the elements, in dekatherms a gas day, where the schedule is allowed and there are so many prices as
/// elements.
///
/// # Errors
///
/// `Shape`, `Broken` and `OutOfMemory`, the first of these that applies.
pub fn allowed_loads(
    alloc: Global,
    question: &Question,
    schedule: &Schedule,
    prices: usize,
) -> Result<Vec<i64>, CertFault>
    ensures loads { IfOk result
        (λ loads. AreLoads question.now.asked schedule.now prices loads.items) }
    ensures fault { IfErr result (ExplainsLoads question.now.asked schedule.now prices) }
{
    if schedule.len() != question.line_count() || prices != question.element_count() {
        return Err(CertFault::Shape);
    }
    schedule.bounded(question)?;
    let loads = load_table(alloc, question, schedule)?;
    schedule.carried(question, &loads)?;
    Ok(loads)
}
