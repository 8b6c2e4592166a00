//! Texts that say a frozen question, and what came of it.
//!
//! What is printed is read again, and nothing else of it is believed.

ghost use Rattle.std.specs.Prelude.{◌≡◌, ◌++◌, IfOk, OnOk, drop, string_bytes};
ghost use Rattle.gd_certificate.specs.Explained.{IsShaped};
ghost use Rattle.gd_replies.specs.Lines.{lines_of};
ghost use Rattle.gd_replies.specs.Replies.{cut_rows};
ghost use Rattle.gd_rounds.specs.Rounds as spec;

use crate::read::{asks, certifies, refutes};
use gd_body::{write_prices, write_question, write_schedule};
use gd_certificate::{Checked, Cut};
use gd_question::Question;
use gd_replies::{Reply, cut_replies};
use std::alloc::{AllocError, Global};

/// The text of a question alone.
pub(crate) fn question_text(alloc: Global, question: &Question) -> Result<String, AllocError>
    ensures { IfOk result (λ text. spec.Asks question.now (string_bytes text)) }
{
    let mut text = String::new(alloc);
    write_question(&mut text, question)?;
    if asks(alloc, text.as_bytes(), question) {
        Ok(text)
    } else {
        Err(AllocError)
    }
}

/// The rows of a certificate.
fn write_certificate(text: &mut String, certificate: &Checked) -> Result<(), AllocError>
    ensures { OnOk result (string_bytes text.new ≡ string_bytes text.old ++ spec.certificate_text certificate.now) }
{
    write_question(text, certificate.question())?;
    write_schedule(text, certificate.schedule())?;
    write_prices(text, certificate.question().system(), certificate.prices())
}

/// The text of a question with a best schedule, and prices that show it.
pub(crate) fn certificate_text(alloc: Global, certificate: &Checked) -> Result<String, AllocError>
    ensures { IfOk result (λ text. spec.Certifies certificate.now (string_bytes text)) }
{
    let mut text = String::new(alloc);
    write_certificate(&mut text, certificate)?;
    if certifies(alloc, text.as_bytes(), certificate) {
        Ok(text)
    } else {
        Err(AllocError)
    }
}

/// Appends rows. The only error is want of memory.
pub fn write_replies(text: &mut String, rows: &[Reply]) -> Result<(), AllocError>
    ensures { OnOk result (string_bytes text.new ≡ string_bytes text.old ++ lines_of rows.now) }
{
    'rows: for row in rows {
        write!(text, "{row}")?;
    }
    Ok(())
}

/// Appends the rows of a set's members.
fn write_members(
    alloc: Global,
    text: &mut String,
    question: &Question,
    cut: &Cut,
) -> Result<(), AllocError>
    requires { IsShaped question.now.pipeline cut.now }
    ensures { OnOk result (string_bytes text.new
        ≡ string_bytes text.old ++ lines_of (drop 1 (cut_rows question.now.pipeline cut.now 0))) }
{
    let rows = cut_replies(alloc, question, cut, 0)?;
    write_replies(text, &rows.as_slice()[1..])
}

/// The text of a question with a set that shows that no schedule is allowed.
pub(crate) fn cut_text(alloc: Global, question: &Question, cut: &Cut) -> Result<String, AllocError>
    requires { IsShaped question.now.pipeline cut.now }
    ensures { IfOk result (λ text. spec.Refutes question.now cut.now (string_bytes text)) }
{
    let mut text = String::new(alloc);
    write_question(&mut text, question)?;
    write_members(alloc, &mut text, question, cut)?;
    if refutes(alloc, text.as_bytes(), question, cut) {
        Ok(text)
    } else {
        Err(AllocError)
    }
}
