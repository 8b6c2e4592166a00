//! How a body is written.

ghost use Rattle.std.specs.Prelude.{◌≡◌, ◌↔◌, ◌++◌, IsTrue, IfOk, MatchResult, string_bytes};
ghost use Rattle.gd_body.specs.Body.{IsBody, IsRefused};
ghost use Rattle.gd_body.specs.Rows.{body_text};

use crate::fault::BodyFault;
use crate::question::write_question;
use crate::read::read_body;
use crate::taken::write_taken;
use gd_board::Posting;
use std::alloc::{AllocError, Global};

/// Whether both are the same posting.
pub fn same_posting(a: &Posting, b: &Posting) -> bool
    ensures { IsTrue result ↔ (a.now ≡ b.now) }
{
    a.book == b.book
        && a.cycle == b.cycle
        && a.round == b.round
        && a.question.same(&b.question)
        && a.schedule.same(&b.schedule)
        && a.prices.same(&b.prices)
        && a.bumped.same(&b.bumped)
}

/// The rows of a posting.
pub(crate) fn text_of(alloc: Global, posting: &Posting) -> Result<String, AllocError>
    ensures { IfOk result (λ text. string_bytes text ≡ body_text posting.now) }
{
    let mut text = String::new(alloc);
    write_question(&mut text, &posting.question)?;
    write_taken(&mut text, posting)?;
    Ok(text)
}

/// The body of a posting, which was read back and says this very posting. `Damaged` where its text does not say it, as where
/// the book, cycle or round is not the question's; the only other error is want of memory.
pub fn body_of(alloc: Global, posting: &Posting) -> Result<Vec<u8>, BodyFault>
    ensures { MatchResult result (λ body. IsBody posting.now body.items) (IsRefused posting.now) }
{
    let body = text_of(alloc, posting)?.into_bytes();
    let back = read_body(alloc, &body)?;
    let same = same_posting(posting, &back);
    drop(back);
    if same {
        Ok(body)
    } else {
        Err(BodyFault::Damaged)
    }
}
