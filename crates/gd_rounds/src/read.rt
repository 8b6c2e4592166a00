//! Texts are read back.

ghost use Rattle.std.specs.Prelude.{◌≡◌, Ok, IsTrue};
ghost use Rattle.gd_text.specs.Members as members;
ghost use Rattle.gd_text.specs.Prices as prices;
ghost use Rattle.gd_text.specs.Values as values;
ghost use Rattle.gd_rounds.specs.Rounds as spec;

use gd_certificate::{Checked, Cut};
use gd_question::Question;
use gd_system::System;
use gd_text::{asked_of, members_of, prices_of, question_of};
use gd_text_part::{Form, Row, rows_in};
use std::alloc::Global;

/// Whether rows ask this very question.
fn ask(alloc: Global, rows: &[Row], question: &Question) -> bool
    ensures { IsTrue result → values.question_of rows.now ≡ Ok question.now }
{
    match question_of(alloc, rows) {
        Ok(back) => {
            let same = back.same(question);
            drop(back);
            same
        }
        Err(_) => false,
    }
}

/// Whether rows ask the question of a certificate, and offer its schedule.
fn offer_schedule(alloc: Global, rows: &[Row], certificate: &Checked) -> bool
    ensures { IsTrue result
        → values.asked_of rows.now ≡ Ok (certificate.now.question, certificate.now.schedule) }
{
    match asked_of(alloc, rows) {
        Ok(back) => {
            let same = back.question.same(certificate.question())
                && back.schedule.same(certificate.schedule());
            drop(back);
            same
        }
        Err(_) => false,
    }
}

/// Whether rows offer the prices of a certificate.
fn offer_prices(alloc: Global, rows: &[Row], certificate: &Checked) -> bool
    ensures { IsTrue result → (table : prices.Table)
        × (prices.prices_of rows.now certificate.now.question.pipeline ≡ Ok table)
        × prices.ArePrices table certificate.now.prices }
{
    let Ok(table) = prices_of(alloc, rows, certificate.question().system()) else {
        return false;
    };
    match table.prices(alloc) {
        Ok(back) => back.same(certificate.prices()),
        Err(_) => false,
    }
}

/// Whether rows name this very set.
fn name_cut(alloc: Global, rows: &[Row], system: &System, cut: &Cut) -> bool
    ensures { IsTrue result → members.members_of rows.now system.now ≡ Ok cut.now }
{
    match members_of(alloc, rows, system) {
        Ok(table) => table.cut().same(cut),
        Err(_) => false,
    }
}

/// Whether the text of a question asks this very question.
pub(crate) fn asks(alloc: Global, text: &[u8], question: &Question) -> bool
    requires { text.now ≡ spec.question_text question.now }
    ensures { IsTrue result → spec.Asks question.now text.now }
{
    match rows_in(alloc, Form::Solve, text) {
        Ok(rows) => ask(alloc, rows.as_slice(), question),
        Err(_) => false,
    }
}

/// Whether the text of a certificate says this very certificate.
pub(crate) fn certifies(alloc: Global, text: &[u8], certificate: &Checked) -> bool
    requires { text.now ≡ spec.certificate_text certificate.now }
    ensures { IsTrue result → spec.Certifies certificate.now text.now }
{
    match rows_in(alloc, Form::CheckBest, text) {
        Ok(rows) => {
            offer_schedule(alloc, rows.as_slice(), certificate)
                && offer_prices(alloc, rows.as_slice(), certificate)
        }
        Err(_) => false,
    }
}

/// Whether the text of a question with a set asks this very question, and names this very set.
pub(crate) fn refutes(alloc: Global, text: &[u8], question: &Question, cut: &Cut) -> bool
    requires { text.now ≡ spec.cut_text question.now cut.now }
    ensures { IsTrue result → spec.Refutes question.now cut.now text.now }
{
    match rows_in(alloc, Form::CheckCut, text) {
        Ok(rows) => {
            ask(alloc, rows.as_slice(), question)
                && name_cut(alloc, rows.as_slice(), question.system(), cut)
        }
        Err(_) => false,
    }
}
