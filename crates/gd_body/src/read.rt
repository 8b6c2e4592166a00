//! How a body is read.

ghost use Rattle.std.specs.Prelude.{◌≡◌, ◌&&◌, nat_le, nat_lt, IfOk};
ghost use Rattle.gd_text.specs.Building.{Builds};
ghost use Rattle.gd_body.specs.Body as spec;

use crate::fault::BodyFault;
use gd_board::{Bumped, Posting};
use gd_certificate::Prices;
use gd_cost::Tariff;
use gd_system::System;
use gd_text::{Asked, asked_of, prices_of};
use gd_text_part::{Form, Row, TextFault, rows_in};
use gd_units::Dth;
use std::alloc::{AllocError, Global};

/// The lines of the `bumped` rows, which count them from 1.
fn bumped_of(alloc: Global, rows: &[Row]) -> Result<Bumped, AllocError>
    ensures { IfOk result (λ bumped. bumped ≡ spec.bumped_of rows.now) }
{
    let mut lines = Vec::new(alloc);
    'rows: for row in rows {
        if let Row::Bumped { line, quantity } = *row {
            lines.push((line.saturating_sub(1), quantity))?;
        }
    }
    Bumped::of(alloc, lines)
}

/// The prices that the rows give for the elements of a system, or the first refusal.
fn tariffs_of(alloc: Global, rows: &[Row], system: &System) -> Result<Prices<Tariff>, TextFault>
    ensures { Builds (λ prices. prices) result (spec.tariffs_of rows.now system.now) }
{
    let table = prices_of(alloc, rows, system)?;
    Ok(table.prices(alloc)?)
}

/// The posting that the rows say, or the first refusal.
fn posting_of(alloc: Global, rows: &[Row]) -> Result<Posting, TextFault>
    ensures { Builds (λ posting. posting) result (spec.posting_of rows.now) }
{
    let Asked { question, schedule } = asked_of(alloc, rows)?;
    let prices = match tariffs_of(alloc, rows, question.system()) {
        Ok(prices) => prices,
        Err(fault) => {
            drop(question);
            drop(schedule);
            return Err(fault);
        }
    };
    let Ok(bumped) = bumped_of(alloc, rows) else {
        drop(question);
        drop(schedule);
        drop(prices);
        return Err(TextFault::OutOfMemory);
    };
    Ok(Posting {
        book: question.book(),
        cycle: question.cycle(),
        round: question.round(),
        question,
        schedule,
        prices,
        bumped,
    })
}

/// Whether a line is at least the first of these and one of so many.
fn is_within(first: usize, count: usize, line: usize) -> bool
    ensures { result ≡ (nat_le first line && nat_lt line count) }
{
    first <= line && line < count
}

/// Whether these are some of so many lines, in rising order, each once.
fn rises_within(count: usize, bumped: &[(u32, Dth)]) -> bool
    ensures { result ≡ spec.rises_within count bumped.now }
{
    let mut first = 0;
    'lines: for (line, _) in bumped {
        let line = *line as usize;
        if !is_within(first, count, line) {
            return false;
        }
        first = line + 1;
    }
    true
}

/// The posting that a text says. `Damaged` where it says none, is too long, or bumps lines that the question doesn't have, or
/// not in rising order; the only other error is want of memory.
pub fn read_body(alloc: Global, text: &[u8]) -> Result<Posting, BodyFault>
    ensures { spec.Reads text.now result }
{
    let rows = rows_in(alloc, Form::Body, text)?;
    let posting = posting_of(alloc, &rows)?;
    if rises_within(posting.question.line_count(), posting.bumped.lines()) {
        Ok(posting)
    } else {
        drop(posting);
        Err(BodyFault::Damaged)
    }
}
