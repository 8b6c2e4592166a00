//! The question and the schedule that the rows of a text build.

ghost use Rattle.std.specs.Prelude.{◌≡◌, ◌⊎◌, ◌+◌, ◌<◌, Ok, Err, Some, None, Option, IfOk, MatchResult};
ghost use Rattle.gd_text.specs.Building.{built_from, Becomes, Builds, MayBecome};
ghost use Rattle.gd_system.specs.Pipeline.{element_number};
ghost use Rattle.gd_text.specs.Values as spec;

use gd_question::{LineFault, Question, QuestionBuilder};
use gd_schedule::Schedule;
use gd_system::{BuildFault, RouteFault, System, SystemBuilder};
use gd_text_part::{Cause, PipelineRow, QuestionRow, Row, TextFault, missing_head};
use gd_units::{CycleNo, Dth, Name, Round};
use std::alloc::{AllocError, Global};

/// A question, and a schedule offered for it.
#[derive(Drop)]
pub struct Asked {
    pub question: Question,
    pub schedule: Schedule,
}

fn build_fault(row: u64, fault: BuildFault) -> TextFault
    ensures { result ≡ spec.build_fault_at row fault }
{
    match fault {
        BuildFault::OutOfMemory => TextFault::OutOfMemory,
        fault => TextFault::at(row, Cause::Build(fault)),
    }
}

fn line_fault(row: u64, fault: LineFault) -> TextFault
    ensures { result ≡ spec.line_fault_at row fault }
{
    match fault {
        LineFault::OutOfMemory | LineFault::Route(RouteFault::OutOfMemory) => {
            TextFault::OutOfMemory
        }
        fault => TextFault::at(row, Cause::Line(fault)),
    }
}

/// Adds the segment, point or pool of a row.
fn add_part(builder: &mut SystemBuilder, number: u64, row: &Row) -> Result<(), TextFault>
    ensures { MayBecome builder.new result (spec.pipeline_step number builder.old row.now) }
{
    let Row::Pipeline(part) = row else {
        return Ok(());
    };
    let added = match *part {
        PipelineRow::Segment {
            name,
            from,
            to,
            capacity,
        } => builder.segment(name, from, to, capacity),
        PipelineRow::Point {
            name,
            kind,
            place,
            operator,
            capacity,
        } => builder.point(name, kind, place, operator, capacity),
        PipelineRow::Pool {
            name,
            place,
            operator,
        } => builder.pool(name, place, operator),
    };
    match added {
        Ok(()) => Ok(()),
        Err(fault) => Err(build_fault(number, fault)),
    }
}

/// Adds the parts of all rows, or tells the first refusal at its row.
fn add_parts(builder: &mut SystemBuilder, rows: &[Row]) -> Result<(), TextFault>
    ensures { MayBecome builder.new result
        (built_from spec.pipeline_step 1 builder.old rows.now) }
{
    'rows: for (index, row) in rows.iter().enumerate() {
        add_part(builder, index as u64 + 1, row)?;
    }
    Ok(())
}

/// The system of a builder. A missing segment is told at this row.
fn finished(builder: SystemBuilder, row: u64) -> Result<System, TextFault>
    ensures { MatchResult result (λ system. spec.finished row builder ≡ Ok system)
        (λ fault. spec.finished row builder ≡ Err fault) }
{
    match builder.finish() {
        Ok(system) => Ok(system),
        Err((fault, builder)) => {
            drop(builder);
            Err(TextFault::at(row, Cause::Build(fault)))
        }
    }
}

/// The system that the rows build, or the first refusal of its builder, told at its row; a missing segment at one row
/// past the last.
pub fn system_of(alloc: Global, rows: &[Row]) -> Result<System, TextFault>
    ensures { Builds (λ system. system) result (spec.pipeline_of rows.now) }
{
    let mut builder = SystemBuilder::new(alloc);
    match add_parts(&mut builder, rows) {
        Ok(()) => finished(builder, rows.len() as u64 + 1),
        Err(fault) => {
            drop(builder);
            Err(fault)
        }
    }
}

/// The book, cycle and round of the first `question` row.
fn head_of(rows: &[Row]) -> Option<(Name, CycleNo, Round)>
    ensures { result ≡ spec.head_of rows.now }
{
    'rows: for row in rows {
        if let Row::Question(QuestionRow::Head { book, cycle, round }) = *row {
            return Some((book, cycle, round));
        }
    }
    None
}

fn set_capacity(
    builder: &mut QuestionBuilder,
    number: u64,
    element: Name,
    capacity: Dth,
) -> Result<(), TextFault>
    ensures { Becomes builder.new result
        (spec.capacity_at number builder.old
        (element_number builder.old.pipeline element) capacity) }
{
    let Some(element) = builder.system().element(element) else {
        return Err(TextFault::at(number, Cause::UnknownElement));
    };
    match builder.capacity(element, capacity) {
        Ok(()) => Ok(()),
        Err(fault) => Err(TextFault::at(number, Cause::Capacity(fault))),
    }
}

/// Adds the line of a row, or sets its capacity.
fn add_line(builder: &mut QuestionBuilder, number: u64, row: &Row) -> Result<(), TextFault>
    ensures { MayBecome builder.new result (spec.question_step number builder.old row.now) }
{
    let Row::Question(row) = row else {
        return Ok(());
    };
    match *row {
        QuestionRow::Head { .. } => Ok(()),
        QuestionRow::Capacity { element, capacity } => {
            set_capacity(builder, number, element, capacity)
        }
        QuestionRow::Line {
            origin,
            dest,
            class,
            floor,
            ceiling,
        } => match builder.line(origin, dest, class, floor, ceiling) {
            Ok(()) => Ok(()),
            Err(fault) => Err(line_fault(number, fault)),
        },
    }
}

/// Adds the lines and the capacities of all rows, or tells the first refusal at its row.
fn add_lines(builder: &mut QuestionBuilder, rows: &[Row]) -> Result<(), TextFault>
    ensures { MayBecome builder.new result
        (built_from spec.question_step 1 builder.old rows.now) }
{
    'rows: for (index, row) in rows.iter().enumerate() {
        add_line(builder, index as u64 + 1, row)?;
    }
    Ok(())
}

/// The question that the rows ask about a system.
fn question_about(alloc: Global, rows: &[Row], system: System) -> Result<Question, TextFault>
    ensures { Builds (λ question. question) result (spec.question_about rows.now system) }
{
    let Some(head) = head_of(rows) else {
        drop(system);
        return Err(missing_head(rows.len() as u64).into());
    };
    let mut builder = QuestionBuilder::new(alloc, system, head.0, head.1, head.2)?;
    match add_lines(&mut builder, rows) {
        Ok(()) => Ok(builder.finish()),
        Err(fault) => {
            drop(builder);
            Err(fault)
        }
    }
}

/// The quantities of the `sched` rows in dekatherms a gas day, in order. The only error is want of memory.
pub fn quantities_of(alloc: Global, rows: &[Row]) -> Result<Vec<Dth>, AllocError>
    ensures { IfOk result (λ v. v.items ≡ spec.quantities_of rows.now) }
{
    let mut quantities = Vec::new(alloc);
    'rows: for row in rows {
        if let Row::Sched { quantity, .. } = *row {
            quantities.push(quantity)?;
        }
    }
    Ok(quantities)
}

/// The question that a text asks, or the first refusal of a builder, told at its row; a missing segment at one row past the
/// last.
pub fn question_of(alloc: Global, rows: &[Row]) -> Result<Question, TextFault>
    ensures { Builds (λ question. question) result (spec.question_of rows.now) }
{
    let system = system_of(alloc, rows)?;
    question_about(alloc, rows, system)
}

/// The question that a text asks, as `question_of` tells it, and the schedule that it offers.
pub fn asked_of(alloc: Global, rows: &[Row]) -> Result<Asked, TextFault>
    ensures { Builds (λ a. (a.question, a.schedule)) result (spec.asked_of rows.now) }
{
    let question = question_of(alloc, rows)?;
    match quantities_of(alloc, rows) {
        Ok(quantities) => Ok(Asked {
            question,
            schedule: Schedule::of(quantities),
        }),
        Err(fault) => {
            drop(question);
            Err(fault.into())
        }
    }
}
