//! The rows of a pipeline and of a question about it.

ghost use Rattle.std.specs.Prelude.{◌≡◌, ◌<◌, [], ◌∷◌, ◌++◌, length, OnOk, string_bytes, unwrap_or};
ghost use Rattle.gd_rules.specs.Question.{line};
ghost use Rattle.gd_system.specs.Pipeline.{elements_of};
ghost use Rattle.gd_body.specs.Rows as spec;

use crate::row::OperatorField;
use gd_question::Question;
use gd_system::{Element, Part, System};
use gd_units::{Dth, Name};
use std::alloc::AllocError;

/// Appends the row of a segment.
fn write_segment(
    text: &mut String,
    name: Name,
    from: Name,
    to: Name,
    capacity: Dth,
) -> Result<(), AllocError>
    ensures { OnOk result (string_bytes text.new
        ≡ string_bytes text.old ++ spec.line (spec.segment_fields name from to capacity)) }
{
    write!(text, "segment,{name},{from},{to},{capacity},,,\n")
}

/// Appends the row of a point of this kind, as a text names it.
fn write_point(
    text: &mut String,
    name: Name,
    kind: &str,
    place: Name,
    operator: OperatorField,
    capacity: Dth,
) -> Result<(), AllocError>
    ensures { OnOk result (string_bytes text.new
        ≡ string_bytes text.old
        ++ spec.line (spec.point_fields name kind.now place (unwrap_or operator.0 []) capacity)) }
{
    write!(
        text,
        "point,{name},{kind},{place},{operator},{capacity},,\n"
    )
}

/// Appends the row of a pool.
fn write_pool(
    text: &mut String,
    name: Name,
    place: Name,
    operator: OperatorField,
) -> Result<(), AllocError>
    ensures { OnOk result (string_bytes text.new
        ≡ string_bytes text.old
        ++ spec.line (spec.pool_fields name place (unwrap_or operator.0 []))) }
{
    write!(text, "pool,{name},{place},{operator},,,,\n")
}

/// Appends the row of a segment, point or pool.
fn write_part(text: &mut String, system: &System, element: Element) -> Result<(), AllocError>
    requires { element.0 < length (elements_of system.now) }
    ensures { OnOk result (string_bytes text.new
        ≡ string_bytes text.old ++ spec.line (spec.part_row system.now element.0)) }
{
    system.known();
    let name = system.name(element);
    let operator = OperatorField(system.operator(element));
    match system.part(element) {
        Part::Segment(from, to, capacity) => {
            let from = system.place_name(from);
            let to = system.place_name(to);
            write_segment(text, name, from, to, capacity)
        }
        Part::Receipt(place, capacity) => {
            let place = system.place_name(place);
            write_point(text, name, "receipt", place, operator, capacity)
        }
        Part::Delivery(place, capacity) => {
            let place = system.place_name(place);
            write_point(text, name, "delivery", place, operator, capacity)
        }
        Part::Pool(place) => {
            let place = system.place_name(place);
            write_pool(text, name, place, operator)
        }
    }
}

/// Appends the rows of a pipeline.
fn write_parts(text: &mut String, system: &System) -> Result<(), AllocError>
    ensures { OnOk result (string_bytes text.new
        ≡ string_bytes text.old ++ spec.lines_of (spec.part_rows system.now)) }
{
    'elements: for element in 0..system.element_count() {
        write_part(text, system, Element(element))?;
    }
    Ok(())
}

/// Appends the row of an element's capacity in force, if it is not the pipeline's own.
fn write_capacity(
    text: &mut String,
    question: &Question,
    element: Element,
) -> Result<(), AllocError>
    requires { element.0 < length question.now.asked.elements }
    ensures { OnOk result (string_bytes text.new
        ≡ string_bytes text.old ++ spec.lines_of (spec.capacity_row question.now element.0)) }
{
    let system = question.system();
    system.known();
    let name = question.name(element);
    let (Some(own), Some(limit)) = (system.part(element).capacity(), question.limit(element)) else {
        return Ok(());
    };
    if own == limit {
        return Ok(());
    }
    write!(text, "capacity,{name},{limit},,,,,\n")
}

/// Appends the rows of the capacities in force that are not the pipeline's own.
fn write_capacities(text: &mut String, question: &Question) -> Result<(), AllocError>
    ensures { OnOk result (string_bytes text.new
        ≡ string_bytes text.old ++ spec.lines_of (spec.capacity_rows question.now)) }
{
    'elements: for element in 0..question.element_count() {
        write_capacity(text, question, Element(element))?;
    }
    Ok(())
}

/// Appends the row of a line.
fn write_line(text: &mut String, question: &Question, at: usize) -> Result<(), AllocError>
    requires { at < length question.now.asked.lines }
    ensures { OnOk result (string_bytes text.new
        ≡ string_bytes text.old
        ++ spec.line (spec.line_row question.now.pipeline (line question.now.asked at))) }
{
    question.known();
    let origin = question.name(question.origin(at));
    let dest = question.name(question.dest(at));
    let class = question.class(at).number();
    let floor = question.floor(at);
    let ceiling = question.ceiling(at);
    write!(text, "line,{origin},{dest},{class},{floor},{ceiling},,\n")
}

/// Appends the rows of a question's lines.
fn write_lines(text: &mut String, question: &Question) -> Result<(), AllocError>
    ensures { OnOk result (string_bytes text.new
        ≡ string_bytes text.old ++ spec.lines_of (spec.line_rows question.now)) }
{
    'lines: for at in 0..question.line_count() {
        write_line(text, question, at)?;
    }
    Ok(())
}

/// Appends the row that heads a question.
fn write_head(text: &mut String, question: &Question) -> Result<(), AllocError>
    ensures { OnOk result (string_bytes text.new
        ≡ string_bytes text.old ++ spec.line (spec.head_row question.now)) }
{
    let book = question.book();
    let cycle = question.cycle();
    let round = question.round();
    write!(text, "question,{book},{cycle},{round},,,,\n")
}

/// Appends the rows of a pipeline and of the question about it. The only error is want of memory.
pub fn write_question(text: &mut String, question: &Question) -> Result<(), AllocError>
    ensures { OnOk result (string_bytes text.new
        ≡ string_bytes text.old ++ spec.lines_of (spec.question_rows question.now)) }
{
    write_parts(text, question.system())?;
    write_head(text, question)?;
    write_capacities(text, question)?;
    write_lines(text, question)
}
