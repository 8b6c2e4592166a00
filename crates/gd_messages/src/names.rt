//! The names that the rows of a text give.

use crate::near::Nearest;
use gd_text_part::{Form, PipelineRow, Row};
use gd_units::{Kind, Name};
use std::alloc::{AllocError, Global};

/// What a name has to be that of.
#[derive(Clone, Copy, PartialEq, Eq)]
pub(crate) enum Sought {
    Place,
    /// A segment, point or pool.
    Element,
    /// A point or pool.
    End,
    Point,
    Pool,
}

impl Sought {
    /// Whether the name of this part is one.
    pub(crate) fn takes(self, part: &PipelineRow) -> bool {
        match part {
            PipelineRow::Segment { .. } => self == Sought::Element,
            PipelineRow::Point { .. } => !matches!(self, Sought::Place | Sought::Pool),
            PipelineRow::Pool { .. } => !matches!(self, Sought::Place | Sought::Point),
        }
    }

    /// What is sought, in words.
    pub(crate) fn words(self) -> &'static str {
        match self {
            Sought::Place => "place",
            Sought::Element => "segment, point or pool",
            Sought::End => "point or pool",
            Sought::Point => "point",
            Sought::Pool => "pool",
        }
    }
}

/// What a part of the pipeline is, in words.
pub(crate) fn part_word(part: &PipelineRow) -> &'static str {
    match part {
        PipelineRow::Segment { .. } => "segment",
        PipelineRow::Point {
            kind: Kind::Receipt,
            ..
        } => "receipt point",
        PipelineRow::Point {
            kind: Kind::Delivery,
            ..
        } => "delivery point",
        PipelineRow::Pool { .. } => "pool",
    }
}

/// The name of a part of the pipeline.
pub(crate) fn part_name(part: &PipelineRow) -> &Name {
    match part {
        PipelineRow::Segment { name, .. } => name,
        PipelineRow::Point { name, .. } => name,
        PipelineRow::Pool { name, .. } => name,
    }
}

/// The first part of this name.
pub(crate) fn part_named(rows: &[Row], name: Name) -> Option<PipelineRow> {
    for row in rows {
        if let Row::Pipeline(part) = row
            && *part_name(part) == name
        {
            return Some(*part);
        }
    }
    None
}

/// Whether a segment of these rows begins or ends at a place.
pub(crate) fn has_place(rows: &[Row], place: Name) -> bool {
    rows.iter().any(|row| match row {
        Row::Pipeline(PipelineRow::Segment { from, to, .. }) => *from == place || *to == place,
        _ => false,
    })
}

/// The names that a row gives to what is sought: those of a segment's places, or a part's own.
fn names_of(row: &Row, sought: Sought) -> (Option<&Name>, Option<&Name>) {
    match row {
        Row::Pipeline(PipelineRow::Segment { from, to, .. }) if sought == Sought::Place => {
            (Some(from), Some(to))
        }
        Row::Pipeline(part) if sought.takes(part) => (Some(part_name(part)), None),
        _ => (None, None),
    }
}

/// The name that may have been meant by one that nothing of what is sought has.
pub(crate) fn near_name<'r>(
    alloc: Global,
    rows: &'r [Row],
    name: &Name,
    sought: Sought,
) -> Result<Option<&'r str>, AllocError> {
    let mut nearest = Nearest::to(name.as_str());
    let mut meant = None;
    for row in rows {
        let (first, second) = names_of(row, sought);
        for name in [first, second] {
            if let Some(name) = name
                && nearest.is_nearer(alloc, name.as_str())?
            {
                meant = Some(name.as_str());
            }
        }
    }
    Ok(meant)
}

/// Where the block of an office begins that goes on behind these rows: behind the last row that heads a gas day or carries a
/// line into it. Any other text is one block.
pub(crate) fn block_start(form: Option<Form>, rows: &[Row]) -> usize {
    if !matches!(form, Some(Form::Office)) {
        return 0;
    }
    let last = rows
        .iter()
        .rposition(|row| matches!(row, Row::Day { .. } | Row::Carry { .. }));
    match last {
        Some(last) => last.saturating_add(1),
        None => 0,
    }
}

/// Whether two rows give the same name, or a quantity or price of the same thing.
pub(crate) fn are_twins(row: &Row, other: &Row) -> bool {
    match (row, other) {
        (Row::Pipeline(part), Row::Pipeline(other)) => part_name(part) == part_name(other),
        (Row::Contract(contract), Row::Contract(other)) => contract.name == other.name,
        (Row::Carry { key, .. }, Row::Carry { key: other, .. }) => key == other,
        (Row::Day { book, .. }, Row::Day { book: other, .. }) => book == other,
        (
            Row::Price { element, class, .. },
            Row::Price {
                element: other,
                class: at,
                ..
            },
        ) => element == other && class == at,
        _ => false,
    }
}
