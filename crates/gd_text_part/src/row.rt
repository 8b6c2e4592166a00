//! The rows of a text.

use crate::date::CivilDate;
use crate::zone::ZoneText;
use gd_contracts::Contract;
use gd_lines::LineKey;
use gd_units::{Class, CycleNo, Dth, End, Kind, Moment, Name, Round};

/// How many fields a row has.
pub const FIELD_COUNT: usize = 8;

/// What may be a member of a cut's set.
#[derive(Clone, Copy)]
pub enum Member {
    Place,
    Point,
    Pool,
}

/// A row that builds the pipeline. Quantities are dekatherms a gas day.
#[derive(Clone, Copy)]
pub enum PipelineRow {
    /// A one-way segment between two places.
    Segment {
        name: Name,
        from: Name,
        to: Name,
        capacity: Dth,
    },
    /// A receipt or delivery point at a place.
    Point {
        name: Name,
        kind: Kind,
        place: Name,
        operator: Name,
        capacity: Dth,
    },
    /// A pool at a place.
    Pool {
        name: Name,
        place: Name,
        operator: Name,
    },
}

/// A row that heads a question or fills it. Quantities are dekatherms a gas day.
#[derive(Clone, Copy)]
pub enum QuestionRow {
    /// The head of a question.
    Head {
        book: Name,
        cycle: CycleNo,
        round: Round,
    },
    /// Another capacity of a segment or point, in this question alone.
    Capacity {
        element: Name,
        capacity: Dth,
    },
    /// A line of a question. The class is whatever number from 0 to 255 the row has.
    Line {
        origin: Name,
        dest: Name,
        class: u8,
        floor: Dth,
        ceiling: Dth,
    },
}

/// A row that calls the book of a gas day. Moments are seconds since 1970-01-01T00:00:00Z, from 0 to 4,200,000,000.
/// Quantities are dekatherms a gas day; lines are counted from 1, up to 4,294,967,295.
#[derive(Clone, Copy)]
pub enum EventRow {
    /// A shipper nominates a quantity on a line.
    Nominate {
        moment: Moment,
        party: Name,
        key: LineKey,
        quantity: Dth,
    },
    /// An operator confirms a quantity at one end of a line.
    Respond {
        moment: Moment,
        party: Name,
        line: u32,
        end: End,
        quantity: Dth,
    },
    /// From now on this is the capacity of a segment or point.
    Post {
        moment: Moment,
        element: Name,
        capacity: Dth,
    },
    /// The current cycle is closed, and its question is asked.
    Freeze {
        moment: Moment,
    },
    /// The frozen question is solved, and its schedule is published or a cut declared.
    Settle {
        moment: Moment,
    },
    /// The `sched` and `price` rows directly before this one answer the question of this round.
    Publish {
        moment: Moment,
        round: Round,
    },
    /// The `inside` rows directly before this one show that the question of this round has no allowed schedule.
    Declare {
        moment: Moment,
        round: Round,
    },
    /// A line gives up its protection in the current cycle.
    Waive {
        moment: Moment,
        line: u32,
    },
    /// The current cycle ends without a schedule.
    Skip {
        moment: Moment,
    },
}

/// A row that runs an office. Slots are counted from 1.
#[derive(Clone, Copy)]
pub enum OfficeRow {
    /// A session of a party with the book of a slot begins: the calls behind this row are its own.
    Session { slot: u32, party: Name },
    /// The sessions so far are run, and then the desk goes round the books at this moment, in seconds since
    /// 1970-01-01T00:00:00Z.
    Desk { moment: Moment },
}

/// A row of a text, by what its kind of rows builds.
#[derive(Drop)]
pub enum Row {
    /// A part of the pipeline.
    Pipeline(PipelineRow),
    /// The head of a question, or what fills it.
    Question(QuestionRow),
    /// The head of a gas day: its date, the time zone of its clock, and the name of its book, which a calendar doesn't need.
    Day {
        date: CivilDate,
        zone: ZoneText,
        book: Option<Name>,
    },
    /// A contract that a shipper holds on the pipeline.
    Contract(Contract),
    /// The quantity of a line that is carried from the gas day before, in dekatherms a gas day.
    Carry {
        key: LineKey,
        quantity: Dth,
    },
    /// A call of the book of a gas day.
    Event(EventRow),
    /// A session of an office, or a desk round.
    Office(OfficeRow),
    /// The scheduled quantity of a line in dekatherms a gas day; lines are counted from 1.
    Sched {
        line: u32,
        quantity: Dth,
    },
    /// The two words of an element's price at one class: what a dekatherm is worth, and what the spread adds.
    Price {
        element: Name,
        class: Class,
        word: i64,
        spread: i64,
    },
    /// A member of a cut's set.
    Inside {
        member: Member,
        name: Name,
    },
    /// A line that a posting bumped, and by how many dekatherms a gas day; lines are counted from 1.
    Bumped {
        line: u32,
        quantity: Dth,
    },
}
