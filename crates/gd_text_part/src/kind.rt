//! The kinds of rows, and which of them a command takes.

ghost use Rattle.std.specs.Prelude.{◌≡◌};
ghost use Rattle.gd_text_part.specs.Kinds as spec;
ghost use Rattle.gd_text_part.specs.Places as places;

/// What a text is for: the command that reads it, or the archive that keeps it.
#[derive(Clone, Copy)]
pub enum Form {
    /// `check allowed`: a system, a question and a schedule.
    CheckAllowed,
    /// `check best`: the same, and prices.
    CheckBest,
    /// `check cut`: a system, a question and a cut's set.
    CheckCut,
    /// `solve`: a system and a question.
    Solve,
    /// `calendar`: the head of a gas day.
    Calendar,
    /// `day`: a system, contracts, the head of a gas day and what is carried into it, then the calls of its book.
    Day,
    /// `office`: blocks, each of a system, contracts, the head of a gas day and what is carried into it, then sessions with
    /// their calls, and desk rounds.
    Office,
    /// An archived posting: what `check best` takes, and the lines that were bumped.
    Body,
}

/// The kinds of rows, each named by the first field. A command takes some of them.
#[derive(Clone, Copy, PartialEq, Eq)]
pub enum RowKind {
    Segment,
    Point,
    Pool,
    Contract,
    Question,
    Day,
    Capacity,
    Carry,
    Line,
    Sched,
    Price,
    Inside,
    Nominate,
    Respond,
    Post,
    Freeze,
    Settle,
    Publish,
    Declare,
    Waive,
    Skip,
    Session,
    Desk,
    Bumped,
}

/// The kind that a first field names in every text.
fn kind_of(text: &[u8]) -> Option<RowKind>
    ensures { result ≡ spec.kind_of text.now }
{
    if text == b"segment".as_slice() {
        Some(RowKind::Segment)
    } else if text == b"point".as_slice() {
        Some(RowKind::Point)
    } else if text == b"pool".as_slice() {
        Some(RowKind::Pool)
    } else if text == b"contract".as_slice() {
        Some(RowKind::Contract)
    } else if text == b"question".as_slice() {
        Some(RowKind::Question)
    } else if text == b"day".as_slice() {
        Some(RowKind::Day)
    } else if text == b"capacity".as_slice() {
        Some(RowKind::Capacity)
    } else if text == b"carry".as_slice() {
        Some(RowKind::Carry)
    } else if text == b"line".as_slice() {
        Some(RowKind::Line)
    } else if text == b"sched".as_slice() {
        Some(RowKind::Sched)
    } else if text == b"price".as_slice() {
        Some(RowKind::Price)
    } else if text == b"inside".as_slice() {
        Some(RowKind::Inside)
    } else {
        event_of(text)
    }
}

/// The kind of event row that a first field names.
fn event_of(text: &[u8]) -> Option<RowKind>
    ensures { result ≡ spec.event_of text.now }
{
    if text == b"nominate".as_slice() {
        Some(RowKind::Nominate)
    } else if text == b"respond".as_slice() {
        Some(RowKind::Respond)
    } else if text == b"post".as_slice() {
        Some(RowKind::Post)
    } else if text == b"freeze".as_slice() {
        Some(RowKind::Freeze)
    } else if text == b"settle".as_slice() {
        Some(RowKind::Settle)
    } else if text == b"publish".as_slice() {
        Some(RowKind::Publish)
    } else if text == b"declare".as_slice() {
        Some(RowKind::Declare)
    } else if text == b"waive".as_slice() {
        Some(RowKind::Waive)
    } else if text == b"skip".as_slice() {
        Some(RowKind::Skip)
    } else if text == b"session".as_slice() {
        Some(RowKind::Session)
    } else if text == b"desk".as_slice() {
        Some(RowKind::Desk)
    } else {
        None
    }
}

impl RowKind {
    /// The stage of a text in which rows of this kind stand.
    pub(crate) fn stage(self) -> u8
        ensures { result ≡ spec.stage_of self }
    {
        match self {
            RowKind::Segment | RowKind::Point | RowKind::Pool => 1,
            RowKind::Contract => 2,
            RowKind::Question | RowKind::Day => 3,
            RowKind::Capacity | RowKind::Carry => 4,
            RowKind::Line => 5,
            RowKind::Sched => 6,
            RowKind::Price => 7,
            RowKind::Inside | RowKind::Bumped => 8,
            _ => 9,
        }
    }

    /// Rows that build a system and ask a question about it.
    fn asks(self) -> bool
        ensures { result ≡ spec.asks self }
    {
        matches!(
            self,
            RowKind::Segment
                | RowKind::Point
                | RowKind::Pool
                | RowKind::Question
                | RowKind::Capacity
                | RowKind::Line
        )
    }

    /// The least stage of the row behind one of this kind: behind an event row `sched` rows may stand again.
    pub(crate) fn stage_behind(self) -> u8
        ensures { result ≡ places.stage_behind self }
    {
        match self.stage() {
            9 => RowKind::Sched.stage(),
            stage => stage,
        }
    }

    /// Rows of a certificate, and the event row that takes them.
    pub(crate) fn is_of_certificate(self) -> bool
        ensures { result ≡ spec.is_of_certificate self }
    {
        matches!(self, RowKind::Sched | RowKind::Price | RowKind::Publish)
    }

    /// Rows of a cut, and the event row that takes them.
    pub(crate) fn is_of_cut(self) -> bool
        ensures { result ≡ spec.is_of_cut self }
    {
        matches!(self, RowKind::Inside | RowKind::Declare)
    }

    /// Rows of a gas day: all but those that ask a question about a pipeline, those of sessions, and those of bumped lines.
    fn is_of_day(self) -> bool
        ensures { result ≡ spec.is_of_day self }
    {
        !matches!(
            self,
            RowKind::Question
                | RowKind::Capacity
                | RowKind::Line
                | RowKind::Session
                | RowKind::Desk
                | RowKind::Bumped
        )
    }

    /// Rows of a block, which says what a slot of an office begins with.
    pub(crate) fn is_of_block(self) -> bool
        ensures { result ≡ spec.is_of_block self }
    {
        matches!(
            self,
            RowKind::Segment
                | RowKind::Point
                | RowKind::Pool
                | RowKind::Contract
                | RowKind::Day
                | RowKind::Carry
        )
    }

    /// The calls that a session makes.
    pub(crate) fn is_of_session(self) -> bool
        ensures { result ≡ spec.is_of_session self }
    {
        matches!(self, RowKind::Nominate | RowKind::Respond | RowKind::Post)
    }

    /// Rows of an office: its blocks, its sessions with their calls, and its desk rounds.
    fn is_of_office(self) -> bool
        ensures { result ≡ spec.is_of_office self }
    {
        self.is_of_block()
            || self.is_of_session()
            || matches!(self, RowKind::Session | RowKind::Desk)
    }
}

impl Form {
    /// Whether a `day` row has to name a book.
    pub(crate) fn needs_book(self) -> bool
        ensures { result ≡ spec.needs_book self }
    {
        !matches!(self, Form::Calendar)
    }

    /// Whether the command takes rows of this kind.
    pub(crate) fn takes(self, kind: RowKind) -> bool
        ensures { result ≡ spec.takes self kind }
    {
        match self {
            Form::CheckAllowed => kind.asks() || matches!(kind, RowKind::Sched),
            Form::CheckBest => kind.asks() || matches!(kind, RowKind::Sched | RowKind::Price),
            Form::CheckCut => kind.asks() || matches!(kind, RowKind::Inside),
            Form::Solve => kind.asks(),
            Form::Calendar => matches!(kind, RowKind::Day),
            Form::Day => kind.is_of_day(),
            Form::Office => kind.is_of_office(),
            Form::Body => {
                kind.asks() || matches!(kind, RowKind::Sched | RowKind::Price | RowKind::Bumped)
            }
        }
    }

    /// The kind that a first field names in such a text.
    pub(crate) fn kind_of(self, text: &[u8]) -> Option<RowKind>
        ensures { result ≡ spec.kind_in self text.now }
    {
        if matches!(self, Form::Body) && text == b"bumped".as_slice() {
            return Some(RowKind::Bumped);
        }
        kind_of(text)
    }
}
