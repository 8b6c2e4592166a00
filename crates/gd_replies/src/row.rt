//! What a row is printed from.

ghost use Rattle.std.specs.Prelude.{Some};
ghost use Rattle.hex.specs.Hex.{encode_lower};
ghost use Rattle.gd_replies.specs.Lines.{line, refusal_detail, spread_field};
ghost use Rattle.gd_replies.specs.Rows.{all_fields, field_text, row_fields};

use gd_certificate::CertFault;
use gd_machine::{Call, Refusal};
use gd_text_part::TextFault;
use gd_units::Name;
use hex::encode_to_slice;
use std::fmt;

/// A field of a row. What is long is lent.
#[derive(Clone, Copy)]
pub(crate) enum Field<'r> {
    Word(&'static str),
    Number(u64),
    Signed(i128),
    Spread(SpreadField),
    Name(&'r Name),
    Call(Call),
    Refusal(Refusal),
    Detail(DetailField),
    Certificate(CertFault),
    Sum(&'r [u8; 32]),
}

/// The fields of a row, of which the first is its kind. Those behind them are empty.
#[derive(Clone, Copy)]
pub(crate) enum Row<'r> {
    /// A fault prints three fields itself.
    Fault(TextFault),
    One(&'static str),
    Two(&'static str, Field<'r>),
    Three(&'static str, Field<'r>, Field<'r>),
    Four(&'static str, Field<'r>, Field<'r>, Field<'r>),
    Five(&'static str, Field<'r>, Field<'r>, Field<'r>, Field<'r>),
    Six(&'static str, Field<'r>, Field<'r>, Field<'r>, Field<'r>, Field<'r>),
    Seven(&'static str, Field<'r>, Field<'r>, Field<'r>, Field<'r>, Field<'r>, Field<'r>),
    Eight(
        &'static str,
        Field<'r>,
        Field<'r>,
        Field<'r>,
        Field<'r>,
        Field<'r>,
        Field<'r>,
        Field<'r>,
    ),
}

/// A word of the spread as a field, which is empty where the word is 0.
#[derive(Clone, Copy)]
pub(crate) struct SpreadField(pub(crate) i128);

impl fmt::Display for SpreadField {
    ghost output = { λ s. Some (spread_field s.0) };

    fn fmt<W: fmt::Write>(&self, f: &mut fmt::Formatter<W>) -> fmt::Result {
        let spread = self.0;
        if spread == 0 {
            f.write_str("")
        } else {
            write!(f, "{spread}")
        }
    }
}

/// What is told beside a refusal, as a field: the current round, or why a set is no cut.
#[derive(Clone, Copy)]
pub(crate) struct DetailField(pub(crate) Refusal);

impl fmt::Display for DetailField {
    ghost output = { λ d. Some (refusal_detail d.0) };

    fn fmt<W: fmt::Write>(&self, f: &mut fmt::Formatter<W>) -> fmt::Result {
        match self.0 {
            Refusal::StaleRound(round) => write!(f, "{round}"),
            Refusal::NoCutProof(fault) => write!(f, "{fault}"),
            _ => f.write_str(""),
        }
    }
}

/// A SHA-256 as a field: 64 hexadecimal digits, with lower case letters.
#[derive(Clone, Copy)]
struct SumField([u8; 32]);

impl fmt::Display for SumField {
    ghost output = { λ s. Some (encode_lower s.0) };

    fn fmt<W: fmt::Write>(&self, f: &mut fmt::Formatter<W>) -> fmt::Result {
        let mut digits = [0u8; 64];
        let Ok(()) = encode_to_slice(self.0.as_slice(), &mut digits) else {
            unreachable!();
        };
        match str::from_utf8(&digits) {
            Ok(text) => f.write_str(text),
            Err(_) => { unreachable!() }
        }
    }
}

impl fmt::Display for Field<'_> {
    ghost output = { λ x. Some (field_text x) };

    fn fmt<W: fmt::Write>(&self, f: &mut fmt::Formatter<W>) -> fmt::Result {
        match self {
            Field::Word(word) => f.write_str(word),
            Field::Number(number) => number.fmt(f),
            Field::Signed(number) => number.fmt(f),
            Field::Spread(spread) => spread.fmt(f),
            Field::Name(name) => name.fmt(f),
            Field::Call(call) => call.fmt(f),
            Field::Refusal(refusal) => refusal.fmt(f),
            Field::Detail(detail) => detail.fmt(f),
            Field::Certificate(fault) => fault.fmt(f),
            Field::Sum(sum) => SumField(**sum).fmt(f),
        }
    }
}

/// A row with all its fields.
#[derive(Clone, Copy)]
struct AllFields<'a>(
    &'a str,
    &'a Field<'a>,
    &'a Field<'a>,
    &'a Field<'a>,
    &'a Field<'a>,
    &'a Field<'a>,
    &'a Field<'a>,
    &'a Field<'a>,
);

impl fmt::Display for AllFields<'_> {
    ghost output = { λ r. Some (line (all_fields r)) };

    fn fmt<W: fmt::Write>(&self, f: &mut fmt::Formatter<W>) -> fmt::Result {
        let AllFields(kind, a, b, c, d, e, g, h) = self;
        write!(f, "{kind},{a},{b},{c},{d},{e},{g},{h}\n")
    }
}

impl fmt::Display for Row<'_> {
    ghost output = { λ r. Some (line (row_fields r)) };

    fn fmt<W: fmt::Write>(&self, f: &mut fmt::Formatter<W>) -> fmt::Result {
        let empty = &Field::Word("");
        match self {
            Row::Fault(fault) => write!(f, "fault,{fault},,,,\n"),
            Row::One(kind) => AllFields(kind, empty, empty, empty, empty, empty, empty, empty).fmt(
                f,
            ),
            Row::Two(kind, a) => AllFields(kind, a, empty, empty, empty, empty, empty, empty).fmt(
                f,
            ),
            Row::Three(kind, a, b) => AllFields(kind, a, b, empty, empty, empty, empty, empty).fmt(
                f,
            ),
            Row::Four(kind, a, b, c) => AllFields(kind, a, b, c, empty, empty, empty, empty).fmt(f),
            Row::Five(kind, a, b, c, d) => AllFields(kind, a, b, c, d, empty, empty, empty).fmt(f),
            Row::Six(kind, a, b, c, d, e) => AllFields(kind, a, b, c, d, e, empty, empty).fmt(f),
            Row::Seven(kind, a, b, c, d, e, g) => AllFields(kind, a, b, c, d, e, g, empty).fmt(f),
            Row::Eight(kind, a, b, c, d, e, g, h) => AllFields(kind, a, b, c, d, e, g, h).fmt(f),
        }
    }
}
