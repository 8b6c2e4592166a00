//! Texts as rows: the bytes of a reader to typed rows, or to the first fault; and how bytes are written.
#![tactic(auto)]

mod blocks;
mod body;
mod date;
mod event;
mod fault;
mod fields;
mod input;
mod kind;
mod line;
mod number;
mod order;
mod output;
mod read;
mod records;
mod row;
mod waiting;
mod zone;

pub use blocks::{MAX_BLOCKS, MAX_SESSIONS_A_SLOT};
pub use date::CivilDate;
pub use fault::{Cause, RowFault, TextFault};
pub use input::{MAX_BYTES, MAX_READS, read_bytes};
pub use kind::{Form, RowKind};
pub use line::{LinePlace, bare, is_of_calls};
pub use number::{number_of, signed_of};
pub use order::missing_head;
pub use output::{WriteFault, write_bytes};
pub use read::{read_all, rows_in};
pub use records::MAX_ROWS;
pub use row::{EventRow, FIELD_COUNT, Member, OfficeRow, PipelineRow, QuestionRow, Row};
pub use waiting::MAX_SESSIONS_A_PHASE;
pub use zone::ZoneText;
