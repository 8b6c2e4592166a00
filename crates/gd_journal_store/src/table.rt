//! The table of a journal, told from those of any other file.

ghost use Rattle.std.specs.Prelude.{◌≡◌, ◌≢◌, ◌↔◌, Err, IsTrue, OnOk, false, [], ◌∷◌};
ghost use Rattle.sqlite.specs.Held.{state};
ghost use Rattle.gd_journal_store.specs.Table.{plain_column, piece, piece_columns, no_schema, journal};

use crate::fault::StoreFault;
use sqlite::{Alter, Connection, Error, ErrorCode};
use sqlite_schema::code::Terms;
use sqlite_schema::schema::{Column, Kind, Schema, Table};
use sqlite_value::keys::Collation;
use sqlite_value::value::Value;

/// Whether the column has this name and affinity, no default, and the order of its bytes.
fn is_column(column: &Column, name: &str, kind: Kind, not_null: bool) -> bool
    ensures { IsTrue result ↔ (column.now ≡ plain_column name.now kind not_null) }
{
    column.name.as_slice() == name.as_bytes()
        && column.kind == kind
        && !column.is_strict
        && column.not_null == not_null
        && matches!(column.default, Value::Null)
        && column.collation == Collation::Binary
}

/// Whether there is no check at all.
fn has_no_term(terms: &Terms) -> bool
    ensures { IsTrue result ↔ (terms.now ≡ []) }
{
    terms.roots.is_empty()
}

fn are_piece_columns(columns: &[Column]) -> bool
    ensures { IsTrue result ↔ (columns.now ≡ piece_columns) }
{
    let [number, rows, told] = columns else {
        return false;
    };
    is_column(number, "number", Kind::Integer, false)
        && is_column(rows, "rows", Kind::Any, true)
        && is_column(told, "told", Kind::Any, true)
}

/// Whether the one place is the rowid's.
fn is_rowid(places: &[usize]) -> bool
    ensures { IsTrue result ↔ (places.now ≡ 0 ∷ []) }
{
    let [place] = places else {
        return false;
    };
    *place == 0
}

/// Whether the table is that of the pieces.
fn is_piece_table(table: &Table) -> bool
    ensures { IsTrue result ↔ (table.now ≡ piece) }
{
    table.name.as_slice() == "piece".as_bytes()
        && table.tree == 0
        && are_piece_columns(table.columns.as_slice())
        && table.key == Some(0)
        && is_rowid(table.primary.as_slice())
        && table.uniques.is_empty()
        && table.orders.is_empty()
        && has_no_term(&table.checks)
        && table.references.is_empty()
        && table.computed.is_empty()
        && table.stamps.places.is_empty()
        && table.stamps.formats.is_empty()
        && has_no_term(&table.stamps.terms)
        && !table.is_counted
}

/// Whether there is no table at all.
pub(crate) fn is_empty(schema: &Schema) -> bool
    ensures { IsTrue result ↔ (schema.now ≡ no_schema) }
{
    schema.tables.is_empty() && schema.indexes.is_empty() && schema.views.is_empty()
}

/// Whether the one table is that of the pieces.
fn are_tables(tables: &[Table]) -> bool
    ensures { IsTrue result ↔ (tables.now ≡ piece ∷ []) }
{
    let [table] = tables else {
        return false;
    };
    is_piece_table(table)
}

/// Whether the schema is a journal's.
fn is_journal_schema(schema: &Schema) -> bool
    ensures { IsTrue result ↔ (schema.now ≡ journal) }
{
    are_tables(schema.tables.as_slice()) && schema.indexes.is_empty() && schema.views.is_empty()
}

/// Whether the table of pieces is there, and nothing else.
pub fn is_journal<S: Alter>(conn: &Connection<S>) -> bool
    ensures { IsTrue result ↔ ((state S.Store conn.now).now.schema ≡ journal) }
{
    is_journal_schema(conn.schema())
}

/// Goes on where no transaction is open and the file is a journal.
pub(crate) fn expect_journal<S: Alter>(conn: &Connection<S>) -> Result<(), StoreFault>
    ensures inside { IsTrue conn.now.in_transaction
        → result ≡ Err (StoreFault.Store (Error.SqliteFailure ErrorCode.TransactionState)) }
    ensures journal { OnOk result (conn.now.schema ≡ journal) }
    ensures foreign { result ≡ Err StoreFault.NotAJournal → conn.now.schema ≢ journal }
    ensures whole { result ≢ Err StoreFault.Damaged }
    ensures mode { OnOk result (conn.now.in_transaction ≡ false) }
    ensures settled { let now = state S.Store conn.now in OnOk result (IsTrue now.is_open → now.now ≡ now.committed) }
{
    if !conn.is_autocommit() {
        return Err(StoreFault::Store(Error::SqliteFailure(ErrorCode::TransactionState)));
    }
    if !is_journal(conn) {
        return Err(StoreFault::NotAJournal);
    }
    Ok(())
}
