//! The tables of an archive, told from those of any other file.

ghost use Rattle.std.specs.Prelude.{codes, ◌<◌, ◌≤◌, ◌≡◌, ◌≢◌, ◌↔◌, ℕ, IsTrue, IfSome, [], ◌∷◌, None, Some, pos};
ghost use Rattle.gd_archive_store.specs.Nodes.{node, IsNumber, IsRule};
ghost use Rattle.gd_archive_store.specs.Tables.{plain_column, is_number, is_rule, key_index, archive, posting, posting2, archive_columns, posting_columns, posting2_columns, IsPlain, IsKeyed, no_schema, only_archive, version_1, version_2, first_tables, HasArchive};

use sqlite_items::Items;
use sqlite_schema::code::{Op, Terms};
use sqlite_schema::schema::{Column, Index, Kind, Schema, Table};
use sqlite_sql::ops::{BinaryOp, CompareOp};
use sqlite_value::keys::{Collation, Order};
use sqlite_value::value::Value;

/// Whether the column has this name and affinity, no default, and the order of its bytes.
fn is_column(column: &Column, name: &str, kind: Kind, not_null: bool) -> bool
    ensures { IsTrue result ↔ (column.now ≡ plain_column name.now kind not_null) }
{
    column.name.as_slice() == name.as_bytes()
        && column.kind == kind
        && !column.is_strict
        && column.not_null == not_null
        && matches!(column.default, Value::Null)
        && column.collation == Collation::Binary
}

/// Whether the node at this place is the column of this number.
fn is_place(nodes: &[Op], at: usize, place: usize) -> bool
    ensures { IsTrue result ↔ (node nodes.now at ≡ Op.Column 1 place) }
{
    match nodes.get(at) {
        Some(Op::Column(slot, column)) => *slot == 1 && *column == place,
        _ => false,
    }
}

/// Whether the node at this place is this number.
fn is_literal(nodes: &[Op], at: usize, number: i64) -> bool
    ensures { IsTrue result ↔ (node nodes.now at ≡ Op.Literal (Value.Int number)) }
{
    match nodes.get(at) {
        Some(Op::Literal(Value::Int(value))) => *value == number,
        _ => false,
    }
}

/// The places of the operands of the node at this place, if it is of this operation.
fn operands(nodes: &[Op], at: usize, op: BinaryOp) -> Option<(usize, usize)>
    ensures some { IfSome result (λ it. node nodes.now at ≡ Op.Binary op it.0 it.1) }
    ensures none { result ≡ None → (a b : ℕ) → node nodes.now at ≢ Op.Binary op a b }
{
    match nodes.get(at) {
        Some(Op::Binary(found, first, second)) => {
            if *found == op {
                Some((*first, *second))
            } else {
                None
            }
        }
        _ => None,
    }
}

/// Whether the node at this place asks that the column be this number.
fn is_number(nodes: &[Op], at: usize, place: usize, number: i64) -> bool
    ensures { IsTrue result ↔ IsNumber nodes.now at place number }
{
    match operands(
        nodes,
        at,
        BinaryOp::Compare(CompareOp::Eq, Collation::Binary),
    ) {
        Some((left, right)) => is_place(nodes, left, place) && is_literal(nodes, right, number),
        None => false,
    }
}

/// Whether the node at this place asks that the rule be 1 or 2.
fn is_rule(nodes: &[Op], at: usize) -> bool
    ensures { IsTrue result ↔ IsRule nodes.now at }
{
    match operands(nodes, at, BinaryOp::Or) {
        Some((first, second)) => is_number(nodes, first, 5, 1) && is_number(nodes, second, 5, 2),
        None => false,
    }
}

/// Whether the one check is that the rule be 1 or 2.
fn checks_rule(checks: &Terms) -> bool
    ensures { IsTrue result ↔ (checks.now ≡ is_rule ∷ []) }
{
    let nodes = checks.nodes.as_slice();
    let [root] = checks.roots.as_slice() else {
        return false;
    };
    if nodes.len() < 3 {
        return false;
    }
    is_rule(nodes, *root)
}

/// Whether the one check is that the version's row be row 1.
fn checks_one(checks: &Terms) -> bool
    ensures { IsTrue result ↔ (checks.now ≡ is_number 0 (pos 1) ∷ []) }
{
    let nodes = checks.nodes.as_slice();
    let [root] = checks.roots.as_slice() else {
        return false;
    };
    if nodes.len() < 2 {
        return false;
    }
    is_number(nodes, *root, 0, 1)
}

/// Whether there is no check at all.
fn has_no_term(terms: &Terms) -> bool
    ensures { IsTrue result ↔ (terms.now ≡ []) }
{
    terms.roots.is_empty()
}

/// Whether the table has this name and tree, and neither references nor computed defaults.
fn is_plain(table: &Table, name: &str, tree: u32) -> bool
    ensures { IsTrue result ↔ IsPlain name.now tree table.now }
{
    table.name.as_slice() == name.as_bytes()
        && table.tree == tree
        && table.references.is_empty()
        && table.computed.is_empty()
        && table.stamps.places.is_empty()
        && table.stamps.formats.is_empty()
        && has_no_term(&table.stamps.terms)
        && !table.is_counted
}

/// Whether the places are those of book and cycle.
fn is_key(places: &[usize]) -> bool
    ensures { IsTrue result ↔ (places.now ≡ 1 ∷ 2 ∷ []) }
{
    let [first, second] = places else {
        return false;
    };
    *first == 1 && *second == 2
}

/// Whether the one key is of book and cycle.
fn are_keys(uniques: &[Items<usize>]) -> bool
    ensures { IsTrue result ↔ (uniques.now ≡ (1 ∷ 2 ∷ []) ∷ []) }
{
    let [unique] = uniques else {
        return false;
    };
    is_key(unique.as_slice())
}

/// Whether the one key ascends by the bytes of its values.
fn are_ascending(orders: &[Order]) -> bool
    ensures { IsTrue result ↔ (orders.now ≡ (record { digits = 0 }) ∷ []) }
{
    let [order] = orders else {
        return false;
    };
    order.digits == 0
}

/// Whether the table has the key of book and cycle, and no other.
fn is_keyed(table: &Table) -> bool
    ensures { IsTrue result ↔ IsKeyed table.now }
{
    table.key.is_none()
        && is_key(table.primary.as_slice())
        && are_keys(table.uniques.as_slice())
        && are_ascending(table.orders.as_slice())
}

fn are_archive_columns(columns: &[Column]) -> bool
    ensures { IsTrue result ↔ (columns.now ≡ archive_columns) }
{
    let [one, version] = columns else {
        return false;
    };
    is_column(one, "one", Kind::Integer, false)
        && is_column(version, "version", Kind::Integer, true)
}

fn are_posting_columns(columns: &[Column]) -> bool
    ensures { IsTrue result ↔ (columns.now ≡ posting_columns) }
{
    let [book, cycle, round, body] = columns else {
        return false;
    };
    is_column(book, "book", Kind::Text, true)
        && is_column(cycle, "cycle", Kind::Integer, true)
        && is_column(round, "round", Kind::Integer, true)
        && is_column(body, "body", Kind::Any, true)
}

fn are_posting2_columns(columns: &[Column]) -> bool
    ensures { IsTrue result ↔ (columns.now ≡ posting2_columns) }
{
    let [shared @ .., rule] = columns else {
        return false;
    };
    are_posting_columns(shared) && is_column(rule, "rule", Kind::Integer, true)
}

/// Whether the one place is the rowid's.
fn is_rowid(places: &[usize]) -> bool
    ensures { IsTrue result ↔ (places.now ≡ 0 ∷ []) }
{
    let [place] = places else {
        return false;
    };
    *place == 0
}

fn is_archive_table(table: &Table) -> bool
    ensures { IsTrue result ↔ (table.now ≡ archive) }
{
    is_plain(table, "archive", 0)
        && are_archive_columns(table.columns.as_slice())
        && table.key == Some(0)
        && is_rowid(table.primary.as_slice())
        && table.uniques.is_empty()
        && table.orders.is_empty()
        && checks_one(&table.checks)
}

fn is_posting_table(table: &Table) -> bool
    ensures { IsTrue result ↔ (table.now ≡ record posting { tree = 1 }) }
{
    is_plain(table, "posting", 1)
        && are_posting_columns(table.columns.as_slice())
        && is_keyed(table)
        && has_no_term(&table.checks)
}

fn is_posting2_table(table: &Table) -> bool
    ensures { IsTrue result ↔ (table.now ≡ record posting2 { tree = 3 }) }
{
    is_plain(table, "posting2", 3)
        && are_posting2_columns(table.columns.as_slice())
        && is_keyed(table)
        && checks_rule(&table.checks)
}

/// Whether the index is what SQL makes of the key of this table, and keeps in the tree after it.
fn is_key_index(index: &Index, name: &str, table: u32) -> bool
    requires { table < 4 }
    ensures { IsTrue result ↔ (index.now ≡ key_index name.now table) }
{
    index.name.as_slice() == name.as_bytes()
        && index.tree == table + 1
        && index.table == table
        && is_key(index.columns.as_slice())
        && index.order.digits == 0
        && index.is_unique
}

/// Whether there is no table at all.
fn is_empty(schema: &Schema) -> bool
    ensures { IsTrue result ↔ (schema.now ≡ no_schema) }
{
    schema.tables.is_empty() && schema.indexes.is_empty() && schema.views.is_empty()
}

fn are_tables_1(tables: &[Table]) -> bool
    ensures { IsTrue result ↔ (tables.now ≡ archive ∷ (record posting { tree = 1 }) ∷ []) }
{
    let [archive, posting] = tables else {
        return false;
    };
    is_archive_table(archive) && is_posting_table(posting)
}

fn are_tables_2(tables: &[Table]) -> bool
    ensures { IsTrue result ↔ (tables.now ≡ archive ∷ (record posting { tree = 1 }) ∷ (record posting2 { tree = 3 }) ∷ []) }
{
    let [archive, posting, posting2] = tables else {
        return false;
    };
    is_archive_table(archive) && is_posting_table(posting) && is_posting2_table(posting2)
}

fn are_indexes_1(indexes: &[Index]) -> bool
    ensures { IsTrue result ↔ (indexes.now ≡ key_index (codes "sqlite_autoindex_posting_1") 1 ∷ []) }
{
    let [key] = indexes else {
        return false;
    };
    is_key_index(key, "sqlite_autoindex_posting_1", 1)
}

fn are_indexes_2(indexes: &[Index]) -> bool
    ensures { IsTrue result ↔ (indexes.now ≡ key_index (codes "sqlite_autoindex_posting_1") 1
        ∷ key_index (codes "sqlite_autoindex_posting2_1") 3 ∷ []) }
{
    let [key, key2] = indexes else {
        return false;
    };
    is_key_index(key, "sqlite_autoindex_posting_1", 1)
        && is_key_index(key2, "sqlite_autoindex_posting2_1", 3)
}

/// Whether the version's table stands first, as in each version.
pub(crate) fn has_archive(schema: &Schema) -> bool
    ensures { IsTrue result ↔ HasArchive schema.now }
{
    let [archive, ..] = schema.tables.as_slice() else {
        return false;
    };
    is_archive_table(archive)
}

/// Whether the version's table is the only one.
fn is_only_archive(schema: &Schema) -> bool
    ensures { IsTrue result ↔ (schema.now ≡ only_archive) }
{
    let [archive] = schema.tables.as_slice() else {
        return false;
    };
    is_archive_table(archive) && schema.indexes.is_empty() && schema.views.is_empty()
}

/// Whether the tables are those of version 1, and no other.
pub(crate) fn is_version_1(schema: &Schema) -> bool
    ensures { IsTrue result ↔ (schema.now ≡ version_1) }
{
    are_tables_1(schema.tables.as_slice())
        && are_indexes_1(schema.indexes.as_slice())
        && schema.views.is_empty()
}

/// Whether the tables are those of version 2, and no other.
pub(crate) fn is_version_2(schema: &Schema) -> bool
    ensures { IsTrue result ↔ (schema.now ≡ version_2) }
{
    are_tables_2(schema.tables.as_slice())
        && are_indexes_2(schema.indexes.as_slice())
        && schema.views.is_empty()
}

/// How many of the first tables of version 2 there are, where there is no other.
pub(crate) fn count_of(schema: &Schema) -> Option<usize>
    ensures { IfSome result (λ count. (count ≤ 3) × (schema.now ≡ first_tables count)) }
{
    if is_empty(schema) {
        return Some(0);
    }
    if is_only_archive(schema) {
        return Some(1);
    }
    if is_version_1(schema) {
        return Some(2);
    }
    if is_version_2(schema) {
        return Some(3);
    }
    None
}
