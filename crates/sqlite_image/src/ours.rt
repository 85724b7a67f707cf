//! Whether a schema is that of a file of ours.
ghost use Rattle.std.specs.Prelude.{◌≡◌, true, false, codes, [], ◌∷◌, IsTrue, Some};
ghost use Rattle.sqlite_value.specs.declared.value.Value.TheVariants.{Null};
ghost use Rattle.sqlite_value.specs.declared.keys.Collation.TheVariants.{Binary};
ghost use Rattle.sqlite_image.specs.Kept.{kept_table, kept_schema, no_schema};

use sqlite_schema::schema::{Column, Kind, Schema, Table};
use sqlite_value::keys::Collation;
use sqlite_value::value::Value;

fn is_column(column: &Column, name: &[u8], kind: Kind, not_null: bool) -> bool
    ensures is { IsTrue result → column.now ≡ record {
      name = name.now;
      kind = kind;
      is_strict = true;
      not_null = not_null;
      default = Null;
      collation = Binary;
    } }
    ensures back { column.now ≡ record {
      name = name.now;
      kind = kind;
      is_strict = true;
      not_null = not_null;
      default = Null;
      collation = Binary;
    } → IsTrue result }
{
    column.name.as_slice() == name
        && column.kind == kind
        && column.is_strict
        && column.not_null == not_null
        && matches!(&column.default, Value::Null)
        && column.collation == Collation::Binary
}

/// It has no rule beside its columns, and no default that reads the time.
fn is_plain(table: &Table) -> bool
    ensures uniques { IsTrue result → table.now.uniques ≡ [] }
    ensures orders { IsTrue result → table.now.orders ≡ [] }
    ensures checks { IsTrue result → table.now.checks ≡ [] }
    ensures references { IsTrue result → table.now.references ≡ [] }
    ensures computed { IsTrue result → table.now.computed ≡ [] }
    ensures stamps { IsTrue result → table.now.stamps ≡ record { places = []; terms = []; formats = [] } }
    ensures back { table.now.uniques ≡ [] → table.now.orders ≡ [] → table.now.checks ≡ [] → table.now.references ≡ []
        → table.now.computed ≡ [] → table.now.stamps ≡ record { places = []; terms = []; formats = [] }
        → IsTrue result }
{
    table.uniques.is_empty()
        && table.orders.is_empty()
        && table.checks.roots.is_empty()
        && table.references.is_empty()
        && table.computed.is_empty()
        && table.stamps.places.is_empty()
        && table.stamps.terms.roots.is_empty()
        && table.stamps.formats.is_empty()
}

/// The key is the first column, which is the rowid.
fn is_keyed(table: &Table) -> bool
    ensures tree { IsTrue result → table.now.tree ≡ 0 }
    ensures key { IsTrue result → table.now.key ≡ Some 0 }
    ensures primary { IsTrue result → table.now.primary ≡ 0 ∷ [] }
    ensures counted { IsTrue result → table.now.is_counted ≡ false }
    ensures back { table.now.tree ≡ 0 → table.now.key ≡ Some 0 → table.now.primary ≡ 0 ∷ []
        → table.now.is_counted ≡ false → IsTrue result }
{
    let [0] = table.primary.as_slice() else {
        return false;
    };
    table.tree == 0 && table.key == Some(0) && !table.is_counted
}

fn are_columns(columns: &[Column]) -> bool
    ensures is { IsTrue result → columns.now ≡ kept_table.columns }
    ensures back { columns.now ≡ kept_table.columns → IsTrue result }
{
    let [id, version, image] = columns else {
        return false;
    };
    is_column(id, b"id", Kind::Integer, false)
        && is_column(version, b"version", Kind::Integer, true)
        && is_column(image, b"image", Kind::Blob, true)
}

fn is_named(table: &Table) -> bool
    ensures is { IsTrue result → table.now.name ≡ codes "kept" }
    ensures back { table.now.name ≡ codes "kept" → IsTrue result }
{
    table.name.as_slice() == b"kept".as_slice()
}

fn is_table(table: &Table) -> bool
    ensures is { IsTrue result → table.now ≡ kept_table }
    ensures back { table.now ≡ kept_table → IsTrue result }
{
    if !is_named(table) {
        return false;
    }
    if !are_columns(table.columns.as_slice()) {
        return false;
    }
    is_keyed(table) && is_plain(table)
}

/// Whether our table is in the database, and nothing else.
pub(crate) fn is_ours(schema: &Schema) -> bool
    ensures is { IsTrue result → schema.now ≡ kept_schema }
    ensures back { schema.now ≡ kept_schema → IsTrue result }
{
    let [table] = schema.tables.as_slice() else {
        return false;
    };
    is_table(table) && schema.indexes.is_empty() && schema.views.is_empty()
}

/// Whether there is nothing in the database.
pub(crate) fn is_fresh(schema: &Schema) -> bool
    ensures is { IsTrue result → schema.now ≡ no_schema }
    ensures back { schema.now ≡ no_schema → IsTrue result }
{
    schema.tables.is_empty() && schema.indexes.is_empty() && schema.views.is_empty()
}
