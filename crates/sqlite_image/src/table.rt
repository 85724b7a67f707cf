//! The statements over the table of one row.
ghost use Rattle.sqlite.specs.Order.{column};
ghost use Rattle.sqlite.specs.declared.types.Value.TheVariants.{Int, Blob};
ghost use Rattle.std.specs.Prelude.{◌≡◌, ◌⊎◌, ◌≤◌, length, map, pos, ◌∷◌, ℕ, List, [], None, Some, IsTrue, IfOk, IfErr};
ghost use Rattle.std.specs.Prelude.{OnOk, MatchOption};
ghost use Rattle.sqlite.specs.State.{HasCleanDisk, Survives};
ghost use Rattle.sqlite.specs.Held.{state};
ghost use Rattle.sqlite.specs.Effect.{Database};
ghost use Rattle.sqlite_image.specs.Fault.{IsRefused, AreRefused};
ghost use Rattle.sqlite_image.specs.Kept.{Holds, Has, HasImage, HasTable, HasNone, IsFresh, IsOurs, Stands, shown_row};
ghost use Rattle.sqlite_image.specs.Kept.{bytes_of};

use crate::fault::{KeepFault, calling_fault};
use sqlite::{Alter, Connection, Error, ErrorCode, Row, params};

/// Makes the table, in a database that has none.
pub(crate) fn create<S: Alter>(conn: &mut Connection<S>) -> Result<(), KeepFault>
    ensures clean { HasCleanDisk (state S.Store conn.new) → HasCleanDisk (state S.Store conn.old) }
    ensures made { Stands IsFresh (state S.Store conn.old) → HasCleanDisk (state S.Store conn.new)
        → OnOk result (Stands HasNone (state S.Store conn.new)) }
    ensures crash { (version : ℕ) → Stands IsFresh (state S.Store conn.old)
        → Survives (state S.Store conn.old) (state S.Store conn.new) (Holds version None) }
    ensures plain { IfErr result (λ e. (version : ℕ) (db : Database) → IsRefused version db e) }
{
    match conn.execute(
        "CREATE TABLE kept (id INTEGER PRIMARY KEY, version INTEGER NOT NULL, image BLOB NOT NULL) STRICT",
        &[],
    ) {
        Ok(_) => Ok(()),
        Err(error) => Err(calling_fault(error)),
    }
}

/// Writes the first image into the table, which has no row.
pub(crate) fn insert<S: Alter>(
    conn: &mut Connection<S>,
    version: u32,
    image: &[u8],
) -> Result<(), KeepFault>
    ensures clean { HasCleanDisk (state S.Store conn.new) → HasCleanDisk (state S.Store conn.old) }
    ensures made { Stands HasNone (state S.Store conn.old) → HasCleanDisk (state S.Store conn.new)
        → OnOk result (Stands (HasImage version image.now) (state S.Store conn.new)) }
    ensures crash { Stands HasNone (state S.Store conn.old)
        → Survives (state S.Store conn.old) (state S.Store conn.new) (Holds version (Some image.now)) }
{
    match conn.execute(
        "INSERT INTO kept (version, image) VALUES (?1, ?2)",
        params![version, image],
    ) {
        Ok(_) => Ok(()),
        Err(error) => Err(calling_fault(error)),
    }
}

/// Writes an image over the one in the row.
pub(crate) fn update<S: Alter>(conn: &mut Connection<S>, image: &[u8]) -> Result<(), KeepFault>
    ensures clean { HasCleanDisk (state S.Store conn.new) → HasCleanDisk (state S.Store conn.old) }
    ensures made { (version : ℕ) (old : List ℕ) → Stands (HasImage version old) (state S.Store conn.old)
        → HasCleanDisk (state S.Store conn.new) → OnOk result
        (Stands (HasImage version image.now) (state S.Store conn.new)) }
    ensures crash { (version : ℕ) (old : List ℕ) → Stands (HasImage version old) (state S.Store conn.old)
        → Survives (state S.Store conn.old) (state S.Store conn.new) (Holds version (Some image.now)) }
{
    match conn.execute("UPDATE kept SET image = ?1", params![image]) {
        Ok(_) => Ok(()),
        Err(error) => Err(calling_fault(error)),
    }
}

/// The rows of the table.
fn rows<S: Alter>(conn: &mut Connection<S>) -> Result<Vec<Row>, Error>
    ensures clean { HasCleanDisk (state S.Store conn.new) → HasCleanDisk (state S.Store conn.old) }
    ensures ours { Stands IsOurs (state S.Store conn.old) → HasCleanDisk (state S.Store conn.new)
        → OnOk result (Stands IsOurs (state S.Store conn.new)) }
    ensures same { Stands IsOurs (state S.Store conn.old) → HasCleanDisk (state S.Store conn.new)
        → OnOk result ((state S.Store conn.new).now ≡ (state S.Store conn.old).now) }
    ensures found { Stands IsOurs (state S.Store conn.old) → HasCleanDisk (state S.Store conn.new)
        → IfOk result (λ rows. length rows.items ≤ 1 → rows.items
        ≡ map shown_row ((state S.Store conn.old).now.trees 0)) }
    ensures crash { Stands IsOurs (state S.Store conn.old)
        → Survives (state S.Store conn.old) (state S.Store conn.new) (λ _. ⊥) }
{
    match conn.query_all("SELECT id, version, image FROM kept", &[]) {
        Ok(rows) => Ok(rows),
        Err(error) => Err(error),
    }
}

/// The fault of a row that can't be read.
fn row_fault(error: Error) -> KeepFault
    ensures { (version : ℕ) (rows : List _) → AreRefused version rows result }
{
    match error {
        Error::SqliteFailure(ErrorCode::OutOfMemory) => KeepFault::OutOfMemory,
        _ => KeepFault::Damaged,
    }
}

/// The image in a row of the key 1 and of this version.
fn image_in(row: &Row, version: u32) -> Result<Vec<u8>, KeepFault>
    ensures found { IfOk result (λ v. (column row.now 0 ≡ Int (pos 1)) × (column row.now 1 ≡ Int (pos version))
        × (column row.now 2 ≡ Blob v.items)) }
    ensures refused { IfErr result (AreRefused version (row.now ∷ [])) }
{
    let id: i64 = match row.get(0) {
        Ok(id) => id,
        Err(error) => return Err(row_fault(error)),
    };
    if id != 1 {
        return Err(KeepFault::Damaged);
    }
    let found: u32 = match row.get(1) {
        Ok(found) => found,
        Err(error) => return Err(row_fault(error)),
    };
    if found > version {
        return Err(KeepFault::Newer(found));
    }
    if found < version {
        return Err(KeepFault::Older(found));
    }
    match row.get(2) {
        Ok(image) => Ok(image),
        Err(error) => Err(row_fault(error)),
    }
}

/// The image in the one row, or nothing where there is no row.
fn image_of(rows: &[Row], version: u32) -> Result<Option<Vec<u8>>, KeepFault>
    ensures found { IfOk result (λ o. MatchOption o (rows.now ≡ [])
        (λ v. (row : _) × (rows.now ≡ row ∷ []) × (column row 0 ≡ Int (pos 1)) × (column row 1 ≡ Int (pos version))
        × (column row 2 ≡ Blob v.items))) }
    ensures refused { IfErr result (AreRefused version rows.now) }
{
    match rows {
        [] => Ok(None),
        [row] => match image_in(row, version) {
            Ok(image) => Ok(Some(image)),
            Err(fault) => Err(fault),
        },
        _ => Err(KeepFault::Damaged),
    }
}

/// Reads the image, or None where the table has no row.
pub(crate) fn read<S: Alter>(
    conn: &mut Connection<S>,
    version: u32,
) -> Result<Option<Vec<u8>>, KeepFault>
    ensures clean { HasCleanDisk (state S.Store conn.new) → HasCleanDisk (state S.Store conn.old) }
    ensures found { Stands IsOurs (state S.Store conn.old) → HasCleanDisk (state S.Store conn.new)
        → IfOk result (λ o. Stands (HasTable version (bytes_of o)) (state S.Store conn.new)) }
    ensures same { Stands IsOurs (state S.Store conn.old) → HasCleanDisk (state S.Store conn.new)
        → OnOk result ((state S.Store conn.new).now ≡ (state S.Store conn.old).now) }
    ensures crash { Stands IsOurs (state S.Store conn.old)
        → Survives (state S.Store conn.old) (state S.Store conn.new) (λ _. ⊥) }
    ensures refused { Stands IsOurs (state S.Store conn.old) → HasCleanDisk (state S.Store conn.new)
        → IfErr result (IsRefused version (state S.Store conn.old).now) }
{
    match rows(conn) {
        Ok(rows) => image_of(rows.as_slice(), version),
        Err(error) => Err(calling_fault(error)),
    }
}
