//! The file of one image.
ghost use Rattle.std.specs.Prelude.{◌≡◌, ◌⊎◌, ℕ, List, Option, None, Some, IfOk, IfErr, OnOk, OnErr};
ghost use Rattle.sqlite.specs.Tree.{Trees};
ghost use Rattle.sqlite.specs.State.{HasCleanDisk, Opens};
ghost use Rattle.sqlite.specs.Held.{state};
ghost use Rattle.sqlite_image.specs.Kept.{Holds, HasImage, IsFresh, Stands, bytes_of};
ghost use Rattle.sqlite_image.specs.Fault.{IsRefused};
ghost use Rattle.sqlite_image.specs.Keeper.{Fits, IsClean, MayLeave, Keeps, HasEnded};

use crate::fault::KeepFault;
use crate::start::find;
use crate::table::{insert, update};
use sqlite::{Alter, Connection};
use std::marker::Model;

/// What is known of the table's rows.
#[derive(Clone, Copy, PartialEq, Eq)]
pub(crate) enum Rows {
    Empty,
    One,
    /// A save failed, so the image before may be kept, or the one that was to be saved.
    Unsure,
}

/// One image, kept over a database. Clauses see the connection, the version of the format, and what is known of the
/// table. Source: profile.
#[derive(Drop)]
pub struct Kept<S: Alter> {
    pub(crate) conn: Connection<S>,
    pub(crate) version: u32,
    pub(crate) rows: Rows,
}

impl<S: Alter> Model for Kept<S> {
    ghost use Rattle.sqlite.specs.State.{HasCleanDisk};
    ghost use Rattle.sqlite.specs.Held.{state};
    ghost use Rattle.sqlite_image.specs.Keeper.{Keeper, keeper_code, Fits};

    ghost Value = { Keeper S };

    ghost coded = { keeper_code S.code };

    ghost view = { λ k. record { conn = k.conn; version = k.version; rows = k.rows } };

    ghost invariant = { λ k. HasCleanDisk (state S.Store k.conn) → Fits k.rows k.version (state S.Store k.conn) };
}

/// Writes the image as the one row.
fn write<S: Alter>(
    conn: &mut Connection<S>,
    rows: Rows,
    version: u32,
    image: &[u8],
) -> Result<(), KeepFault>
    requires { HasCleanDisk (state S.Store conn.old) → Fits rows version (state S.Store conn.old) }
    ensures clean { HasCleanDisk (state S.Store conn.new) → HasCleanDisk (state S.Store conn.old) }
    ensures made { HasCleanDisk (state S.Store conn.new)
        → OnOk result (Stands (HasImage version image.now) (state S.Store conn.new)) }
    ensures idle { rows ≡ Rows.Unsure → (result ≡ Err KeepFault.Failed) × (conn.new ≡ conn.old) }
    ensures left { HasCleanDisk (state S.Store conn.new) → (db : Trees) → (state S.Store conn.new).may_leave db
        → (state S.Store conn.old).may_leave db ⊎ Holds version (Some image.now) db }
{
    match rows {
        Rows::Empty => insert(conn, version, image),
        Rows::One => update(conn, image),
        Rows::Unsure => Err(KeepFault::Failed),
    }
}

/// What an open finds.
#[derive(Drop)]
pub struct Opened<S: Alter> {
    /// What goes on to keep the image.
    pub kept: Kept<S>,
    /// The image that was kept, or None where none was saved yet.
    pub image: Option<Vec<u8>>,
}

impl<S: Alter> Kept<S> {
    /// Saves the image in place of the one that was kept. From `Ok` on, whatever a crash leaves holds it. At any
    /// outcome a crash leaves what it could leave before, or the new image. After a save that failed each later one
    /// answers `Failed`, and nothing more is written: what is kept is known again once the file is opened anew.
    pub fn save(&mut self, image: &[u8]) -> Result<(), KeepFault>
        ensures saved { IsClean S.Store self.new → OnOk result (Keeps S.Store self.new (Some image.now)) }
        ensures either { IsClean S.Store self.new → (rows : Trees) → MayLeave S.Store self.new rows
            → MayLeave S.Store self.old rows ⊎ Holds self.old.version (Some image.now) rows }
        ensures clean { IsClean S.Store self.new → IsClean S.Store self.old }
        ensures version { self.new.version ≡ self.old.version }
        ensures failed { OnErr result (HasEnded S.Store self.new) }
        ensures ended { HasEnded S.Store self.old → (result ≡ Err KeepFault.Failed) × (self.new ≡ self.old) }
    {
        match write(&mut self.conn, self.rows, self.version, image) {
            Ok(()) => {
                self.rows = Rows::One;
                Ok(())
            }
            Err(fault) => {
                self.rows = Rows::Unsure;
                Err(fault)
            }
        }
    }

    /// Over a connection that was just opened. Nothing is overwritten: where there was nothing the table is made, with
    /// no row, and a connection that is refused comes back with the fault, its database as it was.
    pub fn over(
        mut conn: Connection<S>,
        version: u32,
    ) -> Result<Opened<S>, (KeepFault, Connection<S>)>
        requires { HasCleanDisk (state S.Store conn) → Opens (state S.Store conn) }
        ensures kept { IfOk result (λ r. IsClean S.Store r.kept → Keeps S.Store r.kept (bytes_of r.image)) }
        ensures found { (image : Option (List ℕ)) → Holds version image (state S.Store conn).now.trees
            → IfOk result (λ r. IsClean S.Store r.kept → bytes_of r.image ≡ image) }
        ensures version { IfOk result (λ r. r.kept.version ≡ version) }
        ensures clean { IfOk result (λ r. IsClean S.Store r.kept → HasCleanDisk (state S.Store conn)) }
        ensures refused { IfErr result (λ e. HasCleanDisk (state S.Store e.1)
            → IsRefused version (state S.Store conn).now e.0) }
        ensures spared { IfErr result (λ e. HasCleanDisk (state S.Store e.1) → (rows : Trees)
            → (state S.Store e.1).may_leave rows → (state S.Store conn).may_leave rows
            ⊎ (IsFresh (state S.Store conn).now × Holds version None rows)) }
    {
        match find(&mut conn, version) {
            Ok(Some(image)) => Ok(Opened {
                kept: Kept {
                    conn,
                    version,
                    rows: Rows::One,
                },
                image: Some(image),
            }),
            Ok(None) => Ok(Opened {
                kept: Kept {
                    conn,
                    version,
                    rows: Rows::Empty,
                },
                image: None,
            }),
            Err(fault) => Err((fault, conn)),
        }
    }
}
