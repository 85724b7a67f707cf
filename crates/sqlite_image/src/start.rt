//! From a connection that was just opened to what it keeps.
ghost use Rattle.std.specs.Prelude.{◌≡◌, ◌⊎◌, ℕ, List, Option, None, IfOk, IfErr, OnOk};
ghost use Rattle.sqlite.specs.Tree.{Trees};
ghost use Rattle.sqlite.specs.State.{HasCleanDisk, Opens};
ghost use Rattle.sqlite.specs.Held.{state};
ghost use Rattle.sqlite_image.specs.Fault.{IsRefused};
ghost use Rattle.sqlite_image.specs.Kept.{Holds, HasNone, HasTable, IsFresh, IsOurs, Stands, bytes_of};

use crate::fault::KeepFault;
use crate::ours::{is_fresh, is_ours};
use crate::table::{create, read};
use sqlite::{Alter, Connection};

/// Sees that our table is there, alone. It is made where there was nothing.
fn ready<S: Alter>(conn: &mut Connection<S>) -> Result<(), KeepFault>
    requires { HasCleanDisk (state S.Store conn.old) → Opens (state S.Store conn.old) }
    ensures clean { HasCleanDisk (state S.Store conn.new) → HasCleanDisk (state S.Store conn.old) }
    ensures ours { HasCleanDisk (state S.Store conn.new) → OnOk result (Stands IsOurs (state S.Store conn.new)) }
    ensures same { (version : ℕ) (image : Option (List ℕ)) → Holds version image (state S.Store conn.old).now.trees
        → HasCleanDisk (state S.Store conn.new) → OnOk result (Holds version image (state S.Store conn.new).now.trees) }
    ensures left { (version : ℕ) → HasCleanDisk (state S.Store conn.new) → (rows : Trees)
        → (state S.Store conn.new).may_leave rows → (state S.Store conn.old).may_leave rows
        ⊎ (IsFresh (state S.Store conn.old).now × Holds version None rows) }
    ensures made { HasCleanDisk (state S.Store conn.new)
        → OnOk result (((state S.Store conn.new).now ≡ (state S.Store conn.old).now)
        ⊎ HasNone (state S.Store conn.new).now) }
    ensures refused { (version : ℕ) → IfErr result (IsRefused version (state S.Store conn.old).now) }
{
    if is_fresh(conn.schema()) {
        return match create(conn) {
            Ok(()) => Ok(()),
            Err(fault) => Err(fault),
        };
    }
    if !is_ours(conn.schema()) {
        return Err(KeepFault::NotOurs);
    }
    Ok(())
}

/// The image that is kept, or None where there is none yet.
pub(crate) fn find<S: Alter>(
    conn: &mut Connection<S>,
    version: u32,
) -> Result<Option<Vec<u8>>, KeepFault>
    requires { HasCleanDisk (state S.Store conn.old) → Opens (state S.Store conn.old) }
    ensures clean { HasCleanDisk (state S.Store conn.new) → HasCleanDisk (state S.Store conn.old) }
    ensures has { HasCleanDisk (state S.Store conn.new)
        → IfOk result (λ o. Stands (HasTable version (bytes_of o)) (state S.Store conn.new)) }
    ensures found { (image : Option (List ℕ)) → Holds version image (state S.Store conn.old).now.trees
        → HasCleanDisk (state S.Store conn.new) → IfOk result (λ o. bytes_of o ≡ image) }
    ensures left { HasCleanDisk (state S.Store conn.new) → (rows : Trees) → (state S.Store conn.new).may_leave rows
        → (state S.Store conn.old).may_leave rows ⊎ (IsFresh (state S.Store conn.old).now × Holds version None rows) }
    ensures refused { HasCleanDisk (state S.Store conn.new)
        → IfErr result (IsRefused version (state S.Store conn.old).now) }
{
    match ready(conn) {
        Ok(()) => read(conn, version),
        Err(fault) => Err(fault),
    }
}
