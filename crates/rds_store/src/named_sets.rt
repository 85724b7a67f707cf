//! The data sets that a DSN names. Source: RDS Forum SPB 490, data set number.
ghost use Rattle.std.specs.Prelude.{◌≡◌, ◌==◌, ◌⊎◌, ℕ, None, IfSome};
ghost use Rattle.rds_store.specs.Names.{names_set};

/// The data sets that a DSN names, where one of them is the current set.
#[derive(Clone, Copy, Debug)]
pub(crate) struct NamedSets {
    pub(crate) dsn: u8,
    pub(crate) current: u8,
}

impl NamedSets {
    pub(crate) fn has(self, set: u8) -> bool
        ensures { result ≡ names_set self.dsn self.current set }
    {
        match self.dsn {
            0x00 => set == self.current,
            0xfe => set != self.current,
            0xff => true,
            _ => set == self.dsn,
        }
    }

    /// The one set that is named, whether it is there or not; None where all are, or all but one.
    pub(crate) fn only(self) -> Option<u8>
        ensures named { IfSome result (λ only. (set : ℕ) → names_set self.dsn self.current set ≡ (set == only)) }
        ensures many { result ≡ None → (self.dsn ≡ 0xFE) ⊎ (self.dsn ≡ 0xFF) }
    {
        match self.dsn {
            0x00 => Some(self.current),
            0xfe | 0xff => None,
            dsn => Some(dsn),
        }
    }
}
