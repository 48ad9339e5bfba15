// The faults of the outside that are told.
ghost use Rattle.std.specs.Prelude.{◌≡◌};
ghost use Rattle.smv_texts.specs.Texts.{fault_line};

/// A fault of the outside that is told.
#[derive(Clone, Copy, Debug, PartialEq, Eq)]
pub enum Fault {
    /// A file could not be read.
    LoadFailed,
    /// There is no file of the name.
    LoadMissing,
    /// A file could not be made or written whole.
    SaveFailed,
}

impl Fault {
    /// The line that tells it.
    pub fn line(self) -> &'static [u8]
        ensures { result.now ≡ fault_line self }
    {
        match self {
            Fault::LoadFailed => b"fault load failed\n",
            Fault::LoadMissing => b"fault load missing\n",
            Fault::SaveFailed => b"fault save failed\n",
        }
    }
}
