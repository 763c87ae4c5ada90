//! Why a JSON text gives no infos.

ghost use Rattle.std.specs.Prelude.{◌≡◌};
ghost use Rattle.ext_json.specs.Answered.{fault_code};

/// Why a JSON text gives no infos, in the order of the checks.
#[derive(Clone, Copy, Debug, PartialEq, Eq, Drop)]
pub enum JsonFault {
    /// The text is no JSON.
    Syntax,
    /// The text is no array, or a member of it is no document that an info can be.
    Form {
        /// The number of the first such member, from 1; 0 where the text is no array.
        document: u32,
    },
    /// There was no memory for it.
    Memory,
}

impl JsonFault {
    /// The number of the setup fault: 33 or 34; `None` for want of memory.
    pub fn code(&self) -> Option<u8>
        ensures code { result ≡ fault_code self.now }
    {
        match self {
            JsonFault::Syntax => Some(33),
            JsonFault::Form { .. } => Some(34),
            JsonFault::Memory => None,
        }
    }
}
