//! Why bytes are no updates.
ghost use Rattle.std.specs.Prelude.{◌≡◌, ◌⊎◌};
ghost use Rattle.serde_json.specs.Errors.{IsMemory};
ghost use Rattle.part_read.specs.declared.fault.UpdateFault.TheVariants as faults;

use kit::Memory;
use serde_json::Error as JsonError;
use thiserror::Error;

/// Why bytes were not read as updates.
#[derive(Clone, Copy, Debug, PartialEq, Eq, Error)]
pub enum UpdateFault {
    /// They are not UTF-8, or not JSON.
    #[error("not UTF-8 or not JSON")]
    NoJson,
    /// They are JSON, and not an object with a list of objects.
    #[error("no object with a list of updates")]
    NoList,
    /// Memory ran out.
    #[error("out of memory")]
    Memory,
}

impl From<Memory> for UpdateFault {
    ghost from_gives = { λ _ fault. fault ≡ faults.Memory };

    fn from(_memory: Memory) -> Self {
        UpdateFault::Memory
    }
}

impl From<JsonError> for UpdateFault {
    ghost from_gives = { λ error fault. (IsMemory error × (fault ≡ faults.Memory)) ⊎ (¬ IsMemory error × (fault ≡ faults.NoJson)) };

    fn from(error: JsonError) -> Self {
        if error.is_memory() {
            UpdateFault::Memory
        } else {
            UpdateFault::NoJson
        }
    }
}
