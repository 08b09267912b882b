//! Why a setup line is not read.

use flat_policy::setup::{BuildError, Field};
use flat_policy::texts::SetupFault;
use std::alloc::AllocError;

/// Why a setup line is not read.
#[derive(Clone, Copy, Debug, Drop, PartialEq, Eq, thiserror::Error)]
pub enum SetupError {
    /// The line's first fault.
    #[error("{0}")]
    Fault(SetupFault),
    /// Want of memory.
    #[error("out of memory")]
    Memory,
}

impl From<AllocError> for SetupError {
    ghost use Rattle.std.specs.Prelude.{◌≡◌};
    ghost use Rattle.setup_json.specs.declared.fault.SetupError.TheVariants.{Memory};

    ghost from_gives = { λ _ e. e ≡ Memory };

    fn from(_e: AllocError) -> SetupError {
        SetupError::Memory
    }
}

impl From<BuildError> for SetupError {
    ghost use Rattle.std.specs.Prelude.{◌≡◌};
    ghost use Rattle.setup_json.specs.Reads.{error_of_build};

    ghost from_gives = { λ b e. e ≡ error_of_build b };

    fn from(error: BuildError) -> SetupError {
        match error {
            BuildError::Range(field) => SetupError::Fault(SetupFault::Range(field)),
            BuildError::Memory => SetupError::Memory,
        }
    }
}

impl SetupError {
    ghost use Rattle.std.specs.Prelude.{◌≡◌};
    ghost use Rattle.flat_policy.specs.declared.texts.SetupFault.TheVariants as faults;
    ghost use Rattle.setup_json.specs.declared.fault.SetupError.TheVariants.{Fault};

    /// The field hasn't its shape.
    pub(crate) fn shape(field: Field) -> SetupError
        ensures { result ≡ Fault (faults.Shape field) }
    {
        SetupError::Fault(SetupFault::Shape(field))
    }
}
