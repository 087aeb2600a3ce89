ghost use Rattle.std.specs.Prelude.{◌≡◌};
ghost use Rattle.output_format.specs.declared.fault.Fault.TheVariants.{NoMemory as no_memory};
ghost use Rattle.output_format.specs.Fault.{fault_of, status_of_fault};

use crate::status::Status;
use outer_io::PutFault;
use std::alloc::{AllocError, AllocFailed};

/// Why a run stops before its end.
#[derive(Clone, Copy, Debug, PartialEq, Eq)]
pub enum Fault {
    /// The source of the trace failed.
    ReadFault,
    /// A sink of an output failed.
    WriteFault,
    /// Memory ran out.
    NoMemory,
}

impl Fault {
    /// The status of a run that stops for this.
    pub fn status(self) -> Status
        ensures { result ≡ status_of_fault self }
    {
        match self {
            Fault::ReadFault => Status::ReadFault,
            Fault::WriteFault => Status::WriteFault,
            Fault::NoMemory => Status::NoMemory,
        }
    }
}

impl From<PutFault> for Fault {
    ghost from_gives = { λ put fault. fault ≡ fault_of put };

    fn from(put: PutFault) -> Fault {
        match put {
            PutFault::Failed => Fault::WriteFault,
            PutFault::NoMemory => Fault::NoMemory,
        }
    }
}

impl From<AllocError> for Fault {
    ghost from_gives = { λ _ fault. fault ≡ no_memory };

    fn from(_error: AllocError) -> Fault {
        Fault::NoMemory
    }
}

impl<T: Drop> From<AllocFailed<T>> for Fault {
    ghost from_gives = { λ _ fault. fault ≡ no_memory };

    fn from(_error: AllocFailed<T>) -> Fault {
        Fault::NoMemory
    }
}
