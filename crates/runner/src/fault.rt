// Why a day stops, or what one of its calls was refused for. Each layer's own fault is carried whole.
ghost use Rattle.std.specs.Prelude.{◌≡◌};
ghost use Rattle.runner.specs.Faults.{number_in, layer_in, place_in, call_in};
ghost use Rattle.runner.specs.declared.fault.DayFault.TheVariants.{File, Board, Line, NoMemory};

use calls::Layer;
use dayfile::FileFault;
use line::LineFault;
use model::Refusal;
use std::alloc::{AllocError, AllocFailed};

// A fault with the number of the call that met it, or 0 where the board is made: no `Option`, since `DayFault::call` promises
// the 0 there.
#[derive(Clone, Copy)]
pub struct CallFault<F> {
    pub fault: F,
    pub call: u16,
}

#[derive(Clone, Copy)]
pub enum DayFault {
    File(FileFault),
    Board(CallFault<Refusal>),
    Line(CallFault<LineFault>),
    // There is no memory for the cells or for another line. Such a fault has no number and no layer.
    NoMemory,
}

// By hand, since a derived `From` has no clause, and contracts name the fault that a `?` makes.
impl From<FileFault> for DayFault {
    ghost from_gives = { λ fault r. r ≡ File fault };

    fn from(fault: FileFault) -> DayFault {
        DayFault::File(fault)
    }
}

impl From<CallFault<Refusal>> for DayFault {
    ghost from_gives = { λ fault r. r ≡ Board fault };

    fn from(fault: CallFault<Refusal>) -> DayFault {
        DayFault::Board(fault)
    }
}

impl From<CallFault<LineFault>> for DayFault {
    ghost from_gives = { λ fault r. r ≡ Line fault };

    fn from(fault: CallFault<LineFault>) -> DayFault {
        DayFault::Line(fault)
    }
}

impl From<AllocError> for DayFault {
    ghost from_gives = { λ _ r. r ≡ NoMemory };

    fn from(_error: AllocError) -> DayFault {
        DayFault::NoMemory
    }
}

impl<T: Drop> From<AllocFailed<T>> for DayFault {
    ghost from_gives = { λ _ r. r ≡ NoMemory };

    fn from(_refused: AllocFailed<T>) -> DayFault {
        DayFault::NoMemory
    }
}

impl DayFault {
    pub fn number(self) -> Option<u8>
        ensures number { result ≡ number_in self }
    {
        match self {
            DayFault::File(fault) => Some(fault.number()),
            DayFault::Board(met) => Some(met.fault.number()),
            DayFault::Line(met) => Some(met.fault.number()),
            DayFault::NoMemory => None,
        }
    }

    pub fn layer(self) -> Option<Layer>
        ensures layer { result ≡ layer_in self }
    {
        match self {
            DayFault::File(fault) => Some(fault.layer()),
            DayFault::Board(met) => Some(met.fault.layer()),
            DayFault::Line(met) => Some(met.fault.layer()),
            DayFault::NoMemory => None,
        }
    }

    // The byte at which a refused record begins.
    pub fn place(self) -> Option<usize>
        ensures place { result ≡ place_in self }
    {
        match self {
            DayFault::File(fault) => Some(fault.place),
            _ => None,
        }
    }

    // The number of the call that met a fault of the board or of the writer of lines.
    pub fn call(self) -> Option<u16>
        ensures call { result ≡ call_in self }
    {
        match self {
            DayFault::Board(met) => Some(met.call),
            DayFault::Line(met) => Some(met.call),
            DayFault::File(_) | DayFault::NoMemory => None,
        }
    }
}
