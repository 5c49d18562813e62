// Why a line of the script came to no case.
use std::alloc::{AllocError, AllocFailed};
use std::io;

// It does not read; or there was no memory for it, or it could not be written.
#[derive(Debug, Drop)]
pub enum Fault {
    Unread,
    Io(io::Error),
}

impl From<io::Error> for Fault {
    fn from(e: io::Error) -> Fault {
        Fault::Io(e)
    }
}

impl From<AllocError> for Fault {
    fn from(e: AllocError) -> Fault {
        Fault::Io(io::Error::from(e))
    }
}

impl<T: Drop> From<AllocFailed<T>> for Fault {
    fn from(e: AllocFailed<T>) -> Fault {
        Fault::from(AllocError::from(e))
    }
}
