//! Requests for memory that nobody needs.
use crate::end::Stop;
use std::alloc::{AllocError, Global};

/// How many requests there may be before one is refused.
const MOST: u64 = 1 << 20;

/// The requests that are made before a call, so that a refusal hits one of the call's own.
#[derive(Clone, Copy)]
pub enum Requests {
    /// This number of requests.
    Count(u64),
    /// All requests up to the one that is refused, and no call.
    Spare,
}

impl Requests {
    /// A number, or `spare`.
    pub fn parse(word: &str) -> Option<Requests> {
        if word == "spare" {
            return Some(Requests::Spare);
        }
        match word.parse::<u64>() {
            Ok(count) => Some(Requests::Count(count)),
            Err(_) => None,
        }
    }

    /// Makes the requests. `Spare` always stops here.
    pub fn make(self, alloc: Global) -> Result<(), Stop> {
        match self {
            Requests::Count(count) => {
                for _ in 0..count {
                    make_one(alloc)?;
                }
                Ok(())
            }
            Requests::Spare => {
                for granted in 0..MOST {
                    if make_one(alloc).is_err() {
                        return Err(Stop::Spent(granted));
                    }
                }
                Err(Stop::Early)
            }
        }
    }
}

/// Takes a byte, and gives it back.
fn make_one(alloc: Global) -> Result<(), AllocError> {
    let _byte: Vec<u8> = Vec::with_capacity(alloc, 1)?;
    Ok(())
}
