//! A call that is made again after an allocation failure.

use std::test::Fail;

/// Prints the name of a call that ran out of memory.
pub(crate) fn print_refused<R: Print>(rt: &R, name: &str) -> Result<(), Fail> {
    println!(rt; "refused: {name}")?;
    Ok(())
}

/// What a test itself asks memory for. After an allocation failure, it says so and asks again.
macro_rules! own {
    ($rt:expr, $made:expr) => {
        match $made {
            Err(_) => {
                println!($rt; "the test asks again")?;
                $made?
            }
            Ok(made) => made,
        }
    };
}

/// What a call returns, as the result of a function. If it runs out of memory, its name is printed
/// and it is made again, with the same arguments.
macro_rules! again {
    ($rt:expr, $name:literal, $call:expr) => {
        match $call {
            Err(Fault::OutOfMemory) => {
                super::again::print_refused($rt, $name)?;
                Ok($call?)
            }
            made => Ok(made?),
        }
    };
}

pub(crate) use again;
pub(crate) use own;
