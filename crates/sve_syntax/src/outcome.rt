use std::alloc::{AllocError, Global};
use std::fmt::Write;
use sve_bytes::NoMemory;
use sve_grammar::Stop;
use sve_show::stop_text;

/// What came of reading a part.
#[derive(Drop)]
pub enum Outcome {
    /// A tree came of it.
    Read {
        /// The tree as text.
        text: String,
        /// The number of the token behind it.
        end: u32,
        /// Whether its tokens are those from the first to the last, in order.
        in_order: bool,
    },
    /// The parser stopped.
    Stopped {
        /// The number of the next token.
        index: u32,
        /// Whether only the depth stands against going on.
        deep: bool,
    },
}

/// The outcome of a parser that stopped, where memory did not run out.
pub fn outcome_of_stop(stop: Stop) -> Result<Outcome, NoMemory> {
    match stop {
        Stop::At { index, deep } => Ok(Outcome::Stopped { index, deep }),
        Stop::NoMemory => Err(AllocError),
    }
}

/// The outcome as it is printed, of a text of so many tokens: the tree, and where it ends if that is not the end; or the stop.
pub fn outcome_text(
    alloc: Global,
    outcome: &Outcome,
    tokens: usize,
    is_deep: bool,
) -> Result<String, NoMemory> {
    match outcome {
        Outcome::Read {
            text,
            end,
            in_order,
        } => {
            let tree = if is_deep { "accept" } else { text.as_str() };
            let mut printed = String::from_str(alloc, tree)?;
            let end = *end;
            if end as usize != tokens {
                write!(printed, " rest at {end}")?;
            }
            if !*in_order {
                printed.push_str(" out of order")?;
            }
            Ok(printed)
        }
        Outcome::Stopped { index, deep } => stop_text(alloc, *index, *deep),
    }
}
