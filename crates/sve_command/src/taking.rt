//! One thing after another.

/// What a part is taken for; where it is not as it should be, the function gives the part's path.
#[macro_export]
macro_rules! shaped {
    ($part:expr) => {
        match $part {
            Ok(taken) => taken,
            Err(path) => return Ok(Err(path)),
        }
    };
}
