//! A tree that is deeper than the parser reads one.
use std::alloc::Global;
use sve_bytes::NoMemory;
use sve_tree::{Cast, Expr, Parenthesized};

/// An expression in parentheses, all at token 0.
fn parenthesized(alloc: Global, value: Expr) -> Result<Parenthesized, NoMemory> {
    Ok(Parenthesized {
        opening: 0,
        value: Box::new(alloc, value)?,
        closing: 0,
    })
}

/// The cast of the decimal number at token 0 to a size.
fn cast_to(alloc: Global, size: Expr) -> Result<Expr, NoMemory> {
    Ok(Expr::ParenthesizedCast {
        size: parenthesized(alloc, size)?,
        cast: Cast {
            apostrophe: 0,
            value: parenthesized(alloc, Expr::Decimal { token: 0 })?,
        },
    })
}

/// As many casts, the size of each of which is the cast before it, and of the first the number itself: `((3)'(3))'(3)` for two.
pub fn nest(alloc: Global, times: u32) -> Result<Expr, NoMemory> {
    let mut nest = Expr::Decimal { token: 0 };
    for _ in 0..times {
        nest = cast_to(alloc, nest)?;
    }
    Ok(nest)
}
