//! The imports of a header.
ghost use Rattle.std.specs.Prelude.{◌≡◌, IfOk};
ghost use Rattle.sve_header.specs.Imports.{with_header_imports};

use sve_bytes::NoMemory;
use sve_contents::Contents;
use sve_scoped::Text;
use sve_tree::Header;

/// What the imports of a header leave (IEEE 1800-2017, 26.4), which the header and what follows it see.
///
/// # Errors
/// For want of memory alone.
pub fn with_header_imports(
    text: Text<'_>,
    contents: Contents,
    header: &Header,
) -> Result<Contents, NoMemory>
    ensures { IfOk result (λ c. c ≡ with_header_imports text.entry.packages.now text.entry.words.now contents header.now) }
{
    let mut contents = contents;
    'imports: for import in header.imports.as_slice() {
        contents = contents.imported(text.packages, text.words, import)?;
    }
    Ok(contents)
}
