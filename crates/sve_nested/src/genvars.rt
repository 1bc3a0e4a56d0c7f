ghost use Rattle.std.specs.Prelude.{◌≡◌, IfOk, option_map};
ghost use Rattle.sve_known.specs.Naming.{name_at};
ghost use Rattle.sve_nested.specs.Genvars.{declaring_genvar, genvar_fault_in, sought_genvar, wrong_kind};

use crate::nested::Nested;
use sve_bytes::{Name, NoMemory};
use sve_contents::Contents;
use sve_diag::Code;
use sve_fault::{Fault, Said};
use sve_known::{Known, name_at, named};
use sve_scope::{Declared, What};
use sve_table::Table;
use sve_tree::{ScopedName, Word};

/// A genvar more, where its token is a name.
fn declaring_genvar(
    contents: Contents,
    token: u32,
    name: Option<&Name>,
) -> Result<Contents, NoMemory>
    ensures { IfOk result (λ c. c ≡ declaring_genvar contents token (option_map (λ n. n.now) name.entry)) }
{
    match name {
        None => Ok(contents),
        Some(name) => {
            let at = contents.spot(token)?;
            let name = name.copy()?;
            contents.declared(Declared {
                name,
                what: What::Genvar,
                at,
                from: token,
            })
        }
    }
}

/// What is said of a name that is no genvar.
fn wrong_kind(token: u32, name: Option<&Name>) -> Result<Option<Fault>, NoMemory>
    ensures { IfOk result (λ f. f ≡ wrong_kind token (option_map (λ n. n.now) name.entry)) }
{
    match name {
        None => Ok(None),
        Some(name) => {
            let code = Code::N11;
            let arg = Some(name.copy()?);
            Ok(Some(Fault {
                token,
                said: Said::Here { code, arg },
            }))
        }
    }
}

/// What is wrong with the name of a genvar that is declared in front of its loop.
fn sought_genvar(
    packages: &Table<Known>,
    words: &[Word],
    contents: &Contents,
    token: u32,
) -> Result<Option<Fault>, NoMemory>
    ensures { IfOk result (λ f. f ≡ sought_genvar packages.now words.now contents.now token) }
{
    let name = ScopedName {
        scope: None,
        name: token,
    };
    match named(packages, words, &contents.scope, &contents.around, name) {
        Ok(What::Genvar) => Ok(None),
        Ok(_) => wrong_kind(token, name_at(words, token)),
        Err(wrong) => Ok(Some(wrong.fault()?)),
    }
}

impl Nested {
    /// A genvar, by the token of its name (IEEE 1800-2017, 27.4).
    ///
    /// # Errors
    /// For want of memory alone.
    pub fn with_genvar(self, words: &[Word], token: u32) -> Result<Nested, NoMemory>
        ensures { IfOk result (λ n. n ≡ record self { contents = declaring_genvar self.contents token (name_at words.now token) }) }
    {
        let Nested { contents, blocks } = self;
        let contents = declaring_genvar(contents, token, name_at(words, token))?;
        Ok(Nested { contents, blocks })
    }

    /// What is wrong with the genvar of a loop, by the tokens of `genvar`, where it is written, and of the name (IEEE 1800-2017, 27.4):
    /// it is not declared (N01), or it is no genvar (N11). One that the loop itself declares is right.
    ///
    /// # Errors
    /// For want of memory alone.
    pub fn genvar_fault(
        &self,
        packages: &Table<Known>,
        words: &[Word],
        genvar: Option<u32>,
        name: u32,
    ) -> Result<Option<Fault>, NoMemory>
        ensures { IfOk result (λ f. f ≡ genvar_fault_in packages.now words.now self.now.contents genvar name) }
    {
        match genvar {
            Some(_) => Ok(None),
            None => sought_genvar(packages, words, &self.contents, name),
        }
    }
}
