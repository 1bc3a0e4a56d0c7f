ghost use Rattle.std.specs.Prelude.{◌≡◌, ◌∷◌, IfOk};
ghost use Rattle.sve_scope.specs.Lookup.{meaning_of, looked_up};
ghost use Rattle.sve_contents.specs.Uses.{place_taken, place_through, said_if, taking_if, taking_in, named_use, with_plain, with_use, wrong_in};
ghost use Rattle.sve_known.specs.Naming.{name_at, of_name};

use crate::Contents;
use sve_bytes::{Name, NoMemory};
use sve_fault::Fault;
use sve_known::{Known, name_at, named};
use sve_scope::{Found, Through, lookup};
use sve_table::Table;
use sve_tree::{ScopedName, Word};

/// The place of the scope through whose import of all names of a package something is found.
fn place_through(through: Through) -> Option<usize>
    ensures { result ≡ place_through through }
{
    match through {
        Through::Name => None,
        Through::Package(place) => Some(place),
    }
}

/// The same, by what lookup finds.
fn place_taken(found: Found<'_>) -> Option<usize>
    ensures { result ≡ place_taken (meaning_of found.entry) }
{
    match found {
        Found::Imported(_, _, through) => place_through(through),
        Found::Local(_) => None,
        Found::Two(_, _) => None,
        Found::None => None,
    }
}

impl Contents {
    /// The place of the scope, counted outward from 0, through whose import of all names of a package a plain name at a token is
    /// found.
    fn place_of(&self, name: &Name, token: u32) -> Option<usize>
        ensures { result ≡ place_taken (looked_up (self.now.scope ∷ self.now.around) name.now token) }
    {
        place_taken(lookup(&self.scope, &self.around, name, token))
    }

    /// An import of all names of a package has taken effect for a name in the scope at a place.
    #[tactic(auto, using(crate::proofs::Taking::taking_here, crate::proofs::Taking::taking_beyond))]
    fn taking(self, place: usize, name: &Name) -> Result<Contents, NoMemory>
        ensures { IfOk result (λ c. c ≡ taking_in self place name.now) }
    {
        let mut contents = self;
        if place > 0 {
            contents.around.take(place - 1, name)?;
            return Ok(contents);
        }
        contents.scope.take(name)?;
        Ok(contents)
    }

    /// The same, where there is a place.
    fn taking_if(self, place: Option<usize>, name: &Name) -> Result<Contents, NoMemory>
        ensures { IfOk result (λ c. c ≡ taking_if self name.now place) }
    {
        match place {
            Some(place) => self.taking(place, name),
            None => Ok(self),
        }
    }

    /// The scopes behind a use of a plain name at a token of the text: where the name is found through an import of all names of a
    /// package, in the scope or in one around it, that import has taken effect for it there, so that a later declaration of the name
    /// is said (N07; IEEE 1800-2017, 26.3).
    ///
    /// # Errors
    /// For want of memory alone.
    pub fn with_use(self, words: &[Word], token: u32) -> Result<Contents, NoMemory>
        ensures { IfOk result (λ c. c ≡ with_use self token (name_at words.now token)) }
    {
        match name_at(words, token) {
            Some(name) => {
                let place = self.place_of(name, token);
                self.taking_if(place, name)
            }
            None => Ok(self),
        }
    }

    /// What is wrong with a name.
    fn wrong_with(
        &self,
        packages: &Table<Known>,
        words: &[Word],
        name: ScopedName,
    ) -> Result<Option<Fault>, NoMemory>
        ensures { IfOk result (λ f. f ≡ wrong_in (of_name packages.now words.now (self.now.scope ∷ self.now.around) name)) }
    {
        match named(packages, words, &self.scope, &self.around, name) {
            Ok(_) => Ok(None),
            Err(wrong) => Ok(Some(wrong.fault()?)),
        }
    }

    /// Says what is to be said of a fault, where there is one.
    ///
    /// # Errors
    /// For want of memory alone.
    pub fn said_if(self, fault: Option<Fault>) -> Result<Contents, NoMemory>
        ensures { IfOk result (λ c. c ≡ said_if self fault) }
    {
        match fault {
            Some(fault) => self.said(fault),
            None => Ok(self),
        }
    }

    /// A use of a name, where it is a plain one.
    fn with_plain(self, words: &[Word], name: ScopedName) -> Result<Contents, NoMemory>
        ensures { IfOk result (λ c. c ≡ with_plain words.now self name.scope name.name) }
    {
        match name.scope {
            Some(_) => Ok(self),
            None => self.with_use(words, name.name),
        }
    }

    /// The scopes behind a use of a name in an expression that is no constant: the name is resolved and nothing else is checked. What
    /// is wrong with it is said: a name that stands for nothing (N01), a package that is not known (N04), a name that it does not
    /// declare (N05), a name of two packages (N06). Then a plain name takes effect as it does in `with_use` (IEEE 1800-2017, 23.9 and
    /// 26.3).
    ///
    /// # Errors
    /// For want of memory alone.
    pub fn named_use(
        self,
        packages: &Table<Known>,
        words: &[Word],
        name: ScopedName,
    ) -> Result<Contents, NoMemory>
        ensures { IfOk result (λ c. c ≡ named_use packages.now words.now self name) }
    {
        let fault = self.wrong_with(packages, words, name)?;
        let contents = self.said_if(fault)?;
        contents.with_plain(words, name)
    }
}
