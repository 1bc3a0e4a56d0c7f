ghost use Rattle.std.specs.Prelude.{◌≡◌, IfOk, option_map};
ghost use Rattle.sve_contents.specs.Imports.{import_entering, importing_all_in, importing_in, with_all, with_found, with_import_entry, with_item, with_items, with_name, with_package};
ghost use Rattle.sve_contents.specs.Reading.{spot_in};
ghost use Rattle.sve_known.specs.Naming.{name_at, of_known};
ghost use Rattle.sve_known.specs.Packages.{package_name};
ghost use Rattle.sve_table.specs.Tables.{item_of};

use crate::Contents;
use crate::contents::Entering;
use std::sync::Arc;
use sve_bytes::{Name, NoMemory};
use sve_diag::Code;
use sve_fault::Fault;
use sve_known::{Known, name_at, package_member};
use sve_scope::{Entered, Explicit, Wildcard};
use sve_table::Table;
use sve_tree::{Import, ImportItem, Word};

impl Contents {
    /// How an import of one name came in: one whose name is declared before it, or is imported from another package, is said (N07).
    fn with_import_entry(entering: Entering) -> Result<Contents, NoMemory>
        ensures { IfOk result (λ c. c ≡ with_import_entry entering.contents entering.token entering.name entering.entered) }
    {
        let Entering {
            contents,
            name,
            token,
            entered,
        } = entering;
        match entered {
            Entered::New => Ok(contents),
            Entered::Again => Ok(contents),
            Entered::Clashing => contents.remarked(token, Code::N07, name),
        }
    }

    /// An import of one name more in the scope, and how it came in.
    fn with_explicit(self, import: Explicit) -> Result<Entering, NoMemory>
        ensures { IfOk result (λ e. e ≡ import_entering self import) }
    {
        let name = import.name.copy()?;
        let token = import.at.token;
        let mut contents = self;
        let entered = contents.scope.import_name(import)?;
        Ok(Entering {
            contents,
            name,
            token,
            entered,
        })
    }

    /// An import of one name more.
    fn with_import(self, import: Explicit) -> Result<Contents, NoMemory>
        ensures { IfOk result (λ c. c ≡ importing_in self import) }
    {
        let entering = self.with_explicit(import)?;
        Contents::with_import_entry(entering)
    }

    /// An import of one name of a package, which has it.
    fn with_found(self, token: u32, from: &Name, name: &Name) -> Result<Contents, NoMemory>
        ensures { IfOk result (λ c. c ≡ importing_in self (record { name = name.now; from = from.now; at = spot_in self token })) }
    {
        let at = self.spot(token)?;
        self.with_import(Explicit {
            name: name.copy()?,
            from: from.copy()?,
            at,
        })
    }

    /// An import of one name of a package, where the package has it.
    fn with_member(
        self,
        packages: &Table<Known>,
        at: u32,
        from: &Name,
        token: u32,
        name: &Name,
    ) -> Result<Contents, NoMemory>
        ensures { IfOk result (λ c. c ≡ with_found self token from.now name.now (of_known packages.now at from.now token name.now)) }
    {
        match package_member(packages, at, from, token, name) {
            Ok(_) => self.with_found(token, from, name),
            Err(wrong) => self.said(wrong.fault()?),
        }
    }

    /// An import of a name behind a package.
    fn with_name(
        self,
        packages: &Table<Known>,
        words: &[Word],
        at: u32,
        token: u32,
    ) -> Result<Contents, NoMemory>
        ensures { IfOk result (λ c. c ≡ with_name packages.now self at (name_at words.now at) token (name_at words.now token)) }
    {
        match name_at(words, at) {
            Some(from) => match name_at(words, token) {
                Some(name) => self.with_member(packages, at, from, token, name),
                None => self.said(Fault::at(token, Code::N05)),
            },
            None => self.said(Fault::at(at, Code::N04)),
        }
    }

    /// An import of all names of a package more.
    fn with_wildcard(self, import: Wildcard) -> Result<Contents, NoMemory>
        ensures { IfOk result (λ c. c ≡ importing_all_in self import) }
    {
        let mut contents = self;
        contents.scope.import_all(import)?;
        Ok(contents)
    }

    /// An import of all names of a package, where there is one of this name.
    fn with_package(
        self,
        packages: &Table<Known>,
        at: u32,
        star: u32,
        from: &Name,
    ) -> Result<Contents, NoMemory>
        ensures { IfOk result (λ c. c ≡ with_package self at star from.now (item_of package_name from.now packages.now)) }
    {
        match packages.get(from) {
            Some(known) => {
                let spot = self.spot(star)?;
                let import = Wildcard::of(from.copy()?, Arc::try_clone(known.names())?, spot);
                self.with_wildcard(import)
            }
            None => {
                let name = from.copy()?;
                self.remarked(at, Code::N04, name)
            }
        }
    }

    /// An import of all names of a package by its token.
    fn with_all(
        self,
        packages: &Table<Known>,
        words: &[Word],
        at: u32,
        star: u32,
    ) -> Result<Contents, NoMemory>
        ensures { IfOk result (λ c. c ≡ with_all packages.now self at star (name_at words.now at)) }
    {
        match name_at(words, at) {
            Some(from) => self.with_package(packages, at, star, from),
            None => self.said(Fault::at(at, Code::N04)),
        }
    }

    /// An item of an import.
    fn with_item(
        self,
        packages: &Table<Known>,
        words: &[Word],
        item: ImportItem,
    ) -> Result<Contents, NoMemory>
        ensures { IfOk result (λ c. c ≡ with_item packages.now words.now self item) }
    {
        match item {
            ImportItem::Name { scope, name } => self.with_name(packages, words, scope.name, name),
            ImportItem::All { scope, star } => self.with_all(packages, words, scope.name, star),
        }
    }

    /// The imports of a declaration, in the order of its text (IEEE 1800-2017, 26.3). A package that is not known is said (N04), a
    /// name that it does not declare (N05), and a name that is declared before or imported from another package (N07); none of these
    /// is imported. The words are those of the chunk of the scope's text.
    ///
    /// # Errors
    /// For want of memory alone.
    pub fn imported(
        self,
        packages: &Table<Known>,
        words: &[Word],
        import: &Import,
    ) -> Result<Contents, NoMemory>
        ensures { IfOk result (λ c. c ≡ with_items packages.now words.now self import.now.items.items.items) }
    {
        let mut contents = self;
        'items: for item in import.items.as_slice() {
            contents = contents.with_item(packages, words, *item)?;
        }
        Ok(contents)
    }
}
