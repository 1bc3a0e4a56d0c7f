ghost use Rattle.std.specs.Prelude.{◌≡◌, IfOk, Some};
ghost use Rattle.sve_contents.specs.Reading.{announcing_in, declaration_entering, declaring_in, empty_contents, noted, noted_all, noted_if, remarked, said, spot_in, with_dotted, with_entry, without_dotted};
ghost use Rattle.sve_scope.specs.Scopes.{empty_scope};

use std::alloc::Global;
use std::mem;
use sve_bytes::{List, Name, NoMemory, Path};
use sve_diag::{Code, Note};
use sve_fault::Fault;
use sve_scope::{Declared, Enclosing, Entered, Scope, Spot};

/// A hierarchical name that a text uses (IEEE 1800-2017, 23.6): a name with members behind it that is sought above the body too.
pub struct DottedName {
    /// The number of its first token in the chunk of the text.
    pub token: u32,
    /// The name.
    pub name: Path,
}

impl Drop for DottedName {
    fn drop(self) {
        let DottedName { token: _, name: _ } = self;
    }
}

/// A scope, as far as its text is read, the scopes around it, what is to be said of that text, and the hierarchical names that it uses.
pub struct Contents {
    /// The scope. What is said of it stands in its file and chunk.
    pub scope: Scope,
    /// The scopes around it, which its text sees.
    pub around: Enclosing<Scope>,
    /// What is to be said, in the order of the text.
    pub notes: List<Note>,
    /// The hierarchical names that were used since they were last taken out, in the order of the text.
    pub dotted: List<DottedName>,
}

impl Drop for Contents {
    fn drop(self) {
        let Contents {
            scope: _,
            around: _,
            notes: _,
            dotted: _,
        } = self;
    }
}

/// What is found of a scope whose text is read to its end.
#[derive(Drop)]
pub struct Finished {
    /// The scope.
    pub scope: Scope,
    /// What is to be said, in the order of the text.
    pub notes: List<Note>,
}

/// A scope into which something of this name came at this token, and how.
#[derive(Drop)]
pub(crate) struct Entering {
    pub(crate) contents: Contents,
    pub(crate) name: Name,
    pub(crate) token: u32,
    pub(crate) entered: Entered,
}

impl Contents {
    /// A scope of the text of this chunk, with nothing in it and nothing around it. It takes no memory.
    pub fn new(alloc: Global, file: Name, chunk: u32) -> Contents
        ensures { result ≡ empty_contents (empty_scope file chunk) }
    {
        Contents {
            scope: Scope::new(alloc, file, chunk),
            around: Enclosing::new(alloc),
            notes: List::of(Vec::new(alloc)),
            dotted: List::of(Vec::new(alloc)),
        }
    }

    /// What is found of the scope, whose text is read to its end. It takes no memory.
    pub fn finished(self) -> Finished
        ensures scope { result.scope ≡ self.scope }
        ensures notes { result.notes ≡ self.notes }
    {
        let Contents {
            scope,
            around: _,
            notes,
            dotted: _,
        } = self;
        Finished { scope, notes }
    }

    /// A note more.
    fn with_note(self, note: Note) -> Result<Contents, NoMemory>
        ensures { IfOk result (λ c. c ≡ noted self note) }
    {
        let Contents {
            scope,
            around,
            notes,
            dotted,
        } = self;
        let mut notes = notes.into_vec();
        notes.push(note)?;
        Ok(Contents {
            scope,
            around,
            notes: List::of(notes),
            dotted,
        })
    }

    /// Says what a note says, where there is one, behind what is said already.
    ///
    /// # Errors
    /// For want of memory alone.
    pub fn noted(self, note: Option<Note>) -> Result<Contents, NoMemory>
        ensures { IfOk result (λ c. c ≡ noted_if self note) }
    {
        match note {
            Some(note) => self.with_note(note),
            None => Ok(self),
        }
    }

    /// Says what notes say, behind what is said already.
    ///
    /// # Errors
    /// For want of memory alone.
    pub fn with_notes(self, more: List<Note>) -> Result<Contents, NoMemory>
        ensures { IfOk result (λ c. c ≡ noted_all self more) }
    {
        let Contents {
            scope,
            around,
            notes,
            dotted,
        } = self;
        let mut notes = notes.into_vec();
        notes.append(&mut more.into_vec())?;
        Ok(Contents {
            scope,
            around,
            notes: List::of(notes),
            dotted,
        })
    }

    /// A hierarchical name more that is used in its text.
    ///
    /// # Errors
    /// For want of memory alone.
    pub fn with_dotted(self, name: DottedName) -> Result<Contents, NoMemory>
        ensures { IfOk result (λ c. c ≡ with_dotted self name) }
    {
        let Contents {
            scope,
            around,
            notes,
            dotted,
        } = self;
        let mut dotted = dotted.into_vec();
        dotted.push(name)?;
        Ok(Contents {
            scope,
            around,
            notes,
            dotted: List::of(dotted),
        })
    }

    /// The hierarchical names that were used so far, taken out. It takes no memory.
    pub fn take_dotted(&mut self, alloc: Global) -> List<DottedName>
        ensures names { result ≡ self.old.dotted }
        ensures left { self.new ≡ without_dotted self.old }
    {
        mem::replace(&mut self.dotted, List::of(Vec::new(alloc)))
    }

    /// Says this of a name at a token.
    ///
    /// # Errors
    /// For want of memory alone.
    pub fn remarked(self, token: u32, code: Code, name: Name) -> Result<Contents, NoMemory>
        ensures { IfOk result (λ c. c ≡ remarked self token code (Some name)) }
    {
        let note = Note {
            file: self.scope.file.copy()?,
            chunk: self.scope.chunk,
            token,
            code,
            arg: Some(name),
        };
        self.with_note(note)
    }

    /// Says what is to be said of a fault.
    ///
    /// # Errors
    /// For want of memory alone.
    pub fn said(self, fault: Fault) -> Result<Contents, NoMemory>
        ensures { IfOk result (λ c. c ≡ said self fault) }
    {
        let note = fault.note(&self.scope.file, self.scope.chunk)?;
        self.noted(note)
    }

    /// How a declaration came in: a second one of its name is said (N02), and one whose name is imported (N07).
    fn with_entry(entering: Entering) -> Result<Contents, NoMemory>
        ensures { IfOk result (λ c. c ≡ with_entry entering.contents entering.token entering.name entering.entered) }
    {
        let Entering {
            contents,
            name,
            token,
            entered,
        } = entering;
        match entered {
            Entered::New => Ok(contents),
            Entered::Again => contents.remarked(token, Code::N02, name),
            Entered::Clashing => contents.remarked(token, Code::N07, name),
        }
    }

    /// A declaration more in the scope, and how it came in.
    fn with_declaration(self, declared: Declared) -> Result<Entering, NoMemory>
        ensures { IfOk result (λ e. e ≡ declaration_entering self declared) }
    {
        let name = declared.name.copy()?;
        let token = declared.at.token;
        let mut contents = self;
        let entered = contents.scope.declare(declared)?;
        Ok(Entering {
            contents,
            name,
            token,
            entered,
        })
    }

    /// A declaration more (IEEE 1800-2017, 3.13 and 26.3). Of two of one name the first stays, and the second is said (N02); one of
    /// a name that is imported one by one, or that a use has found through an import of all names of a package, is said (N07).
    ///
    /// # Errors
    /// For want of memory alone.
    pub fn declared(self, declared: Declared) -> Result<Contents, NoMemory>
        ensures { IfOk result (λ c. c ≡ declaring_in self declared) }
    {
        let entering = self.with_declaration(declared)?;
        Contents::with_entry(entering)
    }

    /// A declaration more that the text has further on, which is seen in the whole scope (23.9): a function, an instance or a generate
    /// block. Nothing is said of it before the text comes to it.
    ///
    /// # Errors
    /// For want of memory alone.
    pub fn announced(self, declared: Declared) -> Result<Contents, NoMemory>
        ensures { IfOk result (λ c. c ≡ announcing_in self declared) }
    {
        let mut contents = self;
        contents.scope.announce(declared)?;
        Ok(contents)
    }

    /// A token of its text.
    ///
    /// # Errors
    /// For want of memory alone.
    pub fn spot(&self, token: u32) -> Result<Spot, NoMemory>
        ensures { IfOk result (λ s. s ≡ spot_in self.now token) }
    {
        Ok(Spot {
            file: self.scope.file.copy()?,
            chunk: self.scope.chunk,
            token,
        })
    }
}
