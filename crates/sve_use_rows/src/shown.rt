//! Names that are used, scopes and declarations, as text.
use std::alloc::Global;
use std::marker::Model;
use sve_bytes::NoMemory;
use sve_row::{add_number, spell};
use sve_row_element::separate;
use sve_statement_use::Scopes;
use sve_tree::{
    DataDeclaration, Declarator, ForVariable, Initializer, NamedDeclaration, Parameters, Postfix,
    ScopedName, Select, Typedef, VariableDeclaration, Word,
};
use sve_use::Resolver;

/// What was handed on so far, as text, with a blank between each two.
#[derive(Drop)]
pub struct Shown<'a> {
    words: &'a [Word],
    text: String,
}

// The text is judged by the rows alone.
impl<'a> Model for Shown<'a> {
    ghost Value = { Unit {0} };

    ghost view = { λ _. tt };
}

impl<'a> Shown<'a> {
    /// Nothing yet, of a chunk of these words.
    pub fn new(alloc: Global, words: &'a [Word]) -> Shown<'a> {
        let text = String::new(alloc);
        Shown { words, text }
    }

    /// The text, or `none` where nothing was handed on.
    pub fn into_text(self) -> Result<String, NoMemory> {
        let mut text = self.text;
        if text.is_empty() {
            text.push_str("none")?;
        }
        Ok(text)
    }

    /// Adds the name at a token.
    fn add_word(&mut self, token: u32) -> Result<(), NoMemory> {
        match self.words.get(token as usize) {
            Some(word) => spell(&mut self.text, word.bytes()),
            None => Ok(()),
        }
    }

    /// Adds a name, and what stands behind it.
    fn add_name(&mut self, name: ScopedName, behind: &str) -> Result<(), NoMemory> {
        separate(&mut self.text, " ")?;
        if let Some(package) = name.package() {
            self.add_word(package)?;
            self.text.push_str("::")?;
        }
        self.add_word(name.name)?;
        self.text.push_str(behind)
    }

    /// Adds a name with a member behind it.
    fn add_dotted(&mut self, name: u32) -> Result<(), NoMemory> {
        self.add_name(ScopedName { scope: None, name }, ".")
    }

    /// Adds the number of a token behind a mark.
    fn add_number(&mut self, mark: &str, token: u32) -> Result<(), NoMemory> {
        self.text.push_str(mark)?;
        add_number(&mut self.text, token as usize)
    }

    /// Adds a mark of its own, and the number of a token.
    fn add_mark(&mut self, mark: &str, token: u32) -> Result<(), NoMemory> {
        separate(&mut self.text, " ")?;
        self.add_number(mark, token)
    }
}

impl Resolver for Shown<'_> {
    ghost after = { λ _ _. tt };

    fn named(&mut self, name: ScopedName) -> Result<(), NoMemory> {
        self.add_name(name, "")
    }

    fn called(&mut self, name: ScopedName) -> Result<(), NoMemory> {
        self.add_name(name, "()")
    }

    fn dotted(&mut self, name: u32, _postfixes: &[Postfix]) -> Result<(), NoMemory> {
        self.add_dotted(name)
    }

    fn selected(&mut self, name: u32, _selects: &[Select]) -> Result<(), NoMemory> {
        self.add_dotted(name)
    }
}

/// The first token of a variable of a `for`.
fn first_of_variable(variable: &ForVariable) -> u32 {
    match &variable.data_type {
        Some(data_type) => data_type.first_token(),
        None => variable.declarator.name,
    }
}

impl Scopes for Shown<'_> {
    ghost does = { λ _ _. tt };

    fn open_scope(&mut self, token: u32) -> Result<(), NoMemory> {
        self.add_mark("{", token)
    }

    fn close_scope(&mut self) -> Result<(), NoMemory> {
        self.text.push_str(" }")
    }

    fn declare_data(&mut self, declaration: &DataDeclaration) -> Result<(), NoMemory> {
        self.add_mark("data@", declaration.data_type.first_token())
    }

    fn declare_variables(&mut self, declaration: &VariableDeclaration) -> Result<(), NoMemory> {
        self.add_mark("var@", declaration.keyword)
    }

    fn declare_named(&mut self, declaration: &NamedDeclaration) -> Result<(), NoMemory> {
        self.add_mark("named@", declaration.name.first_token())
    }

    fn declare_parameters(&mut self, declaration: &Parameters) -> Result<(), NoMemory> {
        self.add_mark("parameters@", declaration.keyword.token)
    }

    fn declare_type(&mut self, declaration: &Typedef) -> Result<(), NoMemory> {
        self.add_mark("typedef@", declaration.keyword)
    }

    fn declare_loop(&mut self, variables: &[ForVariable]) -> Result<(), NoMemory> {
        self.text.push_str(" loop")?;
        for variable in variables {
            self.add_number("@", first_of_variable(variable))?;
        }
        Ok(())
    }

    fn declare_named_loop(
        &mut self,
        name: ScopedName,
        _selects: &Vec<Select>,
        _declarator: &Declarator,
        _value: &Initializer,
    ) -> Result<(), NoMemory> {
        self.add_mark("named-loop@", name.first_token())
    }

    fn declare_indices(&mut self, array: u32, names: &[u32]) -> Result<(), NoMemory> {
        self.add_mark("indices@", array)?;
        for name in names {
            self.add_number("@", *name)?;
        }
        Ok(())
    }
}
