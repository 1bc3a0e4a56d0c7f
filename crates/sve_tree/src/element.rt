ghost use Rattle.std.specs.Prelude.{◌≡◌, Option, option_copied, option_map};
ghost use Rattle.sve_tree.specs.Elements.{design_name, design_definition, element_name, element_definition};

use crate::declaration::{Import, Parameters, Typedef};
use crate::header::Header;
use crate::item::Item;
use crate::statement::Func;
use crate::token_word::Word;
use crate::word::{Label, Lifetime, Mark, ModuleKeyword};

/// The tree of a chunk: items of the compilation unit's scope, and at most one module, interface or package behind them
/// (IEEE 1800-2017, 3.12.1 and A.1.2); and the words of the chunk, whose numbers the tree holds.
pub struct Element {
    /// The items of the compilation unit's scope.
    pub items: Vec<UnitItem>,
    /// The module, interface or package, where there is one.
    pub design: Option<Design>,
    /// The chunk's tokens without their places, in order.
    pub words: Vec<Word>,
}

impl Drop for Element {
    fn drop(self) {
        let Element {
            items: _,
            design: _,
            words: _,
        } = self;
    }
}

impl Element {
    /// The number of the name of the module, interface or package, where there is one.
    pub fn name(&self) -> Option<u32>
        ensures { result ≡ element_name self.now }
    {
        match &self.design {
            Some(design) => Some(design.name()),
            None => None,
        }
    }

    /// The module or the interface, which has the header and the items, where the element has one.
    pub fn definition(&self) -> Option<&Definition>
        ensures { option_copied result ≡ element_definition self.now }
    {
        match &self.design {
            Some(design) => design.definition(),
            None => None,
        }
    }
}

/// An item of the compilation unit's scope or of a package (A.1.11).
#[derive(Drop)]
pub enum UnitItem {
    /// `;`.
    Empty {
        /// `;`.
        semicolon: u32,
    },
    /// Imports (26.3).
    Import {
        /// The declaration.
        declaration: Box<Import>,
    },
    /// Parameters (6.20).
    Parameters {
        /// The declaration.
        declaration: Box<Parameters>,
    },
    /// A type (6.18).
    Typedef {
        /// The declaration.
        declaration: Box<Typedef>,
    },
    /// A function (13.4).
    Function {
        /// The function.
        function: Box<Func>,
    },
}

/// A module, an interface or a package (A.1.2).
pub enum Design {
    /// A module (clause 23).
    Module {
        /// `module` or `macromodule`.
        keyword: Mark<ModuleKeyword>,
        /// What follows.
        definition: Box<Definition>,
    },
    /// An interface (clause 25).
    Interface {
        /// `interface`.
        keyword: u32,
        /// What follows.
        definition: Box<Definition>,
    },
    /// A package (clause 26).
    Package {
        /// The package.
        unit: Box<Package>,
    },
}

impl Drop for Design {
    fn drop(self) {
        match self {
            Design::Module {
                keyword: _,
                definition: _,
            } => {}
            Design::Interface {
                keyword: _,
                definition: _,
            } => {}
            Design::Package { unit: _ } => {}
        }
    }
}

impl Design {
    /// The number of its name.
    pub fn name(&self) -> u32
        ensures { result ≡ design_name self.now }
    {
        match self {
            Design::Module { definition, .. } => definition.header.name,
            Design::Interface { definition, .. } => definition.header.name,
            Design::Package { unit } => unit.name,
        }
    }

    /// The module or the interface, where it is no package.
    pub fn definition(&self) -> Option<&Definition>
        ensures { option_copied result ≡ design_definition self.now }
    {
        match self {
            Design::Module { definition, .. } => Some(definition),
            Design::Interface { definition, .. } => Some(definition),
            Design::Package { .. } => None,
        }
    }
}

/// A module or an interface behind its keyword (23.2 and 25.3).
pub struct Definition {
    /// Its header.
    pub header: Header,
    /// Its items.
    pub items: Vec<Item>,
    /// `endmodule` or `endinterface`.
    pub end: u32,
    /// The label after the end, where one is written.
    pub label: Option<Label>,
}

impl Drop for Definition {
    fn drop(self) {
        let Definition {
            header: _,
            items: _,
            end: _,
            label: _,
        } = self;
    }
}

/// A package (26.2).
pub struct Package {
    /// `package`.
    pub keyword: u32,
    /// The lifetime of the variables in its functions, where one is written.
    pub lifetime: Option<Mark<Lifetime>>,
    /// Its name.
    pub name: u32,
    /// `;`.
    pub semicolon: u32,
    /// Its items.
    pub items: Vec<UnitItem>,
    /// `endpackage`.
    pub end: u32,
    /// The label after `endpackage`, where one is written.
    pub label: Option<Label>,
}

impl Drop for Package {
    fn drop(self) {
        let Package {
            keyword: _,
            lifetime: _,
            name: _,
            semicolon: _,
            items: _,
            end: _,
            label: _,
        } = self;
    }
}
