ghost use Rattle.std.specs.Prelude.{◌≡◌};

use crate::data_type::{Declarator, DeclaredType, Initializer, TypedName};
use crate::declaration::Import;
use crate::row::Row;
use crate::word::{Lifetime, Mark, Net, ParameterKeyword};
use sve_bytes::Dir;

/// The header of a module or an interface, from behind its keyword to the semicolon (IEEE 1800-2017, 23.2).
pub struct Header {
    /// The lifetime of the variables in it, where one is written.
    pub lifetime: Option<Mark<Lifetime>>,
    /// The name.
    pub name: u32,
    /// Imports into the header and what follows.
    pub imports: Vec<Import>,
    /// The parameter ports, where there is a list of them.
    pub parameters: Option<ParameterPorts>,
    /// The ports, where there is a list of them.
    pub ports: Option<Ports>,
    /// `;`.
    pub semicolon: u32,
}

impl Drop for Header {
    fn drop(self) {
        let Header {
            lifetime: _,
            name: _,
            imports: _,
            parameters: _,
            ports: _,
            semicolon: _,
        } = self;
    }
}

/// The parameters of a header in their parentheses: `#(parameter N = 8)` (6.20.1 and 23.2.1).
pub struct ParameterPorts {
    /// `#`.
    pub hash: u32,
    /// `(`.
    pub opening: u32,
    /// The parameters. `#()` has none.
    pub parameters: Row<ParameterPort>,
    /// `)`.
    pub closing: u32,
}

impl Drop for ParameterPorts {
    fn drop(self) {
        let ParameterPorts {
            hash: _,
            opening: _,
            parameters: _,
            closing: _,
        } = self;
    }
}

/// A parameter of a header (6.20.1).
pub struct ParameterPort {
    /// `parameter` or `localparam`, where one is written.
    pub keyword: Option<Mark<ParameterKeyword>>,
    /// The name with its type.
    pub parameter: TypedName,
    /// The default value, where there is one.
    pub value: Option<Initializer>,
}

impl Drop for ParameterPort {
    fn drop(self) {
        let ParameterPort {
            keyword: _,
            parameter: _,
            value: _,
        } = self;
    }
}

impl ParameterPort {
    /// The number of the parameter's name.
    pub fn name(&self) -> u32
        ensures { result ≡ self.now.parameter.declarator.name }
    {
        self.parameter.declarator.name
    }
}

/// The ports of a header in their parentheses (23.2.2).
pub struct Ports {
    /// `(`.
    pub opening: u32,
    /// The ports. `()` has none.
    pub ports: Row<Port>,
    /// `)`.
    pub closing: u32,
}

impl Drop for Ports {
    fn drop(self) {
        let Ports {
            opening: _,
            ports: _,
            closing: _,
        } = self;
    }
}

/// A port of a header (23.2.2.2).
pub struct Port {
    /// The direction, where one is written.
    pub direction: Option<Mark<Dir>>,
    /// `var` or the net type, where one is written.
    pub kind: Option<PortKind>,
    /// The type, written or left out, or the interface.
    pub port_type: PortType,
    /// The name.
    pub declarator: Declarator,
}

impl Drop for Port {
    fn drop(self) {
        let Port {
            direction: _,
            kind: _,
            port_type: _,
            declarator: _,
        } = self;
    }
}

impl Port {
    /// The number of the port's name.
    pub fn name(&self) -> u32
        ensures { result ≡ self.now.declarator.name }
    {
        self.declarator.name
    }
}

/// Whether a port is a variable or a net (23.2.2.3).
#[derive(Clone, Copy)]
pub enum PortKind {
    /// A variable.
    Variable {
        /// `var`.
        keyword: u32,
    },
    /// A net.
    Net {
        /// The net type.
        net: Mark<Net>,
    },
}

/// The type of a port, written or left out, or its interface (23.2.2.2 and 25.3).
pub enum PortType {
    /// A type, or an interface by its name alone, which looks like one.
    Data {
        /// The type.
        data_type: DeclaredType,
    },
    /// An interface with a modport: `i.m n`.
    Interface {
        /// The interface.
        interface: u32,
        /// `.`.
        dot: u32,
        /// The modport.
        modport: u32,
    },
}

impl Drop for PortType {
    fn drop(self) {
        match self {
            PortType::Data { data_type: _ } => {}
            PortType::Interface {
                interface: _,
                dot: _,
                modport: _,
            } => {}
        }
    }
}
