use sve_bytes::{Name, NoMemory};
use sve_tree::Expr;
use sve_types::Ty;

/// A use of a name that is not declared, which declares a net (IEEE 1800-2017, 6.10).
#[derive(Drop)]
pub struct Net {
    /// The name.
    pub name: Name,
    /// The number of its token in the chunk of the instance.
    pub token: u32,
}

/// What a name stands for that may be connected to a port.
#[derive(Clone, Copy)]
pub enum Thing<'a> {
    /// It is not declared.
    Unknown,
    /// A net, a variable or a constant of this type.
    Data(&'a Ty),
    /// An instance of this interface, or an interface port of it.
    Interface(&'a Name),
    /// Something else.
    Other,
}

/// What is known around an instance. A connection needs no more of the scopes that it stands in, so that it is proved apart from them.
pub trait Around {
    ghost use Rattle.std.specs.Prelude.{◌≡◌, ◌++◌, OnOk, option_map};
    ghost use Rattle.sve_connect.specs.Seen.{Seen, stands_for};

    // All that it answers.
    ghost seen: { Self → Seen };

    /// The file of the instance.
    fn file(&self) -> &Name
        ensures { result.now ≡ (seen self.now).file };

    /// The chunk of the instance in its file, from 0.
    fn chunk(&self) -> u32
        ensures { result ≡ (seen self.now).chunk };

    /// The name at a token of the chunk, where that is an identifier.
    fn name(&self, token: u32) -> Option<&Name>
        ensures { option_map (λ n. n.now) result ≡ (seen self.now).name token };

    /// What a name stands for, where the instance stands.
    fn thing(&self, name: &Name) -> Thing<'_>
        ensures { stands_for result ≡ (seen self.now).thing name.now };

    /// The interface that an expression stands for (IEEE 1800-2017, 25.3 and 25.5): an instance of it or an interface port of it, perhaps
    /// with a modport behind a dot. Any other expression stands for none.
    fn interface(&self, expr: &Expr) -> Option<&Name>
        ensures { option_map (λ n. n.now) result ≡ (seen self.now).interface expr.now };

    /// Adds the uses of names in an expression that declare nets (6.10), in the order of the text.
    ///
    /// # Errors
    /// For want of memory alone.
    fn add_nets(&self, expr: &Expr, nets: &mut Vec<Net>) -> Result<(), NoMemory>
        ensures { OnOk result (nets.new.items ≡ nets.old.items ++ (seen self.now).nets expr.now) };
}
