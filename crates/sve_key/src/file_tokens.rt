ghost use Rattle.std.specs.Prelude.{◌≡◌, ◌<◌, ◌^◌, length};

use std::marker::Model;
use sve_bytes::{List, NetType};
use sve_diag::Diag;
use sve_token::Token;

/// The tokens of a file and of what it includes, fewer than 2^32; what its expansion has to say, in the order in which it was
/// found; and the net types that are in force from each byte of the expanded text on (IEEE 1800-2017, clauses 5 and 22).
pub struct FileTokens {
    tokens: List<Token>,
    diags: List<Diag>,
    net_types: List<(u32, NetType)>,
}

impl Drop for FileTokens {
    fn drop(self) {
        let FileTokens {
            tokens: _,
            diags: _,
            net_types: _,
        } = self;
    }
}

impl Model for FileTokens {
    ghost use Rattle.std.specs.Prelude.{◌<◌, ◌^◌, length};
    ghost use Rattle.sve_key.specs.Parts.{TokensValue};

    ghost Value = { TokensValue };

    ghost view = { λ f. record { tokens = f.tokens; diags = f.diags; net_types = f.net_types } };

    ghost invariant = { λ f. length f.tokens < 2 ^ 32 };
}

impl FileTokens {
    /// These tokens, diagnostics and net types. It takes no memory.
    pub fn of(tokens: List<Token>, diags: List<Diag>, net_types: List<(u32, NetType)>) -> FileTokens
        requires { length tokens < 2 ^ 32 }
        ensures { result ≡ record { tokens = tokens; diags = diags; net_types = net_types } }
    {
        FileTokens {
            tokens,
            diags,
            net_types,
        }
    }

    /// The tokens, in order. It takes no memory.
    pub fn tokens(&self) -> &[Token]
        ensures tokens { result.now ≡ self.now.tokens }
        ensures few { length result.now < 2 ^ 32 }
    {
        self.tokens.items()
    }

    /// The diagnostics, in the order in which they were found. It takes no memory.
    pub fn diags(&self) -> &[Diag]
        ensures { result.now ≡ self.now.diags }
    {
        self.diags.items()
    }

    /// The net types. It takes no memory.
    pub fn net_types(&self) -> &[(u32, NetType)]
        ensures { result.now ≡ self.now.net_types }
    {
        self.net_types.items()
    }
}
