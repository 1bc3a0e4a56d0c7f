ghost use Rattle.std.specs.Prelude.{◌≡◌, ◌<◌, ◌^◌, length};
ghost use Rattle.std.specs.List.{All};
ghost use Rattle.sve_origin.specs.Origins.{values, cells, HasOffset};
ghost use Rattle.sve_origin.specs.Segments.{Cover};

use crate::{Output, Segment};
use std::marker::Model;
use sve_bytes::{List, NetType};
use sve_diag::Diag;

/// An expanded text: its bytes with where they come from, what the expansion has to say, and the net types that are
/// in force.
pub struct Expanded {
    output: Output,
    diags: List<Diag>,
    net_types: List<(u32, NetType)>,
}

impl Drop for Expanded {
    fn drop(self) {
        let Expanded {
            output: _,
            diags: _,
            net_types: _,
        } = self;
    }
}

impl Model for Expanded {
    ghost use Rattle.sve_origin.specs.Expanded.{ExpandedValue};

    ghost Value = { ExpandedValue };

    ghost view = { λ e. record { cells = e.output; diags = e.diags; net_types = e.net_types } };
}

impl Expanded {
    /// A finished text. It takes no memory.
    pub fn of(output: Output, diags: List<Diag>, net_types: List<(u32, NetType)>) -> Expanded
        ensures { result ≡ record { cells = output; diags = diags; net_types = net_types } }
    {
        Expanded {
            output,
            diags,
            net_types,
        }
    }

    /// The bytes, fewer than 2^32. It takes no memory.
    pub fn bytes(&self) -> &[u8]
        ensures bytes { result.now ≡ values self.now.cells }
        ensures small { length result.now < 2 ^ 32 }
    {
        self.output.bytes()
    }

    /// Where the bytes come from: segments that rise and begin within the bytes, the first one at 0 where there are
    /// bytes. Every byte comes from an offset below 2^32. It takes no memory.
    pub fn segments(&self) -> &[Segment]
        ensures cells { cells result.now (values self.now.cells) ≡ self.now.cells }
        ensures cover { Cover result.now (length self.now.cells) }
        ensures offsets { All HasOffset self.now.cells }
    {
        self.output.segments()
    }

    /// The diagnostics, in the order in which they were found. It takes no memory.
    pub fn diags(&self) -> &[Diag]
        ensures { result.now ≡ self.now.diags }
    {
        self.diags.items()
    }

    /// The net type that is in force from each byte of the text on; `wire` is before the first one (IEEE 1800-2017,
    /// 22.8). It takes no memory.
    pub fn net_types(&self) -> &[(u32, NetType)]
        ensures { result.now ≡ self.now.net_types }
    {
        self.net_types.items()
    }
}
