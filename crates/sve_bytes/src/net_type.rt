/// What the directive `` `default_nettype `` may name: a net type, or none at all (IEEE 1800-2017, 22.8).
#[derive(Clone, Copy, PartialEq, Eq, PartialOrd, Ord, Hash)]
pub enum NetType {
    /// `wire`, which is in force where no directive says otherwise.
    Wire,
    /// `tri`.
    Tri,
    /// `uwire`, a net with one driver (IEEE 1800-2017, 6.6.2).
    Uwire,
    /// `wand`.
    Wand,
    /// `wor`.
    Wor,
    /// `triand`.
    Triand,
    /// `trior`.
    Trior,
    /// `tri0`.
    Tri0,
    /// `tri1`.
    Tri1,
    /// `trireg`.
    Trireg,
    /// `none`: an undeclared name makes no net.
    None,
}
