/// A reserved word of SystemVerilog that no rule of the grammar of chunks names: it stands for what is outside the subset
/// (IEEE 1800-2017, Annex B). Each variant is named as those of `Keyword` are.
///
/// It is not one type with `Keyword`, since the proof of each function that takes a token costs far more than in proportion to
/// the variants of that type.
#[derive(Clone, Copy, PartialEq, Eq)]
pub enum Reserved {
    /// `accept_on`.
    KwAcceptOn,
    /// `alias`.
    KwAlias,
    /// `and`.
    KwAnd,
    /// `assert`.
    KwAssert,
    /// `assume`.
    KwAssume,
    /// `before`.
    KwBefore,
    /// `bind`.
    KwBind,
    /// `bins`.
    KwBins,
    /// `binsof`.
    KwBinsof,
    /// `buf`.
    KwBuf,
    /// `bufif0`.
    KwBufif0,
    /// `bufif1`.
    KwBufif1,
    /// `cell`.
    KwCell,
    /// `chandle`.
    KwChandle,
    /// `checker`.
    KwChecker,
    /// `class`.
    KwClass,
    /// `clocking`.
    KwClocking,
    /// `cmos`.
    KwCmos,
    /// `config`.
    KwConfig,
    /// `const`.
    KwConst,
    /// `constraint`.
    KwConstraint,
    /// `context`.
    KwContext,
    /// `cover`.
    KwCover,
    /// `covergroup`.
    KwCovergroup,
    /// `coverpoint`.
    KwCoverpoint,
    /// `cross`.
    KwCross,
    /// `deassign`.
    KwDeassign,
    /// `defparam`.
    KwDefparam,
    /// `design`.
    KwDesign,
    /// `disable`.
    KwDisable,
    /// `dist`.
    KwDist,
    /// `endchecker`.
    KwEndchecker,
    /// `endclass`.
    KwEndclass,
    /// `endclocking`.
    KwEndclocking,
    /// `endconfig`.
    KwEndconfig,
    /// `endgroup`.
    KwEndgroup,
    /// `endprimitive`.
    KwEndprimitive,
    /// `endprogram`.
    KwEndprogram,
    /// `endproperty`.
    KwEndproperty,
    /// `endsequence`.
    KwEndsequence,
    /// `endspecify`.
    KwEndspecify,
    /// `endtable`.
    KwEndtable,
    /// `endtask`.
    KwEndtask,
    /// `event`.
    KwEvent,
    /// `eventually`.
    KwEventually,
    /// `expect`.
    KwExpect,
    /// `export`.
    KwExport,
    /// `extends`.
    KwExtends,
    /// `extern`.
    KwExtern,
    /// `final`.
    KwFinal,
    /// `first_match`.
    KwFirstMatch,
    /// `force`.
    KwForce,
    /// `forever`.
    KwForever,
    /// `fork`.
    KwFork,
    /// `forkjoin`.
    KwForkjoin,
    /// `global`.
    KwGlobal,
    /// `highz0`.
    KwHighz0,
    /// `highz1`.
    KwHighz1,
    /// `iff`.
    KwIff,
    /// `ifnone`.
    KwIfnone,
    /// `ignore_bins`.
    KwIgnoreBins,
    /// `illegal_bins`.
    KwIllegalBins,
    /// `implements`.
    KwImplements,
    /// `implies`.
    KwImplies,
    /// `incdir`.
    KwIncdir,
    /// `include`.
    KwInclude,
    /// `instance`.
    KwInstance,
    /// `interconnect`.
    KwInterconnect,
    /// `intersect`.
    KwIntersect,
    /// `join`.
    KwJoin,
    /// `join_any`.
    KwJoinAny,
    /// `join_none`.
    KwJoinNone,
    /// `large`.
    KwLarge,
    /// `let`.
    KwLet,
    /// `liblist`.
    KwLiblist,
    /// `library`.
    KwLibrary,
    /// `local`.
    KwLocal,
    /// `matches`.
    KwMatches,
    /// `medium`.
    KwMedium,
    /// `nand`.
    KwNand,
    /// `nettype`.
    KwNettype,
    /// `new`.
    KwNew,
    /// `nexttime`.
    KwNexttime,
    /// `nmos`.
    KwNmos,
    /// `nor`.
    KwNor,
    /// `noshowcancelled`.
    KwNoshowcancelled,
    /// `not`.
    KwNot,
    /// `notif0`.
    KwNotif0,
    /// `notif1`.
    KwNotif1,
    /// `null`.
    KwNull,
    /// `pmos`.
    KwPmos,
    /// `primitive`.
    KwPrimitive,
    /// `program`.
    KwProgram,
    /// `property`.
    KwProperty,
    /// `protected`.
    KwProtected,
    /// `pull0`.
    KwPull0,
    /// `pull1`.
    KwPull1,
    /// `pulldown`.
    KwPulldown,
    /// `pullup`.
    KwPullup,
    /// `pulsestyle_ondetect`.
    KwPulsestyleOndetect,
    /// `pulsestyle_onevent`.
    KwPulsestyleOnevent,
    /// `pure`.
    KwPure,
    /// `rand`.
    KwRand,
    /// `randc`.
    KwRandc,
    /// `randcase`.
    KwRandcase,
    /// `randsequence`.
    KwRandsequence,
    /// `rcmos`.
    KwRcmos,
    /// `real`.
    KwReal,
    /// `realtime`.
    KwRealtime,
    /// `reject_on`.
    KwRejectOn,
    /// `release`.
    KwRelease,
    /// `restrict`.
    KwRestrict,
    /// `rnmos`.
    KwRnmos,
    /// `rpmos`.
    KwRpmos,
    /// `rtran`.
    KwRtran,
    /// `rtranif0`.
    KwRtranif0,
    /// `rtranif1`.
    KwRtranif1,
    /// `s_always`.
    KwSAlways,
    /// `s_eventually`.
    KwSEventually,
    /// `s_nexttime`.
    KwSNexttime,
    /// `s_until`.
    KwSUntil,
    /// `s_until_with`.
    KwSUntilWith,
    /// `scalared`.
    KwScalared,
    /// `sequence`.
    KwSequence,
    /// `shortreal`.
    KwShortreal,
    /// `showcancelled`.
    KwShowcancelled,
    /// `small`.
    KwSmall,
    /// `soft`.
    KwSoft,
    /// `solve`.
    KwSolve,
    /// `specify`.
    KwSpecify,
    /// `specparam`.
    KwSpecparam,
    /// `strong`.
    KwStrong,
    /// `strong0`.
    KwStrong0,
    /// `strong1`.
    KwStrong1,
    /// `super`.
    KwSuper,
    /// `sync_accept_on`.
    KwSyncAcceptOn,
    /// `sync_reject_on`.
    KwSyncRejectOn,
    /// `table`.
    KwTable,
    /// `tagged`.
    KwTagged,
    /// `task`.
    KwTask,
    /// `this`.
    KwThis,
    /// `throughout`.
    KwThroughout,
    /// `timeprecision`.
    KwTimeprecision,
    /// `timeunit`.
    KwTimeunit,
    /// `tran`.
    KwTran,
    /// `tranif0`.
    KwTranif0,
    /// `tranif1`.
    KwTranif1,
    /// `trireg`.
    KwTrireg,
    /// `type`.
    KwType,
    /// `union`.
    KwUnion,
    /// `until`.
    KwUntil,
    /// `until_with`.
    KwUntilWith,
    /// `untyped`.
    KwUntyped,
    /// `use`.
    KwUse,
    /// `vectored`.
    KwVectored,
    /// `virtual`.
    KwVirtual,
    /// `wait`.
    KwWait,
    /// `wait_order`.
    KwWaitOrder,
    /// `weak`.
    KwWeak,
    /// `weak0`.
    KwWeak0,
    /// `weak1`.
    KwWeak1,
    /// `wildcard`.
    KwWildcard,
    /// `with`.
    KwWith,
    /// `within`.
    KwWithin,
    /// `xnor`.
    KwXnor,
    /// `xor`.
    KwXor,
}
