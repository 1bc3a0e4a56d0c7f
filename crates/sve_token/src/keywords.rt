/// A reserved word of SystemVerilog that the grammar of chunks has a rule with (IEEE 1800-2017, Annex B). Each variant is
/// `Kw` and the word, without its underscores and with a capital after each.
#[derive(Clone, Copy, PartialEq, Eq)]
pub enum Keyword {
    /// `always`.
    KwAlways,
    /// `always_comb`.
    KwAlwaysComb,
    /// `always_ff`.
    KwAlwaysFf,
    /// `always_latch`.
    KwAlwaysLatch,
    /// `assign`.
    KwAssign,
    /// `automatic`.
    KwAutomatic,
    /// `begin`.
    KwBegin,
    /// `bit`.
    KwBit,
    /// `break`.
    KwBreak,
    /// `byte`.
    KwByte,
    /// `case`.
    KwCase,
    /// `casex`.
    KwCasex,
    /// `casez`.
    KwCasez,
    /// `continue`.
    KwContinue,
    /// `default`.
    KwDefault,
    /// `do`.
    KwDo,
    /// `edge`.
    KwEdge,
    /// `else`.
    KwElse,
    /// `end`.
    KwEnd,
    /// `endcase`.
    KwEndcase,
    /// `endfunction`.
    KwEndfunction,
    /// `endgenerate`.
    KwEndgenerate,
    /// `endinterface`.
    KwEndinterface,
    /// `endmodule`.
    KwEndmodule,
    /// `endpackage`.
    KwEndpackage,
    /// `enum`.
    KwEnum,
    /// `for`.
    KwFor,
    /// `foreach`.
    KwForeach,
    /// `function`.
    KwFunction,
    /// `generate`.
    KwGenerate,
    /// `genvar`.
    KwGenvar,
    /// `if`.
    KwIf,
    /// `import`.
    KwImport,
    /// `initial`.
    KwInitial,
    /// `inout`.
    KwInout,
    /// `input`.
    KwInput,
    /// `inside`.
    KwInside,
    /// `int`.
    KwInt,
    /// `integer`.
    KwInteger,
    /// `interface`.
    KwInterface,
    /// `localparam`.
    KwLocalparam,
    /// `logic`.
    KwLogic,
    /// `longint`.
    KwLongint,
    /// `macromodule`.
    KwMacromodule,
    /// `modport`.
    KwModport,
    /// `module`.
    KwModule,
    /// `negedge`.
    KwNegedge,
    /// `or`.
    KwOr,
    /// `output`.
    KwOutput,
    /// `package`.
    KwPackage,
    /// `packed`.
    KwPacked,
    /// `parameter`.
    KwParameter,
    /// `posedge`.
    KwPosedge,
    /// `priority`.
    KwPriority,
    /// `ref`.
    KwRef,
    /// `reg`.
    KwReg,
    /// `repeat`.
    KwRepeat,
    /// `return`.
    KwReturn,
    /// `shortint`.
    KwShortint,
    /// `signed`.
    KwSigned,
    /// `static`.
    KwStatic,
    /// `string`.
    KwString,
    /// `struct`.
    KwStruct,
    /// `supply0`.
    KwSupply0,
    /// `supply1`.
    KwSupply1,
    /// `time`.
    KwTime,
    /// `tri`.
    KwTri,
    /// `tri0`.
    KwTri0,
    /// `tri1`.
    KwTri1,
    /// `triand`.
    KwTriand,
    /// `trior`.
    KwTrior,
    /// `typedef`.
    KwTypedef,
    /// `unique`.
    KwUnique,
    /// `unique0`.
    KwUnique0,
    /// `unsigned`.
    KwUnsigned,
    /// `uwire`.
    KwUwire,
    /// `var`.
    KwVar,
    /// `void`.
    KwVoid,
    /// `wand`.
    KwWand,
    /// `while`.
    KwWhile,
    /// `wire`.
    KwWire,
    /// `wor`.
    KwWor,
}
