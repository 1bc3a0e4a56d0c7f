ghost use Rattle.std.specs.Prelude.{◌≡◌, map};
ghost use Rattle.sve_bytes.specs.Keywords.{keywords_from, is_among, is_keyword_text};

/// One keyword.
#[derive(Clone, Copy)]
pub struct Keyword {
    /// Its bytes, lower-case letters, digits and `_`.
    pub text: &'static [u8],
}

static A_WORDS: [Keyword; 11] = [
    Keyword { text: b"accept_on" },
    Keyword { text: b"alias" },
    Keyword { text: b"always" },
    Keyword {
        text: b"always_comb",
    },
    Keyword { text: b"always_ff" },
    Keyword {
        text: b"always_latch",
    },
    Keyword { text: b"and" },
    Keyword { text: b"assert" },
    Keyword { text: b"assign" },
    Keyword { text: b"assume" },
    Keyword { text: b"automatic" },
];

static B_WORDS: [Keyword; 11] = [
    Keyword { text: b"before" },
    Keyword { text: b"begin" },
    Keyword { text: b"bind" },
    Keyword { text: b"bins" },
    Keyword { text: b"binsof" },
    Keyword { text: b"bit" },
    Keyword { text: b"break" },
    Keyword { text: b"buf" },
    Keyword { text: b"bufif0" },
    Keyword { text: b"bufif1" },
    Keyword { text: b"byte" },
];

static C_WORDS: [Keyword; 18] = [
    Keyword { text: b"case" },
    Keyword { text: b"casex" },
    Keyword { text: b"casez" },
    Keyword { text: b"cell" },
    Keyword { text: b"chandle" },
    Keyword { text: b"checker" },
    Keyword { text: b"class" },
    Keyword { text: b"clocking" },
    Keyword { text: b"cmos" },
    Keyword { text: b"config" },
    Keyword { text: b"const" },
    Keyword {
        text: b"constraint",
    },
    Keyword { text: b"context" },
    Keyword { text: b"continue" },
    Keyword { text: b"cover" },
    Keyword {
        text: b"covergroup",
    },
    Keyword {
        text: b"coverpoint",
    },
    Keyword { text: b"cross" },
];

static D_WORDS: [Keyword; 7] = [
    Keyword { text: b"deassign" },
    Keyword { text: b"default" },
    Keyword { text: b"defparam" },
    Keyword { text: b"design" },
    Keyword { text: b"disable" },
    Keyword { text: b"dist" },
    Keyword { text: b"do" },
];

static E_WORDS: [Keyword; 28] = [
    Keyword { text: b"edge" },
    Keyword { text: b"else" },
    Keyword { text: b"end" },
    Keyword { text: b"endcase" },
    Keyword {
        text: b"endchecker",
    },
    Keyword { text: b"endclass" },
    Keyword {
        text: b"endclocking",
    },
    Keyword { text: b"endconfig" },
    Keyword {
        text: b"endfunction",
    },
    Keyword {
        text: b"endgenerate",
    },
    Keyword { text: b"endgroup" },
    Keyword {
        text: b"endinterface",
    },
    Keyword { text: b"endmodule" },
    Keyword {
        text: b"endpackage",
    },
    Keyword {
        text: b"endprimitive",
    },
    Keyword {
        text: b"endprogram",
    },
    Keyword {
        text: b"endproperty",
    },
    Keyword {
        text: b"endsequence",
    },
    Keyword {
        text: b"endspecify",
    },
    Keyword { text: b"endtable" },
    Keyword { text: b"endtask" },
    Keyword { text: b"enum" },
    Keyword { text: b"event" },
    Keyword {
        text: b"eventually",
    },
    Keyword { text: b"expect" },
    Keyword { text: b"export" },
    Keyword { text: b"extends" },
    Keyword { text: b"extern" },
];

static F_WORDS: [Keyword; 9] = [
    Keyword { text: b"final" },
    Keyword {
        text: b"first_match",
    },
    Keyword { text: b"for" },
    Keyword { text: b"force" },
    Keyword { text: b"foreach" },
    Keyword { text: b"forever" },
    Keyword { text: b"fork" },
    Keyword { text: b"forkjoin" },
    Keyword { text: b"function" },
];

static G_WORDS: [Keyword; 3] = [
    Keyword { text: b"generate" },
    Keyword { text: b"genvar" },
    Keyword { text: b"global" },
];

static H_WORDS: [Keyword; 2] = [Keyword { text: b"highz0" }, Keyword { text: b"highz1" }];

static I_WORDS: [Keyword; 20] = [
    Keyword { text: b"if" },
    Keyword { text: b"iff" },
    Keyword { text: b"ifnone" },
    Keyword {
        text: b"ignore_bins",
    },
    Keyword {
        text: b"illegal_bins",
    },
    Keyword {
        text: b"implements",
    },
    Keyword { text: b"implies" },
    Keyword { text: b"import" },
    Keyword { text: b"incdir" },
    Keyword { text: b"include" },
    Keyword { text: b"initial" },
    Keyword { text: b"inout" },
    Keyword { text: b"input" },
    Keyword { text: b"inside" },
    Keyword { text: b"instance" },
    Keyword { text: b"int" },
    Keyword { text: b"integer" },
    Keyword {
        text: b"interconnect",
    },
    Keyword { text: b"interface" },
    Keyword { text: b"intersect" },
];

static J_WORDS: [Keyword; 3] = [
    Keyword { text: b"join" },
    Keyword { text: b"join_any" },
    Keyword { text: b"join_none" },
];

static L_WORDS: [Keyword; 8] = [
    Keyword { text: b"large" },
    Keyword { text: b"let" },
    Keyword { text: b"liblist" },
    Keyword { text: b"library" },
    Keyword { text: b"local" },
    Keyword {
        text: b"localparam",
    },
    Keyword { text: b"logic" },
    Keyword { text: b"longint" },
];

static M_WORDS: [Keyword; 5] = [
    Keyword {
        text: b"macromodule",
    },
    Keyword { text: b"matches" },
    Keyword { text: b"medium" },
    Keyword { text: b"modport" },
    Keyword { text: b"module" },
];

static N_WORDS: [Keyword; 12] = [
    Keyword { text: b"nand" },
    Keyword { text: b"negedge" },
    Keyword { text: b"nettype" },
    Keyword { text: b"new" },
    Keyword { text: b"nexttime" },
    Keyword { text: b"nmos" },
    Keyword { text: b"nor" },
    Keyword {
        text: b"noshowcancelled",
    },
    Keyword { text: b"not" },
    Keyword { text: b"notif0" },
    Keyword { text: b"notif1" },
    Keyword { text: b"null" },
];

static O_WORDS: [Keyword; 2] = [Keyword { text: b"or" }, Keyword { text: b"output" }];

static P_WORDS: [Keyword; 17] = [
    Keyword { text: b"package" },
    Keyword { text: b"packed" },
    Keyword { text: b"parameter" },
    Keyword { text: b"pmos" },
    Keyword { text: b"posedge" },
    Keyword { text: b"primitive" },
    Keyword { text: b"priority" },
    Keyword { text: b"program" },
    Keyword { text: b"property" },
    Keyword { text: b"protected" },
    Keyword { text: b"pull0" },
    Keyword { text: b"pull1" },
    Keyword { text: b"pulldown" },
    Keyword { text: b"pullup" },
    Keyword {
        text: b"pulsestyle_ondetect",
    },
    Keyword {
        text: b"pulsestyle_onevent",
    },
    Keyword { text: b"pure" },
];

static R_WORDS: [Keyword; 19] = [
    Keyword { text: b"rand" },
    Keyword { text: b"randc" },
    Keyword { text: b"randcase" },
    Keyword {
        text: b"randsequence",
    },
    Keyword { text: b"rcmos" },
    Keyword { text: b"real" },
    Keyword { text: b"realtime" },
    Keyword { text: b"ref" },
    Keyword { text: b"reg" },
    Keyword { text: b"reject_on" },
    Keyword { text: b"release" },
    Keyword { text: b"repeat" },
    Keyword { text: b"restrict" },
    Keyword { text: b"return" },
    Keyword { text: b"rnmos" },
    Keyword { text: b"rpmos" },
    Keyword { text: b"rtran" },
    Keyword { text: b"rtranif0" },
    Keyword { text: b"rtranif1" },
];

static S_WORDS: [Keyword; 27] = [
    Keyword { text: b"s_always" },
    Keyword {
        text: b"s_eventually",
    },
    Keyword {
        text: b"s_nexttime",
    },
    Keyword { text: b"s_until" },
    Keyword {
        text: b"s_until_with",
    },
    Keyword { text: b"scalared" },
    Keyword { text: b"sequence" },
    Keyword { text: b"shortint" },
    Keyword { text: b"shortreal" },
    Keyword {
        text: b"showcancelled",
    },
    Keyword { text: b"signed" },
    Keyword { text: b"small" },
    Keyword { text: b"soft" },
    Keyword { text: b"solve" },
    Keyword { text: b"specify" },
    Keyword { text: b"specparam" },
    Keyword { text: b"static" },
    Keyword { text: b"string" },
    Keyword { text: b"strong" },
    Keyword { text: b"strong0" },
    Keyword { text: b"strong1" },
    Keyword { text: b"struct" },
    Keyword { text: b"super" },
    Keyword { text: b"supply0" },
    Keyword { text: b"supply1" },
    Keyword {
        text: b"sync_accept_on",
    },
    Keyword {
        text: b"sync_reject_on",
    },
];

static T_WORDS: [Keyword; 19] = [
    Keyword { text: b"table" },
    Keyword { text: b"tagged" },
    Keyword { text: b"task" },
    Keyword { text: b"this" },
    Keyword {
        text: b"throughout",
    },
    Keyword { text: b"time" },
    Keyword {
        text: b"timeprecision",
    },
    Keyword { text: b"timeunit" },
    Keyword { text: b"tran" },
    Keyword { text: b"tranif0" },
    Keyword { text: b"tranif1" },
    Keyword { text: b"tri" },
    Keyword { text: b"tri0" },
    Keyword { text: b"tri1" },
    Keyword { text: b"triand" },
    Keyword { text: b"trior" },
    Keyword { text: b"trireg" },
    Keyword { text: b"type" },
    Keyword { text: b"typedef" },
];

static U_WORDS: [Keyword; 9] = [
    Keyword { text: b"union" },
    Keyword { text: b"unique" },
    Keyword { text: b"unique0" },
    Keyword { text: b"unsigned" },
    Keyword { text: b"until" },
    Keyword {
        text: b"until_with",
    },
    Keyword { text: b"untyped" },
    Keyword { text: b"use" },
    Keyword { text: b"uwire" },
];

static V_WORDS: [Keyword; 4] = [
    Keyword { text: b"var" },
    Keyword { text: b"vectored" },
    Keyword { text: b"virtual" },
    Keyword { text: b"void" },
];

static W_WORDS: [Keyword; 12] = [
    Keyword { text: b"wait" },
    Keyword {
        text: b"wait_order",
    },
    Keyword { text: b"wand" },
    Keyword { text: b"weak" },
    Keyword { text: b"weak0" },
    Keyword { text: b"weak1" },
    Keyword { text: b"while" },
    Keyword { text: b"wildcard" },
    Keyword { text: b"wire" },
    Keyword { text: b"with" },
    Keyword { text: b"within" },
    Keyword { text: b"wor" },
];

static X_WORDS: [Keyword; 2] = [Keyword { text: b"xnor" }, Keyword { text: b"xor" }];

/// The keywords that begin with this letter, in byte order (IEEE 1800-2017, Annex B).
#[tactic(auto, unfolding(crate::specs::Keywords::keywords_from))]
pub fn keywords_from(first: u8) -> &'static [Keyword]
    ensures { map (λ w. w.text.now) result.now ≡ keywords_from first }
{
    match first {
        b'a' => &A_WORDS,
        b'b' => &B_WORDS,
        b'c' => &C_WORDS,
        b'd' => &D_WORDS,
        b'e' => &E_WORDS,
        b'f' => &F_WORDS,
        b'g' => &G_WORDS,
        b'h' => &H_WORDS,
        b'i' => &I_WORDS,
        b'j' => &J_WORDS,
        b'l' => &L_WORDS,
        b'm' => &M_WORDS,
        b'n' => &N_WORDS,
        b'o' => &O_WORDS,
        b'p' => &P_WORDS,
        b'r' => &R_WORDS,
        b's' => &S_WORDS,
        b't' => &T_WORDS,
        b'u' => &U_WORDS,
        b'v' => &V_WORDS,
        b'w' => &W_WORDS,
        b'x' => &X_WORDS,
        _ => &[],
    }
}

fn is_among(words: &[Keyword], text: &[u8]) -> bool
    ensures { result ≡ is_among (map (λ w. w.text.now) words.now) text.now }
{
    for word in words {
        if word.text == text {
            return true;
        }
    }
    false
}

/// Whether these bytes are a keyword of SystemVerilog (IEEE 1800-2017, Annex B).
pub fn is_keyword(text: &[u8]) -> bool
    ensures { result ≡ is_keyword_text text.now }
{
    match text.first() {
        Some(first) => is_among(keywords_from(*first), text),
        None => false,
    }
}
