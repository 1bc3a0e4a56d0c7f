ghost use Rattle.std.specs.Prelude.{◌≡◌, map};
ghost use Rattle.sve_bytes.specs.Keywords.{keywords_from};
ghost use Rattle.sve_token.specs.WordText.{word_text};
ghost use Rattle.sve_token.specs.Keywords.{kinds_at};

use crate::{Keyword, Kind, Reserved};

static A_KINDS: [Kind; 11] = [
    Kind::Reserved(Reserved::KwAcceptOn),
    Kind::Reserved(Reserved::KwAlias),
    Kind::Keyword(Keyword::KwAlways),
    Kind::Keyword(Keyword::KwAlwaysComb),
    Kind::Keyword(Keyword::KwAlwaysFf),
    Kind::Keyword(Keyword::KwAlwaysLatch),
    Kind::Reserved(Reserved::KwAnd),
    Kind::Reserved(Reserved::KwAssert),
    Kind::Keyword(Keyword::KwAssign),
    Kind::Reserved(Reserved::KwAssume),
    Kind::Keyword(Keyword::KwAutomatic),
];

static B_KINDS: [Kind; 11] = [
    Kind::Reserved(Reserved::KwBefore),
    Kind::Keyword(Keyword::KwBegin),
    Kind::Reserved(Reserved::KwBind),
    Kind::Reserved(Reserved::KwBins),
    Kind::Reserved(Reserved::KwBinsof),
    Kind::Keyword(Keyword::KwBit),
    Kind::Keyword(Keyword::KwBreak),
    Kind::Reserved(Reserved::KwBuf),
    Kind::Reserved(Reserved::KwBufif0),
    Kind::Reserved(Reserved::KwBufif1),
    Kind::Keyword(Keyword::KwByte),
];

static C_KINDS: [Kind; 18] = [
    Kind::Keyword(Keyword::KwCase),
    Kind::Keyword(Keyword::KwCasex),
    Kind::Keyword(Keyword::KwCasez),
    Kind::Reserved(Reserved::KwCell),
    Kind::Reserved(Reserved::KwChandle),
    Kind::Reserved(Reserved::KwChecker),
    Kind::Reserved(Reserved::KwClass),
    Kind::Reserved(Reserved::KwClocking),
    Kind::Reserved(Reserved::KwCmos),
    Kind::Reserved(Reserved::KwConfig),
    Kind::Reserved(Reserved::KwConst),
    Kind::Reserved(Reserved::KwConstraint),
    Kind::Reserved(Reserved::KwContext),
    Kind::Keyword(Keyword::KwContinue),
    Kind::Reserved(Reserved::KwCover),
    Kind::Reserved(Reserved::KwCovergroup),
    Kind::Reserved(Reserved::KwCoverpoint),
    Kind::Reserved(Reserved::KwCross),
];

static D_KINDS: [Kind; 7] = [
    Kind::Reserved(Reserved::KwDeassign),
    Kind::Keyword(Keyword::KwDefault),
    Kind::Reserved(Reserved::KwDefparam),
    Kind::Reserved(Reserved::KwDesign),
    Kind::Reserved(Reserved::KwDisable),
    Kind::Reserved(Reserved::KwDist),
    Kind::Keyword(Keyword::KwDo),
];

static E_KINDS: [Kind; 28] = [
    Kind::Keyword(Keyword::KwEdge),
    Kind::Keyword(Keyword::KwElse),
    Kind::Keyword(Keyword::KwEnd),
    Kind::Keyword(Keyword::KwEndcase),
    Kind::Reserved(Reserved::KwEndchecker),
    Kind::Reserved(Reserved::KwEndclass),
    Kind::Reserved(Reserved::KwEndclocking),
    Kind::Reserved(Reserved::KwEndconfig),
    Kind::Keyword(Keyword::KwEndfunction),
    Kind::Keyword(Keyword::KwEndgenerate),
    Kind::Reserved(Reserved::KwEndgroup),
    Kind::Keyword(Keyword::KwEndinterface),
    Kind::Keyword(Keyword::KwEndmodule),
    Kind::Keyword(Keyword::KwEndpackage),
    Kind::Reserved(Reserved::KwEndprimitive),
    Kind::Reserved(Reserved::KwEndprogram),
    Kind::Reserved(Reserved::KwEndproperty),
    Kind::Reserved(Reserved::KwEndsequence),
    Kind::Reserved(Reserved::KwEndspecify),
    Kind::Reserved(Reserved::KwEndtable),
    Kind::Reserved(Reserved::KwEndtask),
    Kind::Keyword(Keyword::KwEnum),
    Kind::Reserved(Reserved::KwEvent),
    Kind::Reserved(Reserved::KwEventually),
    Kind::Reserved(Reserved::KwExpect),
    Kind::Reserved(Reserved::KwExport),
    Kind::Reserved(Reserved::KwExtends),
    Kind::Reserved(Reserved::KwExtern),
];

static F_KINDS: [Kind; 9] = [
    Kind::Reserved(Reserved::KwFinal),
    Kind::Reserved(Reserved::KwFirstMatch),
    Kind::Keyword(Keyword::KwFor),
    Kind::Reserved(Reserved::KwForce),
    Kind::Keyword(Keyword::KwForeach),
    Kind::Reserved(Reserved::KwForever),
    Kind::Reserved(Reserved::KwFork),
    Kind::Reserved(Reserved::KwForkjoin),
    Kind::Keyword(Keyword::KwFunction),
];

static G_KINDS: [Kind; 3] = [
    Kind::Keyword(Keyword::KwGenerate),
    Kind::Keyword(Keyword::KwGenvar),
    Kind::Reserved(Reserved::KwGlobal),
];

static H_KINDS: [Kind; 2] = [
    Kind::Reserved(Reserved::KwHighz0),
    Kind::Reserved(Reserved::KwHighz1),
];

static I_KINDS: [Kind; 20] = [
    Kind::Keyword(Keyword::KwIf),
    Kind::Reserved(Reserved::KwIff),
    Kind::Reserved(Reserved::KwIfnone),
    Kind::Reserved(Reserved::KwIgnoreBins),
    Kind::Reserved(Reserved::KwIllegalBins),
    Kind::Reserved(Reserved::KwImplements),
    Kind::Reserved(Reserved::KwImplies),
    Kind::Keyword(Keyword::KwImport),
    Kind::Reserved(Reserved::KwIncdir),
    Kind::Reserved(Reserved::KwInclude),
    Kind::Keyword(Keyword::KwInitial),
    Kind::Keyword(Keyword::KwInout),
    Kind::Keyword(Keyword::KwInput),
    Kind::Keyword(Keyword::KwInside),
    Kind::Reserved(Reserved::KwInstance),
    Kind::Keyword(Keyword::KwInt),
    Kind::Keyword(Keyword::KwInteger),
    Kind::Reserved(Reserved::KwInterconnect),
    Kind::Keyword(Keyword::KwInterface),
    Kind::Reserved(Reserved::KwIntersect),
];

static J_KINDS: [Kind; 3] = [
    Kind::Reserved(Reserved::KwJoin),
    Kind::Reserved(Reserved::KwJoinAny),
    Kind::Reserved(Reserved::KwJoinNone),
];

static L_KINDS: [Kind; 8] = [
    Kind::Reserved(Reserved::KwLarge),
    Kind::Reserved(Reserved::KwLet),
    Kind::Reserved(Reserved::KwLiblist),
    Kind::Reserved(Reserved::KwLibrary),
    Kind::Reserved(Reserved::KwLocal),
    Kind::Keyword(Keyword::KwLocalparam),
    Kind::Keyword(Keyword::KwLogic),
    Kind::Keyword(Keyword::KwLongint),
];

static M_KINDS: [Kind; 5] = [
    Kind::Keyword(Keyword::KwMacromodule),
    Kind::Reserved(Reserved::KwMatches),
    Kind::Reserved(Reserved::KwMedium),
    Kind::Keyword(Keyword::KwModport),
    Kind::Keyword(Keyword::KwModule),
];

static N_KINDS: [Kind; 12] = [
    Kind::Reserved(Reserved::KwNand),
    Kind::Keyword(Keyword::KwNegedge),
    Kind::Reserved(Reserved::KwNettype),
    Kind::Reserved(Reserved::KwNew),
    Kind::Reserved(Reserved::KwNexttime),
    Kind::Reserved(Reserved::KwNmos),
    Kind::Reserved(Reserved::KwNor),
    Kind::Reserved(Reserved::KwNoshowcancelled),
    Kind::Reserved(Reserved::KwNot),
    Kind::Reserved(Reserved::KwNotif0),
    Kind::Reserved(Reserved::KwNotif1),
    Kind::Reserved(Reserved::KwNull),
];

static O_KINDS: [Kind; 2] = [
    Kind::Keyword(Keyword::KwOr),
    Kind::Keyword(Keyword::KwOutput),
];

static P_KINDS: [Kind; 17] = [
    Kind::Keyword(Keyword::KwPackage),
    Kind::Keyword(Keyword::KwPacked),
    Kind::Keyword(Keyword::KwParameter),
    Kind::Reserved(Reserved::KwPmos),
    Kind::Keyword(Keyword::KwPosedge),
    Kind::Reserved(Reserved::KwPrimitive),
    Kind::Keyword(Keyword::KwPriority),
    Kind::Reserved(Reserved::KwProgram),
    Kind::Reserved(Reserved::KwProperty),
    Kind::Reserved(Reserved::KwProtected),
    Kind::Reserved(Reserved::KwPull0),
    Kind::Reserved(Reserved::KwPull1),
    Kind::Reserved(Reserved::KwPulldown),
    Kind::Reserved(Reserved::KwPullup),
    Kind::Reserved(Reserved::KwPulsestyleOndetect),
    Kind::Reserved(Reserved::KwPulsestyleOnevent),
    Kind::Reserved(Reserved::KwPure),
];

static R_KINDS: [Kind; 19] = [
    Kind::Reserved(Reserved::KwRand),
    Kind::Reserved(Reserved::KwRandc),
    Kind::Reserved(Reserved::KwRandcase),
    Kind::Reserved(Reserved::KwRandsequence),
    Kind::Reserved(Reserved::KwRcmos),
    Kind::Reserved(Reserved::KwReal),
    Kind::Reserved(Reserved::KwRealtime),
    Kind::Keyword(Keyword::KwRef),
    Kind::Keyword(Keyword::KwReg),
    Kind::Reserved(Reserved::KwRejectOn),
    Kind::Reserved(Reserved::KwRelease),
    Kind::Keyword(Keyword::KwRepeat),
    Kind::Reserved(Reserved::KwRestrict),
    Kind::Keyword(Keyword::KwReturn),
    Kind::Reserved(Reserved::KwRnmos),
    Kind::Reserved(Reserved::KwRpmos),
    Kind::Reserved(Reserved::KwRtran),
    Kind::Reserved(Reserved::KwRtranif0),
    Kind::Reserved(Reserved::KwRtranif1),
];

static S_KINDS: [Kind; 27] = [
    Kind::Reserved(Reserved::KwSAlways),
    Kind::Reserved(Reserved::KwSEventually),
    Kind::Reserved(Reserved::KwSNexttime),
    Kind::Reserved(Reserved::KwSUntil),
    Kind::Reserved(Reserved::KwSUntilWith),
    Kind::Reserved(Reserved::KwScalared),
    Kind::Reserved(Reserved::KwSequence),
    Kind::Keyword(Keyword::KwShortint),
    Kind::Reserved(Reserved::KwShortreal),
    Kind::Reserved(Reserved::KwShowcancelled),
    Kind::Keyword(Keyword::KwSigned),
    Kind::Reserved(Reserved::KwSmall),
    Kind::Reserved(Reserved::KwSoft),
    Kind::Reserved(Reserved::KwSolve),
    Kind::Reserved(Reserved::KwSpecify),
    Kind::Reserved(Reserved::KwSpecparam),
    Kind::Keyword(Keyword::KwStatic),
    Kind::Keyword(Keyword::KwString),
    Kind::Reserved(Reserved::KwStrong),
    Kind::Reserved(Reserved::KwStrong0),
    Kind::Reserved(Reserved::KwStrong1),
    Kind::Keyword(Keyword::KwStruct),
    Kind::Reserved(Reserved::KwSuper),
    Kind::Keyword(Keyword::KwSupply0),
    Kind::Keyword(Keyword::KwSupply1),
    Kind::Reserved(Reserved::KwSyncAcceptOn),
    Kind::Reserved(Reserved::KwSyncRejectOn),
];

static T_KINDS: [Kind; 19] = [
    Kind::Reserved(Reserved::KwTable),
    Kind::Reserved(Reserved::KwTagged),
    Kind::Reserved(Reserved::KwTask),
    Kind::Reserved(Reserved::KwThis),
    Kind::Reserved(Reserved::KwThroughout),
    Kind::Keyword(Keyword::KwTime),
    Kind::Reserved(Reserved::KwTimeprecision),
    Kind::Reserved(Reserved::KwTimeunit),
    Kind::Reserved(Reserved::KwTran),
    Kind::Reserved(Reserved::KwTranif0),
    Kind::Reserved(Reserved::KwTranif1),
    Kind::Keyword(Keyword::KwTri),
    Kind::Keyword(Keyword::KwTri0),
    Kind::Keyword(Keyword::KwTri1),
    Kind::Keyword(Keyword::KwTriand),
    Kind::Keyword(Keyword::KwTrior),
    Kind::Reserved(Reserved::KwTrireg),
    Kind::Reserved(Reserved::KwType),
    Kind::Keyword(Keyword::KwTypedef),
];

static U_KINDS: [Kind; 9] = [
    Kind::Reserved(Reserved::KwUnion),
    Kind::Keyword(Keyword::KwUnique),
    Kind::Keyword(Keyword::KwUnique0),
    Kind::Keyword(Keyword::KwUnsigned),
    Kind::Reserved(Reserved::KwUntil),
    Kind::Reserved(Reserved::KwUntilWith),
    Kind::Reserved(Reserved::KwUntyped),
    Kind::Reserved(Reserved::KwUse),
    Kind::Keyword(Keyword::KwUwire),
];

static V_KINDS: [Kind; 4] = [
    Kind::Keyword(Keyword::KwVar),
    Kind::Reserved(Reserved::KwVectored),
    Kind::Reserved(Reserved::KwVirtual),
    Kind::Keyword(Keyword::KwVoid),
];

static W_KINDS: [Kind; 12] = [
    Kind::Reserved(Reserved::KwWait),
    Kind::Reserved(Reserved::KwWaitOrder),
    Kind::Keyword(Keyword::KwWand),
    Kind::Reserved(Reserved::KwWeak),
    Kind::Reserved(Reserved::KwWeak0),
    Kind::Reserved(Reserved::KwWeak1),
    Kind::Keyword(Keyword::KwWhile),
    Kind::Reserved(Reserved::KwWildcard),
    Kind::Keyword(Keyword::KwWire),
    Kind::Reserved(Reserved::KwWith),
    Kind::Reserved(Reserved::KwWithin),
    Kind::Keyword(Keyword::KwWor),
];

static X_KINDS: [Kind; 2] = [
    Kind::Reserved(Reserved::KwXnor),
    Kind::Reserved(Reserved::KwXor),
];

/// The kinds of the keywords that begin with this letter, in byte order, so that each stands where its word does in the table of
/// words (IEEE 1800-2017, Annex B).
#[tactic(auto, unfolding(crate::specs::Keywords::kinds_at, crate::specs::WordText::keyword_text, crate::specs::WordText::reserved_text, sve_bytes::specs::Keywords::keywords_from))]
pub fn kinds_at(first: u8) -> &'static [Kind]
    ensures table { result.now ≡ kinds_at first }
    ensures words { map word_text result.now ≡ keywords_from first }
{
    match first {
        b'a' => &A_KINDS,
        b'b' => &B_KINDS,
        b'c' => &C_KINDS,
        b'd' => &D_KINDS,
        b'e' => &E_KINDS,
        b'f' => &F_KINDS,
        b'g' => &G_KINDS,
        b'h' => &H_KINDS,
        b'i' => &I_KINDS,
        b'j' => &J_KINDS,
        b'l' => &L_KINDS,
        b'm' => &M_KINDS,
        b'n' => &N_KINDS,
        b'o' => &O_KINDS,
        b'p' => &P_KINDS,
        b'r' => &R_KINDS,
        b's' => &S_KINDS,
        b't' => &T_KINDS,
        b'u' => &U_KINDS,
        b'v' => &V_KINDS,
        b'w' => &W_KINDS,
        b'x' => &X_KINDS,
        _ => &[],
    }
}
