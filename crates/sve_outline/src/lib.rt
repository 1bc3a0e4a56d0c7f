//! What the trees of a chunk say, and that nothing of it is lost where they are seen as readings of the grammar: parsers
//! whose contracts speak of what they return as a reading leave no choice of its variants and of its tokens.
#![tactic(auto)]

ghost use Rattle.std.specs.Global.{Box};
ghost use Rattle.std.specs.Prelude.{◌≡◌, ℕ, List, Ok};
ghost use Rattle.sve_token.specs.declared.token.Token.{Token};
ghost use Rattle.sve_grammar.specs.Rule.{Rule};
ghost use Rattle.sve_grammar.specs.Reading.{Tree, at_depth};
ghost use Rattle.sve_grammar.specs.Items.{chunk};
ghost use Rattle.sve_tree.specs.TokenWords.{words_of};
ghost use Rattle.sve_tree.specs.declared.element.Element.{Element};
ghost use Rattle.sve_tree.specs.Expressions.{tree_at, argument_list_tree, arg_tree, dimension_tree, range_tree, select_tree, pattern_tree};
ghost use Rattle.sve_tree.specs.Types.{data_type_tree, named_type_tree, type_ref_tree, declarator_tree, initializer_tree, typed_name_tree};
ghost use Rattle.sve_tree.specs.Declarations.{decl_tree, parameters_tree, typedef_tree, import_tree, modport_tree, net_declaration_tree, variable_declaration_tree, header_tree};
ghost use Rattle.sve_tree.specs.Statements.{left_side_tree, stmt_tree, block_item_tree, func_tree};
ghost use Rattle.sve_tree.specs.Items.{item_tree};
ghost use Rattle.sve_tree.specs.Elements.{unit_item_tree, design_tree, element_tree};
ghost use Rattle.sve_tree.specs.declared.expression.Expr.{Expr};
ghost use Rattle.sve_tree.specs.declared.expression.Expr.TheVariants.{Decimal, Unary};
ghost use Rattle.sve_tree.specs.declared.expression.Arg.TheVariants.{Named};
ghost use Rattle.sve_tree.specs.declared.declaration.ImportItem.TheVariants.{All};
ghost use Rattle.sve_tree.specs.declared.word.Mark.{Mark};
ghost use Rattle.sve_tree.specs.declared.word.PackageScope.{PackageScope};
ghost use Rattle.sve_tree.specs.declared.word.UnaryOperator.{UnaryOperator};
ghost use Rattle.sve_tree.specs.declared.word.UnaryOperator.TheVariants.{Minus};
ghost use Rattle.sve_outline.specs.Outline.{token_at, variant, ◌◂◌, IsWhole, IsKept};
ghost use Rattle.sve_outline.specs.Expressions.{expr_outline, argument_list_outline, arg_outline, dimension_outline, range_outline, select_outline, pattern_outline};
ghost use Rattle.sve_outline.specs.Types.{data_type_outline, named_type_outline, type_ref_outline, declarator_outline, initializer_outline, typed_name_outline};
ghost use Rattle.sve_outline.specs.Declarations.{import_item_outline, decl_outline, parameters_outline, typedef_outline, import_outline, modport_outline, net_declaration_outline, variable_declaration_outline, header_outline};
ghost use Rattle.sve_outline.specs.Statements.{left_side_outline, stmt_outline, block_item_outline, func_outline};
ghost use Rattle.sve_outline.specs.Items.{item_outline};
ghost use Rattle.sve_outline.specs.Elements.{unit_item_outline, design_outline, element_outline};

/// The tree of a reading is whole, for every rule, at every depth and from any place: behind each turn of a repetition
/// stands its next turn or its end.
#[tactic(auto, using(crate::proofs::Whole::whole))]
pub fn readings_are_whole()
    ensures { (ts : List Token) (d : ℕ) (r : Rule) (i : ℕ) (t : Tree) (j : ℕ) → at_depth ts d r i ≡ Ok (t, j) → IsWhole t }
{}

/// Nothing is lost where expressions and their parts are seen as trees, an expression at any level of its operators
/// (IEEE 1800-2017, A.8 and A.2.5).
#[tactic(auto, using(crate::proofs::Laws::expr_kept, crate::proofs::Laws::argument_list_kept, crate::proofs::Laws::arg_kept, crate::proofs::Laws::dimension_kept, crate::proofs::Laws::range_kept, crate::proofs::Laws::select_kept, crate::proofs::Laws::pattern_kept))]
pub fn expressions_are_kept()
    ensures expression { (level : ℕ) → IsKept (tree_at level) expr_outline }
    ensures argument_list { IsKept argument_list_tree argument_list_outline }
    ensures argument { IsKept arg_tree arg_outline }
    ensures dimension { IsKept dimension_tree dimension_outline }
    ensures range { IsKept range_tree range_outline }
    ensures select { IsKept select_tree select_outline }
    ensures pattern { IsKept pattern_tree pattern_outline }
{}

/// Nothing is lost where types, and names with their types, are seen as trees (IEEE 1800-2017, A.2.2.1 and A.2.5).
#[tactic(auto, using(crate::proofs::Laws::data_type_kept, crate::proofs::Laws::named_type_kept, crate::proofs::Laws::type_ref_kept, crate::proofs::Laws::declarator_kept, crate::proofs::Laws::initializer_kept, crate::proofs::Laws::typed_name_kept))]
pub fn types_are_kept()
    ensures data_type { IsKept data_type_tree data_type_outline }
    ensures named_type { IsKept named_type_tree named_type_outline }
    ensures type_reference { IsKept type_ref_tree type_ref_outline }
    ensures declarator { IsKept declarator_tree declarator_outline }
    ensures initializer { IsKept initializer_tree initializer_outline }
    ensures typed_name { IsKept typed_name_tree typed_name_outline }
{}

/// Nothing is lost where declarations and headers are seen as trees (IEEE 1800-2017, A.1.2, A.1.3, A.2.1 and A.2.9).
#[tactic(auto, using(crate::proofs::Laws::decl_kept, crate::proofs::Laws::parameters_kept, crate::proofs::Laws::typedef_kept, crate::proofs::Laws::import_kept, crate::proofs::Laws::modport_kept, crate::proofs::Laws::net_declaration_kept, crate::proofs::Laws::variable_declaration_kept, crate::proofs::Laws::header_kept))]
pub fn declarations_are_kept()
    ensures declaration { IsKept decl_tree decl_outline }
    ensures parameters { IsKept parameters_tree parameters_outline }
    ensures typedef { IsKept typedef_tree typedef_outline }
    ensures import_declaration { IsKept import_tree import_outline }
    ensures modport { IsKept modport_tree modport_outline }
    ensures net_declaration { IsKept net_declaration_tree net_declaration_outline }
    ensures variable_declaration { IsKept variable_declaration_tree variable_declaration_outline }
    ensures header { IsKept header_tree header_outline }
{}

/// Nothing is lost where statements and functions are seen as trees (IEEE 1800-2017, A.6, A.2.6 and A.2.8).
#[tactic(auto, using(crate::proofs::Laws::left_side_kept, crate::proofs::Laws::stmt_kept, crate::proofs::Laws::block_item_kept, crate::proofs::Laws::func_kept))]
pub fn statements_are_kept()
    ensures left_side { IsKept left_side_tree left_side_outline }
    ensures statement { IsKept stmt_tree stmt_outline }
    ensures block_item { IsKept block_item_tree block_item_outline }
    ensures function { IsKept func_tree func_outline }
{}

/// Nothing is lost where an item of a module or an interface is seen as a tree (IEEE 1800-2017, A.1.4, A.4 and A.6.1).
#[tactic(auto, using(crate::proofs::Laws::item_kept))]
pub fn items_are_kept()
    ensures { IsKept item_tree item_outline }
{}

/// Nothing is lost where a chunk and its parts are seen as trees (IEEE 1800-2017, A.1.2 and A.1.11).
#[tactic(auto, using(crate::proofs::Laws::unit_item_kept, crate::proofs::Laws::design_kept, crate::proofs::Laws::element_kept))]
pub fn elements_are_kept()
    ensures unit_item { IsKept unit_item_tree unit_item_outline }
    ensures design { IsKept design_tree design_outline }
    ensures element { IsKept element_tree element_outline }
{}

/// Two chunks whose tokens have the same words, wherever they stand, have trees that say the same: so a kept element serves for
/// each chunk with its words.
#[tactic(auto, using(crate::proofs::ElementWords::decided))]
pub fn words_decide()
    ensures { (ts us : List Token) (x y : Element) (j k : ℕ) → words_of ts ≡ words_of us → at_depth ts 0 chunk 0 ≡ Ok (element_tree x, j) → at_depth us 0 chunk 0 ≡ Ok (element_tree y, k) → element_outline x ≡ element_outline y }
{}

/// What three small trees say, worked by hand: `- 8`, `. width ( 8 )` and `p :: *`, of tokens from 0 on.
#[tactic(auto, using(crate::proofs::Rows::negated, crate::proofs::Rows::connected, crate::proofs::Rows::imported))]
pub fn small_outlines_are_as_worked()
    ensures negated { (operator : Mark UnaryOperator) (operand : Box Expr) → operator.kind ≡ Minus → operator.token ≡ 0 → operand.value ≡ Decimal 1 → expr_outline (Unary operator operand) ≡ (variant 17 ◂ (variant 1 ◂ token_at 0) ◂ variant 0 ◂ token_at 1) }
    ensures connected { (value : Box Expr) → value.value ≡ Decimal 3 → arg_outline (Named 0 1 2 value 4) ≡ (variant 3 ◂ token_at 0 ◂ token_at 1 ◂ token_at 2 ◂ (variant 0 ◂ token_at 3) ◂ token_at 4) }
    ensures imported { (scope : PackageScope) → scope.name ≡ 0 → scope.colons ≡ 1 → import_item_outline (All scope 2) ≡ (variant 1 ◂ token_at 0 ◂ token_at 1 ◂ token_at 2) }
{}
