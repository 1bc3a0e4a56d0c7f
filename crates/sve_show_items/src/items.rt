//! Items of modules and interfaces as text: a block of a generate construct stands in braces.
use crate::functions::write_function;
use crate::procedures::{write_clocked_procedure, write_plain_procedure};
use crate::simple_items::{
    write_assign, write_genvars, write_instances, write_loop_head, write_modports,
};
use crate::simple_statements::write_system_task;
use crate::spelled::write_label;
use crate::statements::{write_default, write_labels};
use crate::variables::{write_data_declaration, write_net_declaration, write_variable_declaration};
use sve_show::{Writer, write_import, write_parameters, write_parenthesized, write_typedef};
use sve_tree::{
    CaseGenerate, CaseGenerateItem, GenerateBlock, GenerateBody, GenerateRegion, IfGenerate, Item,
};

/// Writes an item.
#[cycle(items)]
pub fn write_item(w: &mut Writer<'_>, item: &Item) {
    match item {
        Item::Empty { semicolon } => w.token(*semicolon),
        Item::Import { declaration } => write_import(w, declaration),
        Item::Parameters { declaration } => write_parameters(w, declaration),
        Item::Typedef { declaration } => write_typedef(w, declaration),
        Item::Function { function } => write_function(w, function),
        Item::Genvars { declaration } => write_genvars(w, declaration),
        Item::Net { declaration } => write_net_declaration(w, declaration),
        Item::Variable { declaration } => write_variable_declaration(w, declaration),
        Item::Data { declaration } => write_data_declaration(w, declaration),
        Item::Assign { assignments } => write_assign(w, assignments),
        Item::Clocked { procedure } => write_clocked_procedure(w, procedure),
        Item::Plain { procedure } => write_plain_procedure(w, procedure),
        Item::Region { region } => write_region(w, region),
        Item::LoopGenerate { construct } => {
            write_loop_head(w, construct);
            write_generate_block(w, &construct.block)
        }
        Item::IfGenerate { construct } => write_if_generate(w, construct),
        Item::CaseGenerate { construct } => write_case_generate(w, construct),
        Item::Modports { declaration } => write_modports(w, declaration),
        Item::SystemTask { task } => write_system_task(w, task),
        Item::Instances { instantiation } => write_instances(w, instantiation),
    }
}

#[cycle(items)]
fn write_region(w: &mut Writer<'_>, region: &GenerateRegion) {
    w.spelled(region.keyword, "generate");
    write_items(w, &region.items);
    w.blank();
    w.spelled(region.end, "endgenerate")
}

/// Writes each item behind a blank.
#[cycle(items)]
pub fn write_items(w: &mut Writer<'_>, items: &[Item]) {
    for item in items {
        w.blank();
        write_item(w, item);
    }
}

/// Writes a block of a generate construct, in braces behind a blank.
#[cycle(items)]
fn write_generate_block(w: &mut Writer<'_>, block: &GenerateBlock) {
    w.add(" {");
    match block {
        GenerateBlock::Block { block } => write_generate_body(w, block),
        GenerateBlock::Item { item } => write_item(w, item),
    }
    w.add("}")
}

#[cycle(items)]
fn write_generate_body(w: &mut Writer<'_>, block: &GenerateBody) {
    w.spelled(block.begin, "begin");
    write_label(w, &block.label);
    write_items(w, &block.items);
    w.blank();
    w.spelled(block.end, "end");
    write_label(w, &block.end_label)
}

#[cycle(items)]
fn write_if_generate(w: &mut Writer<'_>, construct: &IfGenerate) {
    w.token_apart(construct.keyword);
    write_parenthesized(w, &construct.condition);
    write_generate_block(w, &construct.chosen);
    if let Some(otherwise) = &construct.otherwise {
        w.blank();
        w.spelled(otherwise.keyword, "else");
        write_generate_block(w, &otherwise.block);
    }
}

#[cycle(items)]
fn write_case_generate(w: &mut Writer<'_>, construct: &CaseGenerate) {
    w.token_apart(construct.keyword);
    write_parenthesized(w, &construct.selector);
    for item in &construct.items {
        w.blank();
        write_case_generate_item(w, item);
    }
    w.blank();
    w.spelled(construct.end, "endcase")
}

#[cycle(items)]
fn write_case_generate_item(w: &mut Writer<'_>, item: &CaseGenerateItem) {
    match item {
        CaseGenerateItem::Default {
            keyword,
            colon,
            block,
        } => {
            write_default(w, *keyword, colon);
            write_generate_block(w, block)
        }
        CaseGenerateItem::Labels {
            labels,
            colon,
            block,
        } => {
            write_labels(w, labels, *colon);
            write_generate_block(w, block)
        }
    }
}
