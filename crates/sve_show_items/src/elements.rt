//! Elements as text.
use crate::functions::write_function;
use crate::items::write_items;
use crate::spelled::{write_label, write_module_keyword};
use sve_show::{Writer, write_header, write_import, write_parameters, write_typedef};
use sve_tree::{Definition, Design, Element, Package, UnitItem};

/// Writes an element.
pub fn write_element(w: &mut Writer<'_>, element: &Element) {
    let mut is_first = true;
    for item in &element.items {
        if !is_first {
            w.blank();
        }
        is_first = false;
        write_unit_item(w, item);
    }
    if let Some(design) = &element.design {
        if !is_first {
            w.blank();
        }
        write_design(w, design);
    }
}

fn write_unit_item(w: &mut Writer<'_>, item: &UnitItem) {
    match item {
        UnitItem::Empty { semicolon } => w.token(*semicolon),
        UnitItem::Import { declaration } => write_import(w, declaration),
        UnitItem::Parameters { declaration } => write_parameters(w, declaration),
        UnitItem::Typedef { declaration } => write_typedef(w, declaration),
        UnitItem::Function { function } => write_function(w, function),
    }
}

fn write_design(w: &mut Writer<'_>, design: &Design) {
    match design {
        Design::Module {
            keyword,
            definition,
        } => {
            write_module_keyword(w, keyword);
            write_definition(w, definition, "endmodule")
        }
        Design::Interface {
            keyword,
            definition,
        } => {
            w.spelled(*keyword, "interface");
            w.blank();
            write_definition(w, definition, "endinterface")
        }
        Design::Package { unit } => write_package(w, unit),
    }
}

/// Writes a module or an interface behind its keyword; its end word is to be spelled like this.
fn write_definition(w: &mut Writer<'_>, definition: &Definition, end: &str) {
    write_header(w, &definition.header);
    write_items(w, &definition.items);
    w.blank();
    w.spelled(definition.end, end);
    write_label(w, &definition.label)
}

fn write_package(w: &mut Writer<'_>, package: &Package) {
    w.token_apart(package.keyword);
    w.said_before(&package.lifetime);
    w.token(package.name);
    w.token(package.semicolon);
    for item in &package.items {
        w.blank();
        write_unit_item(w, item);
    }
    w.blank();
    w.spelled(package.end, "endpackage");
    write_label(w, &package.label)
}
