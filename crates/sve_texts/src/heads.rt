//! Rows of what stands at the head of a text (IEEE 1800-2017, clause 22).
//!
//! - `head TEXT`: the directive or the use that the text's backtick begins, with its parts, and how many bytes it takes.
//! - `copied TEXT`: how many bytes of the text are copied unread.
//! - `conditional TEXT`: whether the text's backtick begins a directive of conditional compilation.
use std::alloc::Global;
use sve_bytes::{Name, NetType, NoMemory};
use sve_directive::{
    Conditional, Directive, LocalDirective, MacroDirective, MacroName, Refusal, SourceText,
    begins_conditional, plain_len, read_directive,
};
use sve_macro::Macro;
use sve_row::{add_number, decoded, spell, yes};

/// The word of a net type.
fn net_type(kind: NetType) -> &'static str {
    match kind {
        NetType::Wire => "wire",
        NetType::Tri => "tri",
        NetType::Uwire => "uwire",
        NetType::Wand => "wand",
        NetType::Wor => "wor",
        NetType::Triand => "triand",
        NetType::Trior => "trior",
        NetType::Tri0 => "tri0",
        NetType::Tri1 => "tri1",
        NetType::Trireg => "trireg",
        NetType::None => "none",
    }
}

/// Adds a name, or how many bytes it has where they are many.
fn add_name(out: &mut String, name: &Name) -> Result<(), NoMemory> {
    let count = name.bytes().len();
    if count > 64 {
        out.push_str("a name of ")?;
        add_number(out, count)?;
        out.push_str(" bytes")
    } else {
        spell(out, name.bytes())
    }
}

/// Adds a word and the name behind it.
fn add_named(out: &mut String, word: &str, name: &MacroName) -> Result<(), NoMemory> {
    out.push_str(word)?;
    match name {
        MacroName::Name(name) => add_name(out, name),
        MacroName::TooLong => out.push_str("a name too long"),
    }
}

/// Adds a definition: `define F(a,b=1) [text]`.
fn add_definition(out: &mut String, name: &Name, defined: &Macro) -> Result<(), NoMemory> {
    let definition = defined.definition();
    out.push_str("define ")?;
    add_name(out, name)?;
    if definition.has_list {
        out.push('(')?;
    }
    for (i, formal) in definition.formals.items().iter().enumerate() {
        if i > 0 {
            out.push(',')?;
        }
        spell(out, formal.0.bytes())?;
        if let Some(value) = &formal.1 {
            out.push('=')?;
            spell(out, value.items())?;
        }
    }
    if definition.has_list {
        out.push(')')?;
    }
    out.push_str(" [")?;
    spell(out, definition.text.items())?;
    out.push(']')
}

fn add_conditional(out: &mut String, conditional: &Conditional) -> Result<(), NoMemory> {
    match conditional {
        Conditional::Ifdef(name) => add_named(out, "ifdef ", name),
        Conditional::Ifndef(name) => add_named(out, "ifndef ", name),
        Conditional::Elsif(name) => add_named(out, "elsif ", name),
        Conditional::Else => out.push_str("else"),
        Conditional::Endif => out.push_str("endif"),
    }
}

fn add_refusal(out: &mut String, refusal: &Refusal) -> Result<(), NoMemory> {
    let (word, name) = match refusal {
        Refusal::Keywords(name) => ("keywords ", name),
        Refusal::Malformed(Some(name)) => ("malformed ", name),
        Refusal::Malformed(None) => return out.push_str("malformed"),
        Refusal::LongUse(name) => ("long use ", name),
    };
    out.push_str(word)?;
    add_name(out, name)
}

fn add_local(out: &mut String, directive: &LocalDirective) -> Result<(), NoMemory> {
    match directive {
        LocalDirective::Conditional(conditional) => add_conditional(out, conditional),
        LocalDirective::Macros(MacroDirective::Define { name, definition }) => {
            add_definition(out, name, definition)
        }
        LocalDirective::Macros(MacroDirective::Undef(name)) => add_named(out, "undef ", name),
        LocalDirective::Macros(MacroDirective::UndefineAll) => out.push_str("undefineall"),
        LocalDirective::NetType(kind) => {
            out.push_str("net type ")?;
            out.push_str(net_type(*kind))
        }
        LocalDirective::Text(SourceText::File) => out.push_str("file"),
        LocalDirective::Text(SourceText::Line) => out.push_str("line"),
        LocalDirective::Ignored => out.push_str("ignored"),
        LocalDirective::Use(name) => {
            out.push_str("use ")?;
            add_name(out, name)
        }
        LocalDirective::Refused(refusal) => add_refusal(out, refusal),
    }
}

/// The directive or the use with its parts, and how many bytes it takes.
fn directive_text(alloc: Global, directive: &Directive, len: usize) -> Result<String, NoMemory> {
    let mut out = String::new(alloc);
    match directive {
        Directive::Include(name) => {
            out.push_str("include ")?;
            spell(&mut out, name.items())?;
        }
        Directive::Local(directive) => add_local(&mut out, directive)?,
    }
    out.push_str(", ")?;
    add_number(&mut out, len)?;
    out.push_str(" bytes")?;
    Ok(out)
}

/// The answer to a row `head`.
pub fn head_row(alloc: Global, row: &str) -> Result<Option<String>, NoMemory> {
    let text = decoded(alloc, row)?;
    if !text.starts_with(b"`") {
        return Ok(None);
    }
    let (directive, len) = read_directive(alloc, &text)?;
    Ok(Some(directive_text(alloc, &directive, len)?))
}

/// The answer to a row `copied`.
pub fn copied_row(alloc: Global, row: &str) -> Result<Option<String>, NoMemory> {
    let len = plain_len(&decoded(alloc, row)?);
    let mut out = String::new(alloc);
    add_number(&mut out, len)?;
    Ok(Some(out))
}

/// The answer to a row `conditional`.
pub fn conditional_row(alloc: Global, row: &str) -> Result<Option<String>, NoMemory> {
    let text = decoded(alloc, row)?;
    if !text.starts_with(b"`") {
        return Ok(None);
    }
    Ok(Some(String::from_str(alloc, yes(begins_conditional(&text)))?))
}
