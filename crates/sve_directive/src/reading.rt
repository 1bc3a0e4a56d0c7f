ghost use Rattle.std.specs.Prelude.{◌≡◌, ◌+◌, ◌<◌, ◌≤◌, ℕ, [], length, drop, take, IfOk, IfSome, Some, None, IsTrue};
ghost use Rattle.sve_directive.specs.Bytes.{begins_with};
ghost use Rattle.sve_directive.specs.Define.{said, own_length, argument_of};
ghost use Rattle.sve_directive.specs.Directives.{define_of, definition_of, file_length, file_in, file_at, include_of, net_type_of, nettype_of, pull_of, use_of, keywords_of, tested, name_at, directive_at, is_conditional_at, parts_of, malformed_length};

use crate::bytes::{begins, identifier_at, line_len, past};
use crate::define::{own_len, read_macro, read_said};
use crate::directive::{
    Conditional, Directive, LocalDirective, MacroDirective, MacroName, Refusal, SourceText,
};
use crate::name::{
    argument_at, argument_stop, cut_name, name_of_bytes, read_argument, read_macro_name,
};
use crate::pieces::{gap_len, rest_of_line_len};
use crate::word::{Test, Word, find_word};
use std::alloc::Global;
use sve_bytes::{List, Name, NetType, NoMemory};

fn defined(alloc: Global, n: usize, text: &[u8]) -> Result<Option<(Directive, usize)>, NoMemory>
    ensures { IfOk result (λ o. o ≡ definition_of n text.now (argument_of text.now)) }
{
    let Some((name, end)) = read_argument(alloc, text)? else {
        return Ok(None);
    };
    match read_macro(alloc, past(text, end))? {
        None => Ok(None),
        Some(definition) => {
            let define = MacroDirective::Define { name, definition };
            Ok(Some((Directive::Local(LocalDirective::Macros(define)), n)))
        }
    }
}

fn define(alloc: Global, after: &[u8]) -> Result<Option<(Directive, usize)>, NoMemory>
    ensures value { IfOk result (λ o. o ≡ define_of after.now) }
    ensures within { IfOk result (λ o. IfSome o (λ h. h.1 ≤ length after.now)) }
{
    let said = read_said(alloc, after)?;
    defined(alloc, own_len(after), said.as_slice())
}

/// How many bytes of a file's name stand before the sign that ends it, or before the line's end.
fn file_len(close: u8, text: &[u8]) -> usize
    ensures value { result ≡ file_length close text.now }
    ensures within { result ≤ length text.now }
{
    text.iter()
        .take_while(|b| **b != close && **b != b'\n')
        .count()
}

/// The name of a file up to a sign, and how many bytes it has with the signs at both of its ends.
fn read_file_in(
    alloc: Global,
    close: u8,
    text: &[u8],
) -> Result<Option<(List<u8>, usize)>, NoMemory>
    ensures value { IfOk result (λ o. o ≡ file_in close text.now) }
    ensures within { IfOk result (λ o. IfSome o (λ f. f.1 ≤ 1 + length text.now)) }
{
    let n = file_len(close, text);
    if begins(past(text, n), close) {
        return Ok(Some((List::of(Vec::from_slice(alloc, &text[..n])?), n + 2)));
    }
    Ok(None)
}

/// The name of a file at the head of a text, and how many bytes it has with its signs.
fn read_file(alloc: Global, text: &[u8]) -> Result<Option<(List<u8>, usize)>, NoMemory>
    ensures value { IfOk result (λ o. o ≡ file_at text.now) }
    ensures within { IfOk result (λ o. IfSome o (λ f. f.1 ≤ length text.now)) }
{
    match text {
        [b'"', rest @ ..] => read_file_in(alloc, b'"', rest),
        [b'<', rest @ ..] => read_file_in(alloc, b'>', rest),
        _ => Ok(None),
    }
}

fn include(alloc: Global, after: &[u8]) -> Result<Option<(Directive, usize)>, NoMemory>
    ensures value { IfOk result (λ o. o ≡ include_of after.now) }
    ensures within { IfOk result (λ o. IfSome o (λ h. h.1 ≤ length after.now)) }
{
    let gap = gap_len(after);
    match read_file(alloc, past(after, gap))? {
        None => Ok(None),
        Some((name, n)) => Ok(Some((Directive::Include(name), gap + n))),
    }
}

fn net_type(name: &[u8]) -> Option<NetType>
    ensures { result ≡ net_type_of name.now }
{
    if name == b"wire".as_slice() {
        Some(NetType::Wire)
    } else if name == b"tri".as_slice() {
        Some(NetType::Tri)
    } else if name == b"uwire".as_slice() {
        Some(NetType::Uwire)
    } else if name == b"wand".as_slice() {
        Some(NetType::Wand)
    } else if name == b"wor".as_slice() {
        Some(NetType::Wor)
    } else if name == b"triand".as_slice() {
        Some(NetType::Triand)
    } else if name == b"trior".as_slice() {
        Some(NetType::Trior)
    } else if name == b"tri0".as_slice() {
        Some(NetType::Tri0)
    } else if name == b"tri1".as_slice() {
        Some(NetType::Tri1)
    } else if name == b"trireg".as_slice() {
        Some(NetType::Trireg)
    } else if name == b"none".as_slice() {
        Some(NetType::None)
    } else {
        None
    }
}

fn default_nettype(after: &[u8]) -> Option<(Directive, usize)>
    ensures value { result ≡ nettype_of after.now }
    ensures within { IfSome result (λ h. h.1 ≤ length after.now) }
{
    match net_type(argument_at(after)) {
        None => None,
        Some(net_type) => Some((
            Directive::Local(LocalDirective::NetType(net_type)),
            argument_stop(after),
        )),
    }
}

fn unconnected_drive(after: &[u8]) -> Option<(Directive, usize)>
    ensures value { result ≡ pull_of after.now }
    ensures within { IfSome result (λ h. h.1 ≤ length after.now) }
{
    let pull = argument_at(after);
    if pull == b"pull0".as_slice() {
        Some((
            Directive::Local(LocalDirective::Ignored),
            argument_stop(after),
        ))
    } else if pull == b"pull1".as_slice() {
        Some((
            Directive::Local(LocalDirective::Ignored),
            argument_stop(after),
        ))
    } else {
        None
    }
}

/// A use of a macro of this name.
fn used(alloc: Global, name: &[u8]) -> Result<Option<(Directive, usize)>, NoMemory>
    ensures value { IfOk result (λ o. o ≡ use_of name.now) }
    ensures within { IfOk result (λ o. IfSome o (λ h. h.1 ≡ 0)) }
{
    if let Some(whole) = name_of_bytes(alloc, name)? {
        return Ok(Some((Directive::Local(LocalDirective::Use(whole)), 0)));
    }
    match cut_name(alloc, name)? {
        Some(front) => Ok(Some((
            Directive::Local(LocalDirective::Refused(Refusal::LongUse(front))),
            0,
        ))),
        None => Ok(None),
    }
}

/// `begin_keywords` or `end_keywords`, with the rest of the line.
fn keywords(
    alloc: Global,
    name: &[u8],
    after: &[u8],
) -> Result<Option<(Directive, usize)>, NoMemory>
    ensures value { IfOk result (λ o. o ≡ keywords_of name.now after.now) }
    ensures within { IfOk result (λ o. IfSome o (λ h. h.1 ≤ length after.now)) }
{
    match cut_name(alloc, name)? {
        Some(name) => Ok(Some((
            Directive::Local(LocalDirective::Refused(Refusal::Keywords(name))),
            line_len(after),
        ))),
        None => Ok(None),
    }
}

/// What a directive that asks for a macro makes of its name.
fn tested(test: Test, name: MacroName) -> Conditional
    ensures { result ≡ tested test name }
{
    match test {
        Test::IfDefined => Conditional::Ifdef(name),
        Test::IfNotDefined => Conditional::Ifndef(name),
        Test::ElseIfDefined => Conditional::Elsif(name),
    }
}

/// A directive of conditional compilation that asks for a macro.
fn testing(alloc: Global, test: Test, after: &[u8]) -> Result<Option<(Directive, usize)>, NoMemory>
    ensures value { IfOk result (λ o. o ≡ parts_of (Word.Testing test) [] after.now) }
    ensures within { IfOk result (λ o. IfSome o (λ h. h.1 ≤ length after.now)) }
{
    match read_macro_name(alloc, after)? {
        None => Ok(None),
        Some((name, n)) => Ok(Some((
            Directive::Local(LocalDirective::Conditional(tested(test, name))),
            n,
        ))),
    }
}

/// `undef`, by the name that it takes the macro of.
fn undef(alloc: Global, after: &[u8]) -> Result<Option<(Directive, usize)>, NoMemory>
    ensures value { IfOk result (λ o. o ≡ parts_of Word.Undefining [] after.now) }
    ensures within { IfOk result (λ o. IfSome o (λ h. h.1 ≤ length after.now)) }
{
    match read_macro_name(alloc, after)? {
        None => Ok(None),
        Some((name, n)) => Ok(Some((
            Directive::Local(LocalDirective::Macros(MacroDirective::Undef(name))),
            n,
        ))),
    }
}

/// The directive of a name, and how many bytes its parts have.
fn read_parts(
    alloc: Global,
    word: Word,
    name: &[u8],
    after: &[u8],
) -> Result<Option<(Directive, usize)>, NoMemory>
    ensures value { IfOk result (λ o. o ≡ parts_of word name.now after.now) }
    ensures within { IfOk result (λ o. IfSome o (λ h. h.1 ≤ length after.now)) }
{
    match word {
        Word::Defining => define(alloc, after),
        Word::Undefining => undef(alloc, after),
        Word::UndefiningAll => Ok(Some((
            Directive::Local(LocalDirective::Macros(MacroDirective::UndefineAll)),
            0,
        ))),
        Word::Testing(test) => testing(alloc, test, after),
        Word::Otherwise => Ok(Some((
            Directive::Local(LocalDirective::Conditional(Conditional::Else)),
            0,
        ))),
        Word::EndOfIf => Ok(Some((
            Directive::Local(LocalDirective::Conditional(Conditional::Endif)),
            0,
        ))),
        Word::Including => include(alloc, after),
        Word::NetTyping => Ok(default_nettype(after)),
        Word::Resetting => Ok(Some((Directive::Local(LocalDirective::NetType(NetType::Wire)), 0))),
        Word::FileName => Ok(Some((Directive::Local(LocalDirective::Text(SourceText::File)), 0))),
        Word::LineNumber => Ok(Some((Directive::Local(LocalDirective::Text(SourceText::Line)), 0))),
        Word::RestOfLine => Ok(Some((Directive::Local(LocalDirective::Ignored), line_len(after)))),
        Word::Alone => Ok(Some((Directive::Local(LocalDirective::Ignored), 0))),
        Word::Pulling => Ok(unconnected_drive(after)),
        Word::KeywordSet => keywords(alloc, name, after),
        Word::NoDirective => used(alloc, name),
    }
}

/// How many bytes a directive of this word takes behind its name where it is not of its form.
fn malformed_len(word: Word, after: &[u8]) -> usize
    ensures value { result ≡ malformed_length word after.now }
    ensures within { result ≤ length after.now }
{
    match word {
        Word::Defining => own_len(after),
        _ => rest_of_line_len(after),
    }
}

fn name_after_backtick(text: &[u8]) -> &[u8]
    requires { 0 < length text.now }
    ensures name { result.now ≡ name_at text.now }
    ensures within { 1 + length result.now ≤ length text.now }
{
    identifier_at(past(text, 1))
}

/// What the backtick at the head of a text begins, and how many bytes it has, from the backtick to
/// the end of its last part (IEEE 1800-2017, clause 22): a directive, a use of a macro, or neither,
/// which is malformed: a definition takes all its lines then, any other the rest of its line, with
/// the whole of a string literal or a comment that begins there.
///
/// # Errors
/// Only want of memory.
#[tactic(auto, unfolding(crate::specs::Directives::directive_at))]
pub fn read_directive(alloc: Global, text: &[u8]) -> Result<(Directive, usize), NoMemory>
    requires { IsTrue (begins_with 96 text.now) }
    ensures head { IfOk result (λ h. h ≡ directive_at text.now) }
    ensures some { IfOk result (λ h. 0 < h.1) }
    ensures within { IfOk result (λ h. h.1 ≤ length text.now) }
{
    let name = name_after_backtick(text);
    let after = past(text, 1 + name.len());
    let word = find_word(name);
    match read_parts(alloc, word, name, after)? {
        Some((directive, n)) => Ok((directive, 1 + name.len() + n)),
        None => Ok((
            Directive::Local(LocalDirective::Refused(Refusal::Malformed(cut_name(alloc, name)?))),
            1 + name.len() + malformed_len(word, after),
        )),
    }
}

/// Whether the backtick at the head of a text begins a directive of conditional compilation:
/// `` `ifdef ``, `` `ifndef ``, `` `elsif ``, `` `else `` or `` `endif ``, of its form or not (IEEE
/// 1800-2017, 22.6). Of a group that is skipped no other directive is followed.
#[tactic(auto, unfolding(crate::specs::Directives::is_conditional_at))]
pub fn begins_conditional(text: &[u8]) -> bool
    requires { IsTrue (begins_with 96 text.now) }
    ensures { result ≡ is_conditional_at text.now }
{
    match find_word(name_after_backtick(text)) {
        Word::Testing(_) | Word::Otherwise | Word::EndOfIf => true,
        _ => false,
    }
}
