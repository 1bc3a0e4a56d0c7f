//! A body while its text is gone over.
ghost use Rattle.std.specs.Prelude.{◌≡◌, IfOk};
ghost use Rattle.sve_item_names.specs.Declarations.{header_headings};
ghost use Rattle.sve_ahead.specs.Ahead.{ahead_in};
ghost use Rattle.sve_contents.specs.Reading.{without_dotted};
ghost use Rattle.sve_nested.specs.Blocks.{begun};
ghost use Rattle.sve_elaboration.specs.Ends.{begun_body, facts_of};

use std::alloc::Global;
use std::marker::Model;
use sve_ahead::{Ahead, seen_ahead};
use sve_bytes::{List, NoMemory};
use sve_contents::Contents;
use sve_design_kinds::Designs;
use sve_facts::{Child, Facts, HierarchicalUse, ImplicitNet, ParameterValue, Port};
use sve_item_names::header_names;
use sve_nested::{Nested, Scopes};
use sve_param::Override;
use sve_scoped::Text;
use sve_spec::Given;
use sve_tree::{Definition, Word};

/// What is found of the body of a module or an interface while its text is gone over. Tokens are named by their numbers in the chunk of that
/// text. A clause sees all that it holds as values.
#[derive(Drop)]
pub struct Elaboration<'a> {
    pub(crate) alloc: Global,
    pub(crate) text: Text<'a>,
    pub(crate) designs: &'a Designs<'a>,
    pub(crate) given: &'a [Given],
    pub(crate) is_open: bool,
    pub(crate) place: usize,
    pub(crate) nested: Nested,
    pub(crate) overrides: List<Override>,
    pub(crate) values: Vec<ParameterValue>,
    pub(crate) ports: List<Port>,
    pub(crate) children: Vec<Child>,
    pub(crate) nets: Vec<ImplicitNet>,
    pub(crate) hierarchical: Vec<HierarchicalUse>,
}

impl<'a> Model for Elaboration<'a> {
    ghost use Rattle.sve_elaboration.specs.State.{Found, found_code};

    ghost Value = { Found };

    ghost coded = { found_code };

    ghost view = { λ s. record {
      packages = s.text.packages.now;
      words = s.text.words.now;
      designs = s.designs.now;
      given = s.given.now;
      is_open = s.is_open;
      place = s.place;
      nested = s.nested;
      overrides = s.overrides;
      values = s.values.items;
      ports = s.ports;
      children = s.children.items;
      nets = s.nets.items;
      hierarchical = s.hierarchical.items;
    } };
}

/// What the text of a body declares further on.
fn ahead_of(alloc: Global, words: &[Word], definition: &Definition) -> Result<Ahead, NoMemory>
    ensures { IfOk result (λ a. a ≡ ahead_in words.now (header_headings definition.now.header) definition.now.items.items) }
{
    let headings = header_names(alloc, &definition.header)?;
    seen_ahead(alloc, words, headings.as_slice(), &definition.items)
}

/// The scopes of a body that begins. Hierarchical names that were used around it are none of its own.
fn nested_begun(alloc: Global, contents: Contents, ahead: Ahead) -> Result<Nested, NoMemory>
    ensures { IfOk result (λ n. n ≡ begun (without_dotted contents) ahead) }
{
    let mut contents = contents;
    let _ = contents.take_dotted(alloc);
    Nested::begun(alloc, contents, ahead)
}

impl<'a> Elaboration<'a> {
    /// A body that begins in a scope in which nothing is declared yet (IEEE 1800-2017, 23.9), by what a specialization gives the parameters
    /// that can be overridden, in the order of the text, and by what the modules and interfaces are that it names. What its text declares
    /// further on is announced.
    ///
    /// # Errors
    /// For want of memory alone.
    pub fn begun(
        alloc: Global,
        text: Text<'a>,
        designs: &'a Designs<'a>,
        given: &'a [Given],
        contents: Contents,
        definition: &Definition,
    ) -> Result<Elaboration<'a>, NoMemory>
        ensures { IfOk result (λ s. s ≡ begun_body text.entry.packages.now text.entry.words.now designs.now given.now contents definition.now) }
    {
        let ahead = ahead_of(alloc, text.words, definition)?;
        let nested = nested_begun(alloc, contents, ahead)?;
        Ok(Elaboration {
            alloc,
            text,
            designs,
            given,
            is_open: definition.header.parameters.is_none(),
            place: 0,
            nested,
            overrides: List::of(Vec::new(alloc)),
            values: Vec::new(alloc),
            ports: List::of(Vec::new(alloc)),
            children: Vec::new(alloc),
            nets: Vec::new(alloc),
            hierarchical: Vec::new(alloc),
        })
    }

    /// What is found of the body, whose text was gone over to its end.
    ///
    /// # Errors
    /// For want of memory alone.
    pub fn into_facts(self) -> Result<Facts, NoMemory>
        ensures { IfOk result (λ f. f ≡ facts_of self.entry) }
    {
        let mut elaboration = self;
        elaboration.keep_uses()?;
        let Elaboration {
            alloc,
            text: _,
            designs: _,
            given: _,
            is_open: _,
            place: _,
            nested,
            overrides: _,
            values,
            ports,
            children,
            nets,
            hierarchical,
        } = elaboration;
        let Scopes { scopes, notes } = nested.finished(alloc)?;
        Ok(Facts {
            scopes,
            params: List::of(values),
            ports,
            children: List::of(children),
            hierarchical: List::of(hierarchical),
            nets: List::of(nets),
            notes,
        })
    }
}
