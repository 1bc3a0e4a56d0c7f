ghost use Rattle.std.specs.Prelude.{◌≡◌, IfOk, option_map};
ghost use Rattle.std.specs.List.{fold};
ghost use Rattle.sve_known.specs.Naming.{named_fault};
ghost use Rattle.sve_diag.specs.declared.code.Code.TheVariants.{N02};
ghost use Rattle.sve_nested.specs.Labels.{by_declared, by_label, clash_in, counted_in, is_declared, label_fault_in, labelled_block, numbered, with_label, with_label_unless, with_name, with_new_label};

use crate::block::Labelled;
use crate::nested::Nested;
use std::alloc::AllocError;
use sve_ahead::first_token;
use sve_bytes::{Name, NoMemory};
use sve_contents::Contents;
use sve_diag::Code;
use sve_fault::{Fault, Said};
use sve_item_names::ItemName;
use sve_known::name_at;
use sve_scope::{Declared, What};
use sve_tree::Word;

/// What is said of a label whose name is declared already.
fn second(token: u32, name: &Name) -> Result<Fault, NoMemory>
    ensures { IfOk result (λ f. f ≡ named_fault token N02 name.now) }
{
    let code = Code::N02;
    let arg = Some(name.copy()?);
    Ok(Fault {
        token,
        said: Said::Here { code, arg },
    })
}

/// What is wrong with a label of a name for which this is declared.
fn by_declared(
    token: u32,
    name: &Name,
    declared: Option<&Declared>,
) -> Result<Option<Fault>, NoMemory>
    ensures { IfOk result (λ f. f ≡ by_declared token name.now (option_map (λ d. d.now) declared.entry)) }
{
    match declared {
        Some(_) => Ok(Some(second(token, name)?)),
        None => Ok(None),
    }
}

/// What is wrong with a label of the construct with a number, where this construct has it already.
fn by_label(
    number: u64,
    token: u32,
    name: &Name,
    labelled: &Labelled,
) -> Result<Option<Fault>, NoMemory>
    ensures { IfOk result (λ f. f ≡ by_label number token name.now None (Some labelled.now)) }
{
    if labelled.number == number {
        return Ok(None);
    }
    Ok(Some(second(token, name)?))
}

/// Whether a name is declared in the innermost scope.
fn is_declared(contents: &Contents, name: &Name) -> bool
    ensures { result ≡ is_declared contents.now name.now }
{
    contents.scope.declared.get(name).is_some()
}

/// The declaration of a label.
fn labelled_block(contents: &Contents, item: ItemName, name: &Name) -> Result<Declared, NoMemory>
    ensures { IfOk result (λ d. d ≡ labelled_block contents.now item name.now) }
{
    let from = first_token(item);
    let at = contents.spot(from)?;
    let name = name.copy()?;
    let what = What::Block;
    Ok(Declared {
        name,
        what,
        at,
        from,
    })
}

impl Nested {
    /// What is wrong with a label of this name.
    fn clash(&self, number: u64, token: u32, name: &Name) -> Result<Option<Fault>, NoMemory>
        ensures { IfOk result (λ f. f ≡ clash_in self.now number token name.now) }
    {
        match self.blocks.inner.labels.get(name) {
            Some(labelled) => by_label(number, token, name, labelled),
            None => by_declared(token, name, self.contents.scope.declared.get(name)),
        }
    }

    /// What is wrong with a label of the construct with a number in the innermost scope (IEEE 1800-2017, 27.6): its name is declared,
    /// and not by another block of that construct (N02).
    ///
    /// # Errors
    /// For want of memory alone.
    pub fn label_fault(
        &self,
        words: &[Word],
        number: u64,
        label: u32,
    ) -> Result<Option<Fault>, NoMemory>
        ensures { IfOk result (λ f. f ≡ label_fault_in words.now self.now number label) }
    {
        match name_at(words, label) {
            Some(name) => self.clash(number, label, name),
            None => Ok(None),
        }
    }

    /// A label that is declared for the first time.
    fn with_new_label(self, item: ItemName, name: &Name) -> Result<Nested, NoMemory>
        ensures { IfOk result (λ n. n ≡ with_new_label self item name.now) }
    {
        let Nested { contents, blocks } = self;
        let declared = labelled_block(&contents, item, name)?;
        let contents = contents.declared(declared)?;
        let mut blocks = blocks;
        blocks.inner.add_label(name)?;
        Ok(Nested { contents, blocks })
    }

    /// A label more, unless its name is declared.
    fn with_label_unless(
        self,
        declared: bool,
        item: ItemName,
        name: &Name,
    ) -> Result<Nested, NoMemory>
        ensures { IfOk result (λ n. n ≡ with_label_unless declared self item name.now) }
    {
        if declared {
            return Ok(self);
        }
        self.with_new_label(item, name)
    }

    /// A label more, where its name is not declared.
    fn with_label(self, item: ItemName, name: Option<&Name>) -> Result<Nested, NoMemory>
        ensures { IfOk result (λ n. n ≡ with_label self item (option_map (λ m. m.now) name.entry)) }
    {
        match name {
            None => Ok(self),
            Some(name) => {
                let declared = is_declared(&self.contents, name);
                self.with_label_unless(declared, item, name)
            }
        }
    }

    /// A name of a construct more.
    fn with_name(self, words: &[Word], item: ItemName) -> Result<Nested, NoMemory>
        ensures { IfOk result (λ n. n ≡ with_name words.now self item) }
    {
        match item {
            ItemName::Declared { .. } => Ok(self),
            ItemName::Instance { .. } => Ok(self),
            ItemName::Block { token } => self.with_label(item, name_at(words, token)),
        }
    }

    /// The names of a construct.
    fn with_names(self, words: &[Word], names: &[ItemName]) -> Result<Nested, NoMemory>
        ensures { IfOk result (λ n. n ≡ fold (with_name words.now) self names.now) }
    {
        let mut nested = self;
        'names: for name in names {
            nested = nested.with_name(words, *name)?;
        }
        Ok(nested)
    }

    /// The next construct has the next number.
    fn numbered(self) -> Result<Nested, NoMemory>
        ensures { IfOk result (λ n. n ≡ numbered self) }
    {
        let mut nested = self;
        match nested.blocks.inner.next.checked_add(1) {
            Some(next) => {
                nested.blocks.inner.next = next;
                Ok(nested)
            }
            None => Err(AllocError),
        }
    }

    /// A generate construct of the innermost scope begins (IEEE 1800-2017, 27.5 and 27.6): its labels are declared as generate blocks,
    /// selected or not, where their names are not declared, and the next construct has the next number. `names` are its labels, as
    /// `sve_item_names` tells them.
    ///
    /// # Errors
    /// For want of memory alone.
    pub fn counted(self, words: &[Word], names: &[ItemName]) -> Result<Nested, NoMemory>
        ensures { IfOk result (λ n. n ≡ counted_in words.now self names.now) }
    {
        let nested = self.with_names(words, names)?;
        nested.numbered()
    }
}
