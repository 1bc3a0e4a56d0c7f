ghost use Rattle.std.specs.Prelude.{◌≡◌, Ok, Err, true, IfOk, MatchOption};
ghost use Rattle.std.specs.Arc.{arc_value};
ghost use Rattle.std.specs.Result.{is_err};
ghost use Rattle.sve_key.specs.Parts.{IsOfItsWords};
ghost use Rattle.sve_key.specs.Values.{stop_in};

use std::marker::Model;
use std::sync::Arc;
use sve_bytes::NoMemory;
use sve_tree::Element;

/// What a chunk is read as: its element, or where the grammar stops. Two are one where the words of their chunks are, or where
/// they stop alike. Copies share the element.
pub struct Reading {
    pub(crate) read: Read,
}

impl Drop for Reading {
    fn drop(self) {
        let Reading { read: _ } = self;
    }
}

#[derive(Drop)]
pub(crate) enum Read {
    Whole(Arc<Element>),
    Stopped { index: u32, deep: bool },
}

impl Model for Reading {
    ghost use Rattle.sve_key.specs.Parts.{ReadingValue};

    ghost Value = { ReadingValue };

    ghost use Rattle.sve_key.specs.Readings.{view_of, IsRead};

    ghost view = { λ r. view_of r.read };

    ghost invariant = { λ r. IsRead r.read };
}

impl Reading {
    /// That of a chunk that the grammar accepts, whose element this is. It takes no memory.
    pub fn whole(element: Arc<Element>) -> Reading
        requires { IsOfItsWords (arc_value element) }
        ensures { result ≡ Ok (arc_value element).words.items }
    {
        Reading {
            read: Read::Whole(element),
        }
    }

    /// That of a chunk in which the grammar stops in front of the token of this number, where the nesting is perhaps too deep. It
    /// takes no memory.
    pub fn stopped(index: u32, deep: bool) -> Reading
        ensures { result ≡ Err (record { index = index; deep = deep }) }
    {
        Reading {
            read: Read::Stopped { index, deep },
        }
    }

    /// The element, shared, where the grammar accepts the chunk.
    ///
    /// # Errors
    /// For want of memory alone.
    pub fn element(&self) -> Result<Option<Arc<Element>>, NoMemory>
        ensures { IfOk result (λ found. MatchOption found (is_err self.now ≡ true) (λ element. (self.now ≡ Ok (arc_value element).words.items) × IsOfItsWords (arc_value element))) }
    {
        match &self.read {
            Read::Whole(element) => Ok(Some(Arc::try_clone(element)?)),
            Read::Stopped { .. } => Ok(None),
        }
    }

    /// The number of the token in front of which the grammar stops in the chunk, and whether the nesting is perhaps too deep there,
    /// where it does not accept the chunk. It takes no memory.
    pub fn stop(&self) -> Option<(u32, bool)>
        ensures { result ≡ stop_in self.now }
    {
        match &self.read {
            Read::Whole(_) => None,
            Read::Stopped { index, deep } => Some((*index, *deep)),
        }
    }
}
