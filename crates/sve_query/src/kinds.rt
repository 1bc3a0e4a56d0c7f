//! The kinds as what all that is shared is proved over.
ghost use Rattle.std.specs.Prelude.{refl};
ghost use Rattle.sve_key.specs.KeyOrder.{rank_of};
ghost use Rattle.sve_make.specs.Make.{make_of};
ghost use Rattle.sve_query.specs.Answering.{answers_by, asks_by};
ghost use Rattle.sve_make.proofs.Needs.{at_other_fuel, free, higher, lower};
ghost use Rattle.sve_make.proofs.Values.{reading};
ghost use Rattle.sve_make.specs.AtFiles.{reads_of};

use crate::answering::answer_of;
use crate::svq::Svq;
use std::alloc::Global;
use sve_command::Query;
use sve_io::Halt;
use sve_key::{Key, Value};
use sve_kinds::made;
use sve_store::{Answer, Ending, Fetch, Kinds, Start};
use sve_text::Files;

impl Kinds for Svq {
    type Query = Query;

    ghost make = { make_of };

    ghost answers_over = { answers_by };

    ghost asks_over = { asks_by };

    fn compute<F: Fetch<Svq>>(
        alloc: Global,
        k: &Key,
        _fuel: u32,
        from: &mut F,
    ) -> Result<Value, Halt> {
        let value = made(alloc, from, k)?;
        from.tick();
        Ok(value)
    }

    fn answer<F: Fetch<Svq>>(
        alloc: Global,
        q: &Query,
        budget: u32,
        from: &mut F,
    ) -> Result<Answer, Halt> {
        answer_of(alloc, from, q, budget)
    }

    ghost free = { free };

    ghost own_fuel = { λ files k f v is. (refl, refl) };

    ghost other_fuel = { at_other_fuel };
}

impl Ending for Svq {
    ghost height = { λ files k. rank_of k };

    ghost reads = { reads_of };

    ghost lower = { lower };

    ghost higher = { higher };

    ghost reading = { reading };
}

impl Start for Svq {
    fn start(_files: &Files) -> Svq {
        Svq { computes: 0 }
    }
}
