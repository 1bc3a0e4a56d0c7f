//! A watch for rows.
ghost use Rattle.std.specs.Prelude.{[], ◌∷◌, if◌then◌else◌};

use sve_ask::Watch;

/// A watch that gives its number, if it has one, at the first look, and none at later ones.
#[derive(Drop)]
pub struct Once {
    number: Option<u64>,
    given: Option<u64>,
}

impl Once {
    /// A watch that has this number.
    pub fn of(number: Option<u64>) -> Once {
        Once {
            number,
            given: None,
        }
    }
}

impl Watch for Once {
    ghost use Rattle.sve_ask.specs.Watched.{look_gives};

    ghost gave = { λ s. look_gives s.given };

    fn newer(&mut self) -> Option<u64> {
        if self.given.is_some() {
            return None;
        }
        self.given = self.number;
        self.number
    }
}
