//! What kinds of key there are is told by a type that implements these traits. All that is shared is proved over any of
//! them.
ghost use Rattle.std.specs.Prelude.{◌≡◌, ◌<◌, ◌≤◌, ◌↔◌, ℕ, Bool, true, false, if◌then◌else◌, is_ok, is_some, IfOk, IfErr, IsErr, IsTrue, OnOk, Option, Some, None, List, length, option_map};
ghost use Rattle.std.specs.Arc.{arc_value};
ghost use Rattle.std.specs.declared.cmp.Ordering.TheVariants.{Equal};
ghost use Rattle.sve_text.specs.Files.{FilesValue};
ghost use Rattle.sve_history.specs.Histories.{HistoryValue, IsOpening, files_at};
ghost use Rattle.sve_store.specs.declared.answer.Answer.{Answer as AnswerValue};
ghost use Rattle.sve_store.specs.Made.{Made, Needs, Done, next_count, values_of, IsOneOf};
ghost use Rattle.sve_store.specs.Values.{IsValue, IsDone, TellsValues, TellsLowerValues};
ghost use Rattle.sve_store.specs.Told.{Holds, Matches, Follows, TellSame, HasStopped, HaltedAt, with_asked};

use crate::answer::Answer;
use std::alloc::Global;
use std::sync::Arc;
use sve_bytes::NoMemory;
use sve_io::Halt;
use sve_text::Files;

/// Keys and their values, and the count of the values that were computed. Only `tick` raises the count.
pub trait Keyed: Sized {
    /// What a value is asked for by.
    type Key: Ord + Drop;

    /// What a key stands for at some files.
    type Value: Drop;

    // How many values were computed under it.
    ghost counted: { Self → ℕ };

    // Whether it may serve for these files.
    ghost fits: { Self → FilesValue → Bool };

    // A key reads keys of lower rank, and maybe some of its own.
    ghost ranked: { Self.Key → ℕ };

    // Whether the value of the key is read off the files, and not computed.
    ghost is_input: { Self.Key → Bool };

    // The value of an input at some files, with its stamp.
    ghost given: { FilesValue → Self.Key → Option (Self.Value × ℕ) };

    // Whether a value that was computed with one fuel serves whoever asks with this one.
    ghost serves: { Self.Value → ℕ → Bool };

    // What a value that serves says to whoever asks with this fuel: where it cost more than that, it says that it did.
    ghost read_at: { Self.Value → ℕ → Self.Value };

    /// How many values were computed. It takes no memory.
    fn computes(&self) -> u64
        ensures { result ≡ counted self.now };

    /// Counts one value more, and changes nothing else. It takes no memory.
    fn tick(&mut self)
        ensures count { counted self.new ≡ next_count (counted self.old) }
        ensures fit { (files : FilesValue) → fits self.new files ≡ fits self.old files };

    /// The same key.
    ///
    /// # Errors
    /// Only for want of memory.
    fn copy_key(alloc: Global, k: &Self::Key) -> Result<Self::Key, NoMemory>
        ensures { IfOk result (λ copy. copy ≡ k.now) };

    /// The rank of a key. It takes no memory.
    fn rank(k: &Self::Key) -> u32
        ensures { result ≡ ranked k.now };

    /// The value of an input at these files with its stamp, and `None` for a key whose value is computed.
    ///
    /// # Errors
    /// Only for want of memory.
    fn input(
        &self,
        alloc: Global,
        k: &Self::Key,
        files: &Files,
    ) -> Result<Option<(Arc<Self::Value>, u64)>, NoMemory>
        requires fit { IsTrue (fits self.now files.now) }
        ensures value { IfOk result (λ found. option_map (λ pair. (arc_value pair.0, pair.1)) found ≡ given files.now k.now) };

    /// Whether the value serves whoever asks with this fuel. It takes no memory.
    fn answers(v: &Self::Value, fuel: u32) -> bool
        ensures { result ≡ serves v.now fuel };

    /// Whether the two are one value. It takes no memory.
    fn same(a: &Self::Value, b: &Self::Value) -> bool
        ensures { IsTrue result ↔ (a.now ≡ b.now) };

    ghost one_key: { (a b : Self.Key) → (Self.Key.cmp a b ≡ Equal) ↔ (a ≡ b) };

    ghost lower_fuel: { (v : Self.Value) (f g : ℕ) → g ≤ f → serves v f ≡ true → serves v g ≡ true };

    ghost inputs: { (files : FilesValue) (k : Self.Key) → is_some (given files k) ≡ is_input k };

    ghost stamps: { (history : HistoryValue) (r : ℕ) → IsOpening history.opening → r ≤ length history.entries → (k : Self.Key) (v : Self.Value) (s : ℕ) → given (files_at history.opening history.entries r) k ≡ Some (v, s) → (s ≤ r) × (values_of (given (files_at history.opening history.entries s)) k ≡ Some v) };
}

/// An object that tells the values of keys, and computes under the count of one value of `K`.
pub trait Fetch<K: Keyed> {
    // The value under whose count it computes.
    ghost kind: { Self → K };

    // What it tells of a key that is asked for with a fuel.
    ghost tells: { Self → K.Key → ℕ → K.Value → Type 0 };

    // The two are one object but for its notes and its count.
    ghost keeps: { Self → Self → Type 0 };

    // Whether a fetch of the key with the fuel computes nothing.
    ghost is_quiet: { Self → K.Key → ℕ → Type 0 };

    // Whether it keeps what it found.
    ghost remembers: { Type 0 };

    // The key at which it halted since it could tell nothing of it.
    ghost halted: { Self → Option K.Key };

    // The numbers with which it stopped calls, in order.
    ghost stops: { Self → List ℕ };

    // The keys that were asked for with their fuels, in order, where it notes them.
    ghost asked: { Self → Option (List (K.Key × ℕ)) };

    /// The value under whose count it computes. It takes no memory.
    fn kinds(&self) -> &K
        ensures { result.now ≡ kind self.now };

    /// Counts one value more, and changes nothing else. It takes no memory.
    fn tick(&mut self)
        ensures tells { TellSame (tells self.old) (tells self.new) }
        ensures keeps { keeps self.old self.new }
        ensures count { K.counted (kind self.new) ≡ next_count (K.counted (kind self.old)) }
        ensures halted { halted self.new ≡ halted self.old }
        ensures stops { stops self.new ≡ stops self.old }
        ensures asked { asked self.new ≡ asked self.old };

    /// The value of a key, which serves whoever asks with this fuel.
    ///
    /// # Errors
    /// The object stopped the call, can tell nothing of the key, or there was no memory.
    fn fetch(&mut self, alloc: Global, k: &K::Key, fuel: u32) -> Result<Arc<K::Value>, Halt>
        ensures tells { TellSame (tells self.old) (tells self.new) }
        ensures keeps { keeps self.old self.new }
        ensures quiet { (j : K.Key) (f : ℕ) → is_quiet self.old j f → is_quiet self.new j f }
        ensures count { is_quiet self.old k.now fuel → K.counted (kind self.new) ≡ K.counted (kind self.old) }

        // An answer is what it tells.
        ensures found { IfOk result (λ v. tells self.old k.now fuel (arc_value v)) }
        ensures asked { OnOk result (asked self.new ≡ with_asked (k.now, fuel) (asked self.old)) }

        // Where it keeps what it found, a fetch of a computed key that was found computes nothing.
        ensures again { OnOk result (remembers → K.is_input k.now ≡ false → is_quiet self.new k.now fuel) }

        // It halts only at a key of which it tells nothing, and notes the number of each stop.
        ensures still { OnOk result (halted self.new ≡ halted self.old) }
        ensures halted { (j : K.Key) → halted self.new ≡ Some j → HaltedAt (tells self.old) (halted self.old) k.now result j }
        ensures stopped { IfErr result (HasStopped (stops self.old) (stops self.new)) }
        ensures went { OnOk result (stops self.new ≡ stops self.old) };

    ghost keeps_itself: { (s : Self) → keeps s s };

    ghost keeps_on: { (before now after : Self) → keeps before now → keeps now after → keeps before after };
}

/// The definitions of the values that are computed, and of the answers of queries over them.
pub trait Kinds: Keyed {
    /// What may be asked.
    type Query: Drop;

    // The value of a key over what is told, or a key that is needed first.
    ghost make: { Self.Key → ℕ → (Self.Key → Option Self.Value) → Made Self.Key Self.Value };

    // What a query may be answered within a budget, over the values of all keys at all fuels.
    ghost answers_over: { (Self.Key → ℕ → Self.Value) → Self.Query → ℕ → AnswerValue → Type 0 };

    // The keys with their fuels that a query asks for within a budget, over these values.
    ghost asks_over: { (Self.Key → ℕ → Self.Value) → Self.Query → ℕ → Self.Key → ℕ → Type 0 };

    /// The value of a key that is no input. It ticks once, right before it answers `Ok`.
    ///
    /// # Errors
    /// A fetch did not come to its answer, or there was no memory.
    fn compute<F: Fetch<Self>>(
        alloc: Global,
        k: &Self::Key,
        fuel: u32,
        from: &mut F,
    ) -> Result<Self::Value, Halt>
        requires computed { Self.is_input k.now ≡ false }
        ensures tells { TellSame (F.tells from.old) (F.tells from.new) }
        ensures keeps { F.keeps from.old from.new }
        ensures made { (told : Self.Key → Option Self.Value) → Holds told (F.tells from.old) → IfOk result (λ v. make k.now fuel told ≡ Done v) }
        ensures count { ((j : Self.Key) (f : ℕ) → F.is_quiet from.old j f) → Self.counted (F.kind from.new) ≡ (if is_ok result then next_count (Self.counted (F.kind from.old)) else Self.counted (F.kind from.old)) }
        ensures halted { (told : Self.Key → Option Self.Value) → Matches told (F.tells from.old) → F.halted from.old ≡ None → (j : Self.Key) → F.halted from.new ≡ Some j → IsErr result × (make k.now fuel told ≡ Needs j) }
        ensures stopped { IfErr result (HasStopped (F.stops from.old) (F.stops from.new)) }
        ensures went { OnOk result (F.stops from.new ≡ F.stops from.old) };

    /// The answer of a query within a budget. It ticks nothing by itself.
    ///
    /// # Errors
    /// A fetch did not come to its answer, or there was no memory.
    fn answer<F: Fetch<Self>>(
        alloc: Global,
        q: &Self::Query,
        budget: u32,
        from: &mut F,
    ) -> Result<Answer, Halt>
        ensures tells { TellSame (F.tells from.old) (F.tells from.new) }
        ensures keeps { F.keeps from.old from.new }
        ensures answered { (table : Self.Key → ℕ → Self.Value) → Follows Self.read_at table (F.tells from.old) → IfOk result (λ answer. answers_over table q.now budget answer) }
        ensures quiet { (table : Self.Key → ℕ → Self.Value) → Follows Self.read_at table (F.tells from.old) → ((k : Self.Key) (f : ℕ) → asks_over table q.now budget k f → F.is_quiet from.old k f) → Self.counted (F.kind from.new) ≡ Self.counted (F.kind from.old) }

        // What is done has fetched each computed key that it asks for.
        ensures done { F.remembers → (table : Self.Key → ℕ → Self.Value) → Follows Self.read_at table (F.tells from.old) → IfOk result (λ answer. IsDone answer → (k : Self.Key) (f : ℕ) → Self.is_input k ≡ false → asks_over table q.now budget k f → F.is_quiet from.new k f) }
        ensures stopped { IfErr result (HasStopped (F.stops from.old) (F.stops from.new)) }
        ensures went { OnOk result (F.stops from.new ≡ F.stops from.old) };

    ghost free: { (k : Self.Key) (f : ℕ) (told : Self.Key → Option Self.Value) (j : Self.Key) → make k f told ≡ Needs j → (g : ℕ) (others : Self.Key → Option Self.Value) → make j g others ≡ make j 0 others };

    ghost own_fuel: { (files : FilesValue) (k : Self.Key) (f : ℕ) (v : Self.Value) → IsValue Self.Key.cmp (values_of (Self.given files)) make k f v → (Self.serves v f ≡ true) × (Self.read_at v f ≡ v) };

    ghost other_fuel: { (files : FilesValue) (k : Self.Key) (f g : ℕ) (v : Self.Value) → IsValue Self.Key.cmp (values_of (Self.given files)) make k g v → Self.serves v f ≡ true → IsValue Self.Key.cmp (values_of (Self.given files)) make k f (Self.read_at v f) };
}

/// Kinds whose definitions end: each key needs keys of lower height, and not one of them twice. For a lower height it is
/// enough that what is told of keys of lower rank is so, whatever is told of those of the key's own.
pub trait Ending: Kinds {
    // How far a key is from those that need nothing.
    ghost height: { FilesValue → Self.Key → ℕ };

    // The keys that it may need, all that it reads among them.
    ghost reads: { FilesValue → Self.Key → ℕ → List Self.Key };

    ghost lower: { (files : FilesValue) (k : Self.Key) (f : ℕ) (told : Self.Key → Option Self.Value) (j : Self.Key) → Self.is_input k ≡ false → TellsLowerValues Self.Key.cmp (values_of (Self.given files)) Self.make Self.ranked (Self.ranked k) told → Self.make k f told ≡ Needs j → height files j < height files k };

    ghost higher: { (files : FilesValue) (k j : Self.Key) → Self.ranked j < Self.ranked k → height files j < height files k };

    ghost reading: { (files : FilesValue) (k : Self.Key) (f : ℕ) (told : Self.Key → Option Self.Value) (j : Self.Key) → Self.is_input k ≡ false → TellsValues Self.Key.cmp (values_of (Self.given files)) Self.make told → Self.make k f told ≡ Needs j → (told j ≡ None) × IsOneOf (reads files k f) j };
}

/// Kinds that can be begun anew.
pub trait Start: Ending + Drop {
    /// For these files, with nothing computed. It takes no memory.
    fn start(files: &Files) -> Self
        ensures count { Self.counted result ≡ 0 }
        ensures fit { IsTrue (Self.fits result files.now) };
}
