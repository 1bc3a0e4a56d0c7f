use sve_fault::Fault;
use sve_rule::Judged;
use sve_select::Choice;

/// A select of a name.
#[derive(Drop)]
pub enum Step {
    /// A member, by its token: `.m` (IEEE 1800-2017, 7.2.1).
    Member(u32),
    /// Bits or elements, by what the brackets say, and by the token of the first one: `[3:0]` (11.5.1).
    Choice(u32, Result<Choice, Fault>),
}

/// What was made of a name by what is applied to it.
#[derive(Drop)]
pub enum Made {
    /// Nothing: it is the name alone.
    Bare,
    /// Selects of its value, in order.
    Part(Vec<Step>),
    /// A value, or the first fault.
    Whole(Judged),
}
