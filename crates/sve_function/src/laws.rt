ghost use Rattle.sve_function.specs.Follows.{FactsFollow};

/// What is found of a package depends on its file, its chunk and its element, and on what the packages tell whose names stand in the text
/// of the element, on nothing else: where two tables of packages tell the same by each of these names, what is found over both is the same
/// (IEEE 1800-2017, clause 26).
pub fn facts_follow()
    ensures { FactsFollow }
{}
