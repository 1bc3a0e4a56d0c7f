ghost use Rattle.sve_package.specs.FirstFunctions.{FirstFunctionsAreAhead};

/// Of each name the first declaration of a text is seen before the text comes to it where it is a function, unless the name was declared
/// before the text; of no other declaration is anything seen ahead (IEEE 1800-2017, 13.4 and 23.9).
pub fn first_functions_are_ahead()
    ensures { FirstFunctionsAreAhead }
{}
