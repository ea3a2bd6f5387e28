// Laws of fills: each function's contract is its law.
ghost use Rattle.kept_fills.specs.Fills.{NewBookGoes, FillsStay};

/// A hart that has made no step has a table without fills.
pub fn law_new_book()
    ensures { NewBookGoes }
{}

/// Over steps that leave the words of its table as they were, a hart's entries are of the same fills.
pub fn law_fills_stay()
    ensures { FillsStay }
{}
