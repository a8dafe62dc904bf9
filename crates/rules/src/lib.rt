// The rules of ordering units along a line. Each function's contract names one theorem on the rules.
#![tactic(auto)]

ghost use Rattle.rules.specs.Runs.{Promise};
ghost use Rattle.rules.specs.Recurrence.{Recurrence, CellsMean, FewWays, NoCircle};
ghost use Rattle.rules.specs.Theorems.{Opens, RowTestsMean, YardsticksLawful, MovesLawful, Improving, Line, Loss, Pattern, TiedPattern, Comparisons, Unbroken};
ghost use Rattle.rules.specs.Examples.{WorkedExamples};

// The mark of a pair: a gap, or how unlike its two units are.
#[derive(Clone, Copy, PartialEq, Eq, Debug)]
pub enum Mark {
    Gap,
    Number(u16),
}

// What holds of every sheet after any list of calls.
pub fn promise_stands()
    ensures { Promise }
{}

// The eight worked examples.
pub fn examples_hold()
    ensures { WorkedExamples }
{}

// The recurrence of the search over sets.
pub fn recurrence_stands()
    ensures { Recurrence }
{}

// What the best total and the listed ways of a set mean.
pub fn cells_mean()
    ensures { CellsMean }
{}

// The counts of the search fit 64 bits.
pub fn counts_fit()
    ensures { FewWays }
{}

// When some order keeps the ties.
pub fn circle_test_means()
    ensures { NoCircle }
{}

// When Open is accepted.
pub fn open_test_means()
    ensures { Opens }
{}

// What the tests of a row mean.
pub fn row_tests_mean()
    ensures { RowTestsMean }
{}

// Spread, gradient and target keep the laws.
pub fn yardsticks_lawful()
    ensures { YardsticksLawful }
{}

// Interchange and insertion keep the laws.
pub fn moves_lawful()
    ensures { MovesLawful }
{}

// What improving leaves, and what settled means.
pub fn improving_stands()
    ensures { Improving }
{}

// The least-squares line, and its loss.
pub fn line_and_loss()
    ensures { Line × Loss }
{}

// The anti-Robinson pattern and the gradient.
pub fn pattern_stands()
    ensures { Pattern × TiedPattern }
{}

// What Check counts.
pub fn check_counts()
    ensures { Comparisons × Unbroken }
{}
