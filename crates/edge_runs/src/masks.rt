// The null mask at each setting, and by each named strategy.
use crate::print;
use crate::print::yes;
use array_columns::Refusal;
use array_columns::refusals::number_of;
use logical_nulls::{LogicalNulls, SparseStrategy};
use null_strategy::Route;
use program_kit::output::Writer;
use program_kit::view::View;
use std::io;
use std::io::Write;

// What stands for a null mask that is refused.
const ABSENT: LogicalNulls = LogicalNulls {
    null_count: None,
    route: Route::Absent,
};

// A null mask on a line: number, present, null count, route, words.
fn line<F: FnOnce(&mut [u64]) -> Result<LogicalNulls, Refusal>>(
    to: &mut Writer,
    mask: F,
) -> io::Result<()>
    requires { F.IsAlwaysCallable mask }
{
    let mut words = [0xff; 3];
    let answer = mask(&mut words);
    let nulls = answer.unwrap_or(ABSENT);
    write!(to, ": {}", number_of(answer))?;
    write!(to, " {}", yes(nulls.null_count.is_some()))?;
    write!(to, " {}", nulls.null_count.unwrap_or(0))?;
    write!(to, " {}", nulls.route.number())?;
    print::words(to, &words)?;
    writeln!(to)
}

// The null mask at each setting, at a number that is none, and by each named strategy.
pub fn lines(to: &mut Writer, view: &View) -> io::Result<()> {
    for setting in [10, 3, 2, 0, 4] {
        write!(to, "  mask at {setting}")?;
        line(to, |out| view.nulls_at(setting, out))?;
    }
    for (name, strategy) in [
        ("gather", SparseStrategy::Gather),
        ("skip one", SparseStrategy::SkipOne),
        ("skip without nulls", SparseStrategy::SkipWithoutNulls),
        ("skip fully null", SparseStrategy::SkipFullyNull),
    ] {
        write!(to, "  {name}")?;
        line(to, |out| view.nulls_by(strategy, out))?;
    }
    Ok(())
}

// With no word lent: at a setting, at a number that is none, and by a strategy.
pub fn no_words(to: &mut Writer, view: &View) -> io::Result<()> {
    let at_10 = view.nulls_at(10, &mut []);
    write!(to, "  no word lent: mask at 10: {}", number_of(at_10))?;
    let at_4 = view.nulls_at(4, &mut []);
    write!(to, ", at 4: {}", number_of(at_4))?;
    let gather = view.nulls_by(SparseStrategy::Gather, &mut []);
    writeln!(to, ", gather: {}", number_of(gather))
}
