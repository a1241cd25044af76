// The null mask of a batch, in words and marks.
use array_columns::Refusal;
use logical_nulls::Route;
use program_kit::view::View;
use std::fmt;

// The null mask of a batch's slots at a setting: its words, if it is present.
// A batch has at most 4,096 slots, so 64 words hold its mask.
#[derive(Clone, Copy)]
pub struct Mask {
    setting: usize,
    slots: usize,
    nulls: usize,
    route: Route,
    words: Option<[u64; 64]>,
}

impl Mask {
    pub fn new(view: &View<'_>, setting: usize) -> Result<Mask, Refusal> {
        let mut words = [0u64; 64];
        let r = view.nulls_at(setting, &mut words)?;
        Ok(Mask {
            setting,
            slots: view.array.count,
            nulls: r.null_count.unwrap_or(0),
            route: r.route,
            words: r.null_count.map(|_| words),
        })
    }

    // Whether a slot is marked null: the mask is present, and its bit is clear.
    pub fn is_null(&self, i: usize) -> bool {
        let Some(words) = &self.words else {
            return false;
        };
        words.get(i / 64).is_some_and(|w| (*w >> (i % 64)) & 1 == 0)
    }
}

// In this program's words, so not by a `Display` of the route.
fn route_name(route: Route) -> &'static str {
    match route {
        Route::Absent => "no column has a null",
        Route::OneField => "one column",
        Route::AllNull => "only nulls",
        Route::Gather => "gather",
        Route::SkipOne => "skip one",
        Route::SkipWithoutNulls => "skip without nulls",
        Route::SkipFullyNull => "skip fully null",
    }
}

// What the mask answers, but for its words.
impl fmt::Display for Mask {
    fn fmt<W: fmt::Write>(&self, f: &mut fmt::Formatter<W>) -> fmt::Result {
        let Mask {
            setting,
            slots,
            nulls,
            route,
            words,
        } = *self;
        let there = if words.is_some() { "present" } else { "absent" };
        let number = route.number();
        let name = route_name(route);
        write!(
            f,
            "nulls {nulls} of {slots}, mask {there}, route {number} ({name}) at setting {setting}"
        )
    }
}

// The marks of a mask's slots, if it is present: lines of 64, each after a line's end.
#[derive(Clone, Copy)]
pub struct Marks<'a>(pub &'a Mask);

impl fmt::Display for Marks<'_> {
    fn fmt<W: fmt::Write>(&self, f: &mut fmt::Formatter<W>) -> fmt::Result {
        let mask = self.0;
        if mask.words.is_none() {
            return Ok(());
        }
        let mut marks = [b'.'; 64];
        // By slot number, which is what a mask is asked. A line is written at once.
        for i in 0..mask.slots {
            let k = i % 64;
            marks[k] = if mask.is_null(i) { b'N' } else { b'.' };
            if k == 63 || i + 1 == mask.slots {
                let first = i - k;
                let line = str::from_utf8(&marks[..k + 1]).unwrap_or("");
                write!(f, "\n{first:>10}  {line}")?;
            }
        }
        Ok(())
    }
}
