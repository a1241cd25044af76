// The calls of a case, made, and their answers.
use crate::calls::{Ask, Op};
use crate::cases::Readings;
use crate::print;
use array_columns::{BuffersMut, Refusal};
use logical_nulls::LogicalNulls;
use program_kit::output::Writer;
use program_kit::view::View;
use program_kit::{builders, output};
use std::io;
use union_array::UnionArray;
use union_builder::UnionBuilder;

// What calls are made on: the builder, and the array that it finished last or one of its slices.
#[derive(Clone, Copy)]
pub struct Subject {
    pub builder: UnionBuilder,
    pub array: UnionArray,
}

// A null mask, into at most 8 words of ones.
fn nulls<F: FnOnce(&mut [u64]) -> Result<LogicalNulls, Refusal>>(
    to: &mut Writer,
    n: usize,
    mask: F,
) -> io::Result<()>
    requires { F.IsAlwaysCallable mask }
{
    let mut words = [u64::MAX; 8];
    let out = &mut words[..n.min(8)];
    let r = mask(out);
    print::answer(to, r, |to, r| print::nulls(to, r, out))
}

// A call on the array, or what is told of it and of lent memory.
fn asked(to: &mut Writer, ask: Ask, view: View) -> io::Result<()> {
    let lent = view.lent;
    match ask {
        Ask::TryNew => print::answer(to, view.try_new(), print::nothing),
        Ask::Value(i) => print::answer(to, view.value(i), print::value),
        Ask::TypeId(i) => print::answer(to, view.type_id(i), output::id),
        Ask::ValueOffset(i) => print::answer(to, view.value_offset(i), output::number),
        Ask::Child(id) => print::answer(to, view.child(id), |to, child| {
            print::child(to, child, lent.names)
        }),
        Ask::TypeNames => print::answer(to, view.type_names(), |to, t| {
            print::type_names(to, t, lent.names)
        }),
        Ask::IsDense => print::answer(to, view.is_dense(), print::flag),
        Ask::IsNullable => print::answer(to, view.is_nullable(), print::flag),
        Ask::NullsAt(setting, n) => nulls(to, n, |out| view.nulls_at(setting, out)),
        Ask::NullsBy(strategy, n) => nulls(to, n, |out| view.nulls_by(strategy, out)),
        Ask::TypeIds => print::answer(to, view.type_ids(), print::ids),
        Ask::Fields => print::told(to, view, print::fields),
        Ask::Words(id) => print::answer(to, view.child(id), |to, child| {
            print::child_words(to, child, lent.values)
        }),
        Ask::Lent => print::told(to, lent, print::lent),
    }
}

// An answered array is what the next calls are made on; a refused call leaves the one before.
fn kept<F: FnOnce(&mut Writer, UnionArray) -> io::Result<()> + Drop>(
    to: &mut Writer,
    array: &mut UnionArray,
    answer: Result<UnionArray, Refusal>,
    tell: F,
) -> io::Result<()>
    requires { F.IsAlwaysCallable tell }
{
    if let Ok(made) = answer {
        *array = made;
    }
    print::answer(to, answer, tell)
}

impl Subject {
    // Makes a call over the memory lent to it, and writes its answer.
    pub fn call(
        &mut self,
        to: &mut Writer,
        op: Op,
        readings: &Readings,
        memory: &mut BuffersMut,
    ) -> io::Result<()> {
        let Subject { builder, array } = self;
        let lent = &memory.shared();
        let view = View {
            array: *array,
            lent,
        };
        match op {
            Op::Ask(ask) => asked(to, ask, view),
            Op::Slice(start, count) => {
                let r = view.slice(start, count);
                kept(to, array, r, |to, a| output::number(to, a.count))
            }
            Op::Make(layout, slots, columns) => {
                let r = builders::make(layout, slots, columns, lent);
                *builder = r.unwrap_or(builders::refused());
                print::answer(to, r, print::nothing)
            }
            Op::Append(k, value) => {
                let r = builders::append(builder, &readings.at(k, value), memory);
                print::answer(to, r, print::nothing)
            }
            Op::Len => print::told(to, builders::len(builder), output::number),
            Op::FinishCloned => {
                let r = builders::finish_cloned(builder, lent);
                kept(to, array, r, print::counts)
            }
            Op::Finish => {
                let r = builders::finish(builder, lent);
                kept(to, array, r, print::counts)
            }
        }
    }
}
