// What the calls answer, as C structs.
ghost use Rattle.std.specs.Prelude.{◌≡◌};
ghost use Rattle.array_columns.specs.Refusal.{refusal_number};
ghost use Rattle.union_array.specs.Lookup.{value_told, type_id_told, value_offset_told, child_told, type_names_told, flag_told};
ghost use Rattle.union_array.specs.Slices.{slice_told};
ghost use Rattle.logical_nulls.specs.Mask.{numbers_of};
ghost use Rattle.union_builder.specs.Builder.{made_told};
ghost use Rattle.union_builder.specs.Append.{appended_told};
ghost use Rattle.union_builder.specs.Finish.{finished_told};
ghost use Rattle.union_c.specs.Arrays.{value_to, type_id_to, value_offset_to, child_to, type_names_to, flag_to, slice_to};
ghost use Rattle.union_c.specs.Nulls.{nulls_to};
ghost use Rattle.union_c.specs.Builders.{built, made_to, appended_to, kept_with, finished_to};

use crate::convert::{in_use, turned};
use crate::{
    CArray, CBuilder, CBuilt, CChild, CColumn, CFinished, CFlag, CNamePlace, CNulls, CSlice,
    CTypeId, CTypeNames, CValue, CValueOffset,
};
use array_columns::refusals::number_of;
use array_columns::{Column, Refusal, Value};
use logical_nulls::LogicalNulls;
use union_array::{TypeNames, UnionArray};
use union_builder::{Appended, Finished, UnionBuilder};

impl From<Result<Value, Refusal>> for CValue {
    ghost from_gives = { λ answer c. c ≡ value_to (value_told answer) };

    fn from(answer: Result<Value, Refusal>) -> CValue {
        match answer {
            Ok(v) => CValue {
                bits: v.value.unwrap_or(0),
                name: v.name,
                size: v.size,
                refusal: 0,
                id: v.id,
                kind: v.kind.number(),
                missing: v.value.is_none() as u8,
            },
            Err(refusal) => CValue {
                bits: 0,
                name: [0; 32],
                size: 0,
                refusal: refusal.number(),
                id: 0,
                kind: 0,
                missing: 0,
            },
        }
    }
}

impl From<Result<i8, Refusal>> for CTypeId {
    ghost from_gives = { λ answer c. c ≡ type_id_to (type_id_told answer) };

    fn from(answer: Result<i8, Refusal>) -> CTypeId {
        CTypeId {
            refusal: number_of(answer),
            id: answer.unwrap_or(0),
        }
    }
}

impl From<Result<usize, Refusal>> for CValueOffset {
    ghost from_gives = { λ answer c. c ≡ value_offset_to (value_offset_told answer) };

    fn from(answer: Result<usize, Refusal>) -> CValueOffset {
        CValueOffset {
            offset: answer.unwrap_or(0),
            refusal: number_of(answer),
        }
    }
}

impl From<Result<Column, Refusal>> for CChild {
    ghost from_gives = { λ answer c. c ≡ child_to (child_told answer) };

    fn from(answer: Result<Column, Refusal>) -> CChild {
        CChild {
            column: CColumn::from(answer.unwrap_or(Column::zeros())),
            refusal: number_of(answer),
        }
    }
}

impl From<Result<TypeNames, Refusal>> for CTypeNames {
    ghost from_gives = { λ answer c. c ≡ type_names_to (type_names_told answer) };

    #[tactic(auto, using(crate::proofs::Maps::written_is, crate::proofs::Maps::first_none), unfolding(crate::specs::Arrays::type_names_to))]
    fn from(answer: Result<TypeNames, Refusal>) -> CTypeNames {
        let none = [CNamePlace { start: 0, size: 0 }; 128];
        match answer {
            Ok(t) => CTypeNames {
                names: turned(&t.names[..in_use(t.count)], none),
                count: t.count,
                refusal: 0,
            },
            Err(refusal) => CTypeNames {
                names: none,
                count: 0,
                refusal: refusal.number(),
            },
        }
    }
}

impl From<Result<bool, Refusal>> for CFlag {
    ghost from_gives = { λ answer c. c ≡ flag_to (flag_told answer) };

    fn from(answer: Result<bool, Refusal>) -> CFlag {
        CFlag {
            refusal: number_of(answer),
            holds: answer.unwrap_or(false) as u8,
        }
    }
}

impl From<Result<UnionArray, Refusal>> for CSlice {
    ghost from_gives = { λ answer c. c ≡ slice_to (slice_told answer) };

    fn from(answer: Result<UnionArray, Refusal>) -> CSlice {
        match answer {
            Ok(array) => CSlice {
                array: CArray::from(array),
                refusal: 0,
            },
            Err(refusal) => CSlice {
                array: CArray::from(UnionArray::empty()),
                refusal: refusal.number(),
            },
        }
    }
}

impl From<Result<LogicalNulls, Refusal>> for CNulls {
    ghost from_gives = { λ answer c. c ≡ nulls_to (numbers_of answer) };

    fn from(answer: Result<LogicalNulls, Refusal>) -> CNulls {
        match answer {
            Ok(r) => CNulls {
                nulls: r.null_count.unwrap_or(0),
                refusal: 0,
                route: r.route.number(),
                present: r.null_count.is_some() as u8,
            },
            Err(refusal) => CNulls {
                nulls: 0,
                refusal: refusal.number(),
                route: 0,
                present: 0,
            },
        }
    }
}

impl From<Result<UnionBuilder, Refusal>> for CBuilt {
    ghost from_gives = { λ answer c. c ≡ made_to (made_told answer) };

    #[tactic(auto, unfolding(crate::specs::Builders::builder_into, crate::specs::Numbers::first_by))]
    fn from(answer: Result<UnionBuilder, Refusal>) -> CBuilt {
        match answer {
            Ok(b) => CBuilt {
                builder: CBuilder::from(b),
                refusal: 0,
            },
            Err(refusal) => CBuilder::zeros().refused(refusal),
        }
    }
}

impl CBuilder {
    // What a refused append answers: the builder as it came.
    pub fn refused(&self, refusal: Refusal) -> CBuilt
        ensures { result ≡ built self.now (refusal_number refusal) }
    {
        CBuilt {
            builder: *self,
            refusal: refusal.number(),
        }
    }

    // What an append answers; refused, the builder is handed back as it came.
    pub fn appended(&self, a: Appended) -> CBuilt
        ensures { result ≡ appended_to self.now (appended_told a) }
    {
        match a.answer {
            Ok(()) => CBuilt {
                builder: self.holding(a.builder),
                refusal: 0,
            },
            Err(refusal) => self.refused(refusal),
        }
    }

    // What a finish answers that leaves the builder as it came.
    pub fn kept(&self, answer: Result<UnionArray, Refusal>) -> CFinished
        ensures { result ≡ kept_with self.now (slice_told answer) }
    {
        let told = CSlice::from(answer);
        CFinished {
            builder: *self,
            array: told.array,
            refusal: told.refusal,
        }
    }

    // What a finish answers that empties the builder; refused, the builder is handed back as it came.
    pub fn finished(&self, f: Finished) -> CFinished
        ensures { result ≡ finished_to self.now (finished_told f) }
    {
        match f.answer {
            Ok(a) => CFinished {
                builder: CBuilder::from(f.builder),
                array: CArray::from(a),
                refusal: 0,
            },
            Err(refusal) => self.kept(Err(refusal)),
        }
    }
}
