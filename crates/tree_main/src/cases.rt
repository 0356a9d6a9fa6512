// The cases: each prints what the checks say of a tree. Only safety is proved here.
use crate::build::{Fault, Field};
use crate::trees::{
    between, counted, faulty, faulty_deep, faulty_part, good_and, many, nested, part,
};
use std::io;

pub fn limits(rt: &impl Print) -> io::Result<()> {
    many(rt, 0)?;
    many(rt, 4096)?;
    many(rt, 4097)?;
    counted(rt, 7, 0, 255)?;
    counted(rt, 7, 0, 256)?;
    counted(rt, 8, 1, 255)?;
    counted(rt, 8, 1, 256)?;
    counted(rt, 10, 0, 255)?;
    counted(rt, 12, 0, 256)
}

// Nesting 64, 65 and 66, and 65 with a child missing.
pub fn nestings(rt: &impl Print) -> io::Result<()> {
    nested(rt, 63, 64)?;
    nested(rt, 64, 65)?;
    nested(rt, 65, 66)?;
    nested(rt, 65, 65)
}

// Trees one after another, a leaf last; the begin made an and, a when and an unless.
pub fn rows(rt: &impl Print) -> io::Result<()> {
    between(rt, 3)?;
    good_and(rt, 19)?;
    faulty(rt, &[Fault::new(13, Field::Form, 10)])?;
    faulty(rt, &[Fault::new(13, Field::Form, 11)])?;
    faulty(rt, &[Fault::new(13, Field::Form, 12)])
}

// All of the good tree, its first tree, all but its last number and record, and too many names.
pub fn parts(rt: &impl Print) -> io::Result<()> {
    part(rt, 108, 2)?;
    part(rt, 60, 2)?;
    part(rt, 107, 2)?;
    part(rt, 102, 2)?;
    part(rt, 1, 2)?;
    part(rt, 108, 1024)?;
    part(rt, 108, 1025)
}

// Unknown forms; ids missing, on an if, the last one and the one above it.
pub fn forms_and_ids(rt: &impl Print) -> io::Result<()> {
    faulty(rt, &[Fault::new(0, Field::Form, 0)])?;
    faulty(rt, &[Fault::new(16, Field::Form, 13)])?;
    faulty(rt, &[Fault::new(8, Field::Id, 0)])?;
    faulty(rt, &[Fault::new(7, Field::Id, 0)])?;
    faulty(rt, &[Fault::new(4, Field::Id, 15)])?;
    faulty(rt, &[Fault::new(9, Field::Id, 4294967294)])?;
    faulty(rt, &[Fault::new(9, Field::Id, 4294967295)])
}

// An unknown name, a constant marked 2, a lambda with a name, a define with a count, a let of 256.
pub fn names_and_counts(rt: &impl Print) -> io::Result<()> {
    faulty(rt, &[Fault::new(5, Field::Name, 2)])?;
    faulty(rt, &[Fault::new(6, Field::Name, 2)])?;
    faulty(rt, &[Fault::new(2, Field::Name, 1)])?;
    faulty(rt, &[Fault::new(0, Field::Count, 1)])?;
    faulty(rt, &[Fault::new(10, Field::Count, 256)])
}

// A child missing, nesting 65, a constant in place of a parameter, a let name and a set target, a call of nothing, an unless of nothing, an id
// again.
pub fn shapes(rt: &impl Print) -> io::Result<()> {
    faulty(rt, &[Fault::new(13, Field::Count, 3)])?;
    faulty_deep(rt, Fault::new(0, Field::Form, 5))?;
    faulty(rt, &[Fault::new(3, Field::Form, 2)])?;
    faulty(rt, &[Fault::new(11, Field::Form, 2)])?;
    faulty(rt, &[Fault::new(15, Field::Form, 2)])?;
    faulty(rt, &[Fault::new(7, Field::Count, 0)])?;
    faulty(
        rt,
        &[
            Fault::new(13, Field::Form, 12),
            Fault::new(13, Field::Count, 0),
        ],
    )?;
    faulty(rt, &[Fault::new(17, Field::Id, 1)])
}

// The checks 3, 6, 7 and 8, each at two records.
pub fn firsts(rt: &impl Print) -> io::Result<()> {
    faulty(
        rt,
        &[Fault::new(9, Field::Name, 2), Fault::new(5, Field::Name, 2)],
    )?;
    faulty(
        rt,
        &[Fault::new(3, Field::Form, 2), Fault::new(1, Field::Form, 2)],
    )?;
    faulty(
        rt,
        &[
            Fault::new(8, Field::Form, 8),
            Fault::new(7, Field::Count, 0),
        ],
    )?;
    faulty(
        rt,
        &[Fault::new(17, Field::Id, 1), Fault::new(5, Field::Id, 3)],
    )
}

// Two checks: 1 and 2, 1 and 3, 2 and 3, 2 and 4, 3 and 4, 3 and 5, 3 and 6, 3 and 8.
pub fn early_pairs(rt: &impl Print) -> io::Result<()> {
    faulty_part(rt, Fault::new(0, Field::Form, 5), 107, 1025)?;
    faulty_part(rt, Fault::new(0, Field::Form, 0), 107, 2)?;
    faulty_part(rt, Fault::new(0, Field::Form, 0), 108, 1025)?;
    faulty_part(rt, Fault::new(0, Field::Form, 5), 102, 1025)?;
    faulty_part(rt, Fault::new(5, Field::Name, 2), 102, 2)?;
    faulty_deep(rt, Fault::new(5, Field::Name, 2))?;
    faulty(
        rt,
        &[
            Fault::new(16, Field::Form, 13),
            Fault::new(3, Field::Form, 2),
        ],
    )?;
    faulty(
        rt,
        &[Fault::new(16, Field::Form, 13), Fault::new(5, Field::Id, 3)],
    )
}

// 4 and 6, 4 and 7, 4 and 8, 5 and 6, 5 and 8, 6 and 7, 6 and 8, 7 and 8.
pub fn late_pairs(rt: &impl Print) -> io::Result<()> {
    faulty_part(rt, Fault::new(3, Field::Form, 2), 102, 2)?;
    faulty_part(rt, Fault::new(7, Field::Count, 0), 102, 2)?;
    faulty_part(rt, Fault::new(5, Field::Id, 3), 102, 2)?;
    faulty_deep(rt, Fault::new(3, Field::Form, 2))?;
    faulty_deep(rt, Fault::new(5, Field::Id, 3))?;
    faulty(
        rt,
        &[
            Fault::new(11, Field::Form, 2),
            Fault::new(7, Field::Count, 0),
        ],
    )?;
    faulty(
        rt,
        &[Fault::new(15, Field::Form, 2), Fault::new(5, Field::Id, 3)],
    )?;
    faulty(
        rt,
        &[Fault::new(7, Field::Count, 0), Fault::new(5, Field::Id, 3)],
    )
}
