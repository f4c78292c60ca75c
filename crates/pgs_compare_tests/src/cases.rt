//! Cases: what three OSDs have, and all that is found of it.
use crate::comparing::report_of;
use crate::making::Copies;
use crate::sketch::{Sketch, head};
use crate::telling::told;
use std::alloc::Global;
use std::test::Fail;

#[derive(Clone, Copy, Drop)]
pub struct Case {
    name: &'static str,
    osds: [Copies; 3],
    wanted: &'static str,
}

/// What each of the OSDs 4, 5 and 6 has.
pub fn each_has(name: &'static str, osds: [Copies; 3], wanted: &'static str) -> Case {
    Case { name, osds, wanted }
}

/// All have the same copies.
pub fn all_have(name: &'static str, copies: [Option<Sketch>; 3], wanted: &'static str) -> Case {
    let copies = in_order(copies);
    each_has(name, [copies, copies, copies], wanted)
}

/// All have the same copy of one position.
pub fn all_have_one(name: &'static str, copy: Sketch, wanted: &'static str) -> Case {
    all_have(name, [Some(copy), None, None], wanted)
}

/// Each has its copy of one position.
pub fn of_one(name: &'static str, copies: [Option<Sketch>; 3], wanted: &'static str) -> Case {
    let [first, second, third] = copies;
    each_has(name, [alone(first), alone(second), alone(third)], wanted)
}

/// The OSD 5 has this copy of the head, and the others have good ones.
pub fn beside_good(name: &'static str, copy: Sketch, wanted: &'static str) -> Case {
    of_one(name, [Some(head()), Some(copy), Some(head())], wanted)
}

/// Copies of positions in their order.
pub fn in_order(copies: [Option<Sketch>; 3]) -> Copies {
    let [first, second, third] = copies;
    Copies {
        first,
        second,
        third,
    }
}

/// A copy of one position alone.
pub fn alone(copy: Option<Sketch>) -> Copies {
    in_order([copy, None, None])
}

/// What is found in the cases in which it isn't what is wanted.
pub fn wrong(alloc: Global, cases: &[Case]) -> Result<String, Fail> {
    let mut text = String::new(alloc);
    for case in cases {
        check(alloc, case, &mut text)?;
    }
    Ok(text)
}

fn check(alloc: Global, case: &Case, text: &mut String) -> Result<(), Fail> {
    let report = report_of(alloc, case.osds)?;
    let found = told(alloc, &report)?;
    if found.as_str() != case.wanted {
        let name = case.name;
        write!(text, "{name}: {found}\n")?;
    }
    Ok(())
}
